// What an entry hands back that was handed a state: what it tells, and the state after it.
#[derive(Clone, Copy, Debug, PartialEq, Eq)]
pub struct Stepped<A, S> {
    pub answer: A,
    pub state: S,
}

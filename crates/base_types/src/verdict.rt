use crate::address::Page;

// How the walk from a page ends: at a valid page, after so many hops; never; or at a byte that names a page above the last one.
#[derive(Clone, Copy, Debug, PartialEq, Eq)]
pub enum Verdict {
    Final(Page, u8),
    Loop,
    Outside(u8),
}

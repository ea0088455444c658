// What the runs of all masters share.
ghost use Rattle.std.specs.Prelude.{◌≡◌, ℕ, Bool, List, true, ◌&&◌, length, map};
ghost use Rattle.base_types.specs.Outcome.{Outcome, accepted, done, outcome_of, in_order};
ghost use Rattle.bus_scripts.specs.Next.{Next, next_outcome};
ghost use Rattle.master_runs.specs.Calls.{are_replies, call_code, last_from, to_come, fed_calls, fed_answers, last_told, last_state, event_bytes};

use base_types::refusal;
use base_types::refusal::Refusal;
use base_types::stepped::Stepped;
use bus_events::Next;

// A master, by its calls: the state after a call, what the call tells, and the values that its end tells. Proofs see the state as Seen.
pub(crate) trait Master: Copy {
    type End: Copy;

    ghost Seen: { Type 0 };

    ghost seen: { Self → Seen };

    ghost called: { Seen → Bool → Seen };

    ghost told: { Seen → Bool → Outcome Next };

    ghost values: { Self.End → List ℕ };

    fn call(self, reply: bool) -> Stepped<Result<Next<Self::End>, Refusal>, Self>
        ensures state { seen result.state ≡ called (seen self) reply }
        ensures answer { next_outcome values result.answer ≡ told (seen self) reply };
}

// All bytes are replies, 0 or 1.
#[tactic(auto, unfolding(crate::specs::Calls::are_replies))]
fn are_replies(codes: &[u8]) -> bool
    ensures { result ≡ are_replies codes.now }
{
    codes.iter().all(|code| *code < 2)
}

// The state and the replies, then the buffers. Refused: 2, 10.
pub(crate) fn judge(in_range: bool, replies: &[u8], lengths: bool) -> Result<(), Refusal>
    ensures { outcome_of result ≡ in_order true (in_range && are_replies replies.now) lengths }
{
    refusal::in_order(true, in_range && are_replies(replies), lengths)
}

// The byte of an answer: its event, or FFh where it tells none.
#[tactic(auto, unfolding(crate::specs::Calls::call_code))]
pub(crate) fn code<E>(answer: &Result<Next<E>, Refusal>) -> u8
    ensures { (values : E → List ℕ) → result ≡ call_code (next_outcome values answer.now) }
{
    match answer {
        Ok(Next::Send(event)) => u8::from(*event),
        Ok(Next::End(_)) | Err(_) => 0xFF,
    }
}

// The state after the calls, and the last answer; with no call, the reset to come.
#[tactic(auto, unfolding(crate::specs::Calls::last_from))]
pub(crate) fn feed<M: Master>(
    start: M,
    replies: &[u8],
    events: &mut [u8],
) -> Stepped<Result<Next<M::End>, Refusal>, M>
    requires { length events.old ≡ length replies.now }
    ensures state { M.seen result.state ≡ fed_calls M.called M.told (M.seen start) replies.now }
    ensures answer { next_outcome M.values result.answer ≡ last_from to_come (fed_answers M.called M.told (M.seen start) replies.now) }
    ensures events { events.new ≡ map call_code (fed_answers M.called M.told (M.seen start) replies.now) }
{
    let mut last = Stepped {
        answer: Ok(Next::Send(bus_events::reset())),
        state: start,
    };
    // By index, since a proof knows nothing of what is written through `iter_mut` under `zip`.
    for (i, reply) in replies.iter().enumerate() {
        last = last.state.call(*reply == 1);
        events[i] = code(&last.answer);
    }
    last
}

// A run that has been judged. Refused: what the judgement refuses, with the same state.
pub(crate) fn run<M: Master>(
    start: M,
    judged: Result<(), Refusal>,
    replies: &[u8],
    events: &mut [u8],
) -> Stepped<Result<Next<M::End>, Refusal>, M>
    requires { outcome_of judged ≡ accepted done → length events.old ≡ length replies.now }
    ensures state { M.seen result.state ≡ last_state M.called M.told (outcome_of judged) (M.seen start) replies.now }
    ensures answer { next_outcome M.values result.answer ≡ last_told M.called M.told (outcome_of judged) (M.seen start) replies.now }
    ensures events { events.new ≡ event_bytes M.called M.told (outcome_of judged) (M.seen start) replies.now events.old }
{
    match judged {
        Ok(()) => feed(start, replies, events),
        Err(refusal) => Stepped {
            answer: Err(refusal),
            state: start,
        },
    }
}

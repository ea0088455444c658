// The number read fed a list of replies.
ghost use Rattle.std.specs.Prelude.{◌≡◌};
ghost use Rattle.base_types.specs.Outcome.{outcome_of};
ghost use Rattle.master_number.specs.declared.NumberRead.{NumberRead};
ghost use Rattle.master_number.specs.NumberRead.{answer_outcome, number_answer, number_state};
ghost use Rattle.master_runs.specs.Number.{number_fed_judged, number_fed_outcome, number_fed_state, number_fed_events};

use crate::calls;
use crate::calls::Master;
use base_types::refusal::Refusal;
use base_types::stepped::Stepped;
use bus_events::Next;
use master_number::NumberRead;

impl Master for NumberRead {
    type End = [u8; 8];

    ghost Seen = { NumberRead };

    ghost seen = { λ s. s };

    ghost called = { number_state };

    ghost told = { number_answer };

    ghost values = { λ bytes. bytes };

    fn call(self, reply: bool) -> Stepped<Result<Next<[u8; 8]>, Refusal>, NumberRead> {
        master_number::call(self, reply)
    }
}

// Whether the read can be fed these replies. Refused: 2 for a state outside its ranges and for a byte that is no reply, 10 for an
// events' buffer that has not a byte for each reply.
#[tactic(auto, unfolding(crate::specs::Number::number_fed_judged))]
pub fn judge(start: NumberRead, replies: &[u8], events: &[u8]) -> Result<(), Refusal>
    ensures { outcome_of result ≡ number_fed_judged start replies.now events.now }
{
    calls::judge(
        master_number::in_range(start),
        replies,
        events.len() == replies.len(),
    )
}

// The state after the calls, and the last answer; with no call, the reset to come. Refused: 2, 10, with the same state.
#[tactic(auto, unfolding(crate::specs::Number::number_fed_judged, crate::specs::Number::number_fed_outcome, crate::specs::Number::number_fed_state, crate::specs::Number::number_fed_events))]
pub fn run(
    start: NumberRead,
    replies: &[u8],
    events: &mut [u8],
) -> Stepped<Result<Next<[u8; 8]>, Refusal>, NumberRead>
    ensures state { result.state ≡ number_fed_state start replies.now events.old }
    ensures answer { answer_outcome result.answer ≡ number_fed_outcome start replies.now events.old }
    ensures events { events.new ≡ number_fed_events start replies.now events.old }
{
    calls::run(start, judge(start, replies, events), replies, events)
}

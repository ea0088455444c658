// The publisher's later calls fed a list of replies.
ghost use Rattle.std.specs.Prelude.{◌≡◌, ◌∷◌, []};
ghost use Rattle.base_types.specs.Outcome.{outcome_of};
ghost use Rattle.master_publisher.specs.declared.Publisher.{Publisher};
ghost use Rattle.master_publisher.specs.Call.{turn_outcome, call_answer, call_state};
ghost use Rattle.master_runs.specs.Publisher.{publisher_fed_judged, publisher_fed_outcome, publisher_fed_state, publisher_fed_events};

use crate::calls;
use crate::calls::Master;
use base_types::address::Page;
use base_types::refusal::Refusal;
use base_types::stepped::Stepped;
use bus_events::Next;
use chip_memory::layout;
use master_publisher::Publisher;

impl Master for Publisher {
    type End = (Page, Page);

    ghost Seen = { Publisher };

    ghost seen = { λ s. s };

    ghost called = { call_state 64 };

    ghost told = { call_answer 64 };

    ghost values = { λ pages. pages.0.0 ∷ pages.1.0 ∷ [] };

    fn call(self, reply: bool) -> Stepped<Result<Next<(Page, Page)>, Refusal>, Publisher> {
        master_publisher::call(self, reply)
    }
}

// Whether the publisher can be fed these replies. Refused: 2 for a state outside its ranges and for a byte that is no reply, 10 for an
// events' buffer that has not a byte for each reply.
#[tactic(auto, unfolding(crate::specs::Publisher::publisher_fed_judged))]
pub fn judge(start: Publisher, replies: &[u8], events: &[u8]) -> Result<(), Refusal>
    ensures { outcome_of result ≡ publisher_fed_judged 64 start replies.now events.now }
{
    calls::judge(
        master_publisher::in_range(layout::DS2505, start),
        replies,
        events.len() == replies.len(),
    )
}

// The state after the calls, and the last answer; with no call, the reset to come. Refused: 2, 10, with the same state.
#[tactic(auto, unfolding(crate::specs::Publisher::publisher_fed_judged, crate::specs::Publisher::publisher_fed_outcome, crate::specs::Publisher::publisher_fed_state, crate::specs::Publisher::publisher_fed_events))]
pub fn run(
    start: Publisher,
    replies: &[u8],
    events: &mut [u8],
) -> Stepped<Result<Next<(Page, Page)>, Refusal>, Publisher>
    ensures state { result.state ≡ publisher_fed_state 64 start replies.now events.old }
    ensures answer { turn_outcome result.answer ≡ publisher_fed_outcome 64 start replies.now events.old }
    ensures events { events.new ≡ publisher_fed_events 64 start replies.now events.old }
{
    calls::run(start, judge(start, replies, events), replies, events)
}

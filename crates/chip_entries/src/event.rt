// The chip, driven by bus events.
ghost use Rattle.std.specs.Prelude.{◌≡◌, true, ◌&&◌, length};
ghost use Rattle.base_types.specs.Outcome.{outcome_of, in_order};
ghost use Rattle.chip_memory.specs.Layout.{page_count, is_image};
ghost use Rattle.chip_entries.specs.Run.{are_events, reply_bytes, events_at, run, run_answer, ran_chip, ran_replies, line_of};
ghost use Rattle.chip_entries.specs.Event.{power_up, after_rom, stage_slot, stage_bit, stage_pulse, pulse_image_of, chip_in_range, reply_of, image_after, stage_after};
ghost use Rattle.chip_entries.specs.Event.{event_answer, event_state, event_image};

use base_types::address::Page;
use base_types::refusal;
use base_types::refusal::Refusal;
use base_types::stepped::Stepped;
use bus_events::Event;
use chip_function::{function, ranges};
use chip_memory::layout;
use chip_rom::{RomOutcome, RomStage};
use chip_stage::stage;
use chip_stage::stage::{Incoming, MemoryStage};

// Where the chip stands: in a ROM function, or in a memory function. A silent chip counts as the latter.
#[derive(Clone, Copy, Debug, PartialEq, Eq)]
pub enum Stage {
    Rom(RomStage),
    Memory(MemoryStage),
}

// The stage, and the registration number, eight bytes of any value.
#[derive(Clone, Copy, Debug, PartialEq, Eq)]
pub struct State {
    pub stage: Stage,
    pub number: [u8; 8],
}

// A chip at power-up: silent until reset.
#[tactic(auto, unfolding(crate::specs::Event::power_up))]
pub fn power_up(number: [u8; 8]) -> State
    ensures { result ≡ power_up number }
{
    State {
        stage: Stage::Memory(MemoryStage::Silent),
        number,
    }
}

// The stage after a slot of a ROM function.
#[tactic(auto, unfolding(crate::specs::Event::after_rom))]
fn after_rom(outcome: RomOutcome) -> Stage
    ensures { result ≡ after_rom outcome }
{
    match outcome {
        RomOutcome::Stays(r) => Stage::Rom(r),
        RomOutcome::Selected => Stage::Memory(stage::receive(Incoming::Command, 0)),
        RomOutcome::Deselected => Stage::Memory(MemoryStage::Silent),
    }
}

// The fields of a stage are within their ranges.
#[tactic(auto, unfolding(crate::specs::Event::chip_in_range))]
fn in_range(last: Page, stage: Stage) -> bool
    ensures { result ≡ chip_in_range (page_count last) stage }
{
    match stage {
        Stage::Rom(r) => chip_rom::in_range(r),
        Stage::Memory(m) => ranges::in_range(last, m),
    }
}

// What an event draws, and the stage after it. The number stands beside the stage: a state that is handed on whole at each event made a run
// take 1.8 times as long.
impl Stage {
    #[tactic(auto, unfolding(crate::specs::Event::stage_slot))]
    fn slot(self, number: [u8; 8], last: Page, bit: bool, image: &[u8]) -> Stage
        ensures { result ≡ stage_slot (page_count last) self bit number image.now }
    {
        match self {
            Stage::Rom(r) => after_rom(chip_rom::slot(r, bit, number)),
            Stage::Memory(m) => Stage::Memory(function::slot(last, m, bit, image)),
        }
    }

    // The chip's bit in a slot, 1 where it is not sending.
    #[tactic(auto, unfolding(crate::specs::Event::stage_bit))]
    fn bit(self, number: [u8; 8]) -> bool
        ensures { result ≡ stage_bit self number }
    {
        match self {
            Stage::Rom(r) => chip_rom::chip_bit(r, number),
            Stage::Memory(m) => function::chip_bit(m),
        }
    }

    #[tactic(auto, unfolding(crate::specs::Event::pulse_image_of, crate::specs::Event::stage_pulse))]
    fn pulse(self, last: Page, image: &mut [u8]) -> Stage
        ensures image { image.new ≡ pulse_image_of (page_count last) self image.old }
        ensures stage { result ≡ stage_pulse (page_count last) self image.new }
    {
        match self {
            Stage::Rom(_) => self,
            Stage::Memory(m) => Stage::Memory(function::pulse(last, m, image)),
        }
    }

    #[tactic(auto, unfolding(crate::specs::Event::reply_of))]
    fn reply(self, number: [u8; 8], event: Event) -> bool
        ensures { result ≡ reply_of self event number }
    {
        match event {
            Event::Reset => false,
            // The chip's bit first, and no branch on the master's, which nobody can foretell.
            Event::Slot(bit) => {
                let own = self.bit(number);
                bit && own
            }
            Event::Pulse | Event::PowerLoss => true,
        }
    }

    #[tactic(auto, unfolding(crate::specs::Event::image_after, crate::specs::Event::stage_after))]
    fn advance(self, number: [u8; 8], last: Page, event: Event, image: &mut [u8]) -> Stage
        ensures image { image.new ≡ image_after (page_count last) self event image.old }
        ensures stage { result ≡ stage_after (page_count last) self event number image.new }
    {
        match event {
            Event::Reset => Stage::Rom(RomStage::Command(0, 0)),
            Event::Slot(bit) => self.slot(number, last, bit, image),
            Event::Pulse => self.pulse(last, image),
            Event::PowerLoss => Stage::Memory(MemoryStage::Silent),
        }
    }
}

// What every entry on a chip judges: the image, the stage and what else has a range, and the other buffers' lengths. Refused: 1, 2, 10.
fn judge(image: &[u8], stage: Stage, ranges: bool, lengths: bool) -> Result<(), Refusal>
    ensures { outcome_of result ≡ in_order (is_image 64 image.now) (chip_in_range 64 stage && ranges) lengths }
{
    let last = layout::DS2505;
    refusal::in_order(
        layout::is_image(image, last),
        in_range(last, stage) && ranges,
        lengths,
    )
}

// One event. Refused: 1, 2; the state is then the same and the image untouched.
#[tactic(auto, unfolding(crate::specs::Event::event_answer, crate::specs::Event::event_state, crate::specs::Event::event_image))]
pub fn event(state: State, event: Event, image: &mut [u8]) -> Stepped<Result<bool, Refusal>, State>
    ensures answer { outcome_of result.answer ≡ event_answer 64 state event image.old }
    ensures state { result.state ≡ event_state 64 state event image.old }
    ensures image { image.new ≡ event_image 64 state event image.old }
{
    if let Err(r) = judge(image, state.stage, true, true) {
        return Stepped {
            answer: Err(r),
            state,
        };
    }
    let bit = state.stage.reply(state.number, event);
    let stage = state
        .stage
        .advance(state.number, layout::DS2505, event, image);
    Stepped {
        answer: Ok(bit),
        state: State { stage, ..state },
    }
}

// The line that an event drew; a refused event drew none, and the line is then 1.
pub fn line_of(answer: Result<bool, Refusal>) -> bool
    ensures { result ≡ line_of (outcome_of answer) }
{
    answer.unwrap_or(true)
}

// ---- several events, a byte each

// All bytes are those of events.
pub fn are_events(codes: &[u8]) -> bool
    ensures { result ≡ are_events codes.now }
{
    codes.iter().all(|code| bus_events::is_event(*code))
}

// The events one after the other. A stage within its ranges stays within them, so that nothing is judged again.
// The replies are written by number, since the check knows nothing of what a zip wrote.
fn run_within(start: State, codes: &[u8], image: &mut [u8], replies: &mut [u8]) -> State
    requires image_value { is_image 64 image.old ≡ true }
    requires start_value { chip_in_range 64 start.stage ≡ true }
    requires replies_len { length replies.old ≡ length codes.now }
    ensures chip { record { state = result; image = image.new } ≡ run 64 (record { state = start; image = image.old }) (events_at codes.now) }
    ensures replies { replies.new ≡ reply_bytes 64 (record { state = start; image = image.old }) codes.now }
{
    let number = start.number;
    let mut stage = start.stage;
    for (i, code) in codes.iter().enumerate() {
        let e = Event::from(*code);
        replies[i] = u8::from(stage.reply(number, e));
        stage = stage.advance(number, layout::DS2505, e, image);
    }
    State { stage, number }
}

// So many events, a byte each (Event::from), with a byte for each reply. Refused: 1, 2, 10; state, image and replies are then untouched.
// The state and the image are judged once: what it does is what the events one by one do.
#[tactic(auto, unfolding(crate::specs::Run::run_answer, crate::specs::Run::ran_chip, crate::specs::Run::ran_replies))]
pub fn run(
    state: State,
    codes: &[u8],
    image: &mut [u8],
    replies: &mut [u8],
) -> Stepped<Result<(), Refusal>, State>
    ensures answer { outcome_of result.answer ≡ run_answer 64 state codes.now image.old replies.old }
    ensures state { result.state ≡ (ran_chip 64 state codes.now image.old replies.old).state }
    ensures image { image.new ≡ (ran_chip 64 state codes.now image.old replies.old).image }
    ensures replies { replies.new ≡ ran_replies 64 state codes.now image.old replies.old }
{
    let judged = judge(
        image,
        state.stage,
        are_events(codes),
        replies.len() == codes.len(),
    );
    if let Err(r) = judged {
        return Stepped {
            answer: Err(r),
            state,
        };
    }
    Stepped {
        answer: Ok(()),
        state: run_within(state, codes, image, replies),
    }
}

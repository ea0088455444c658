// The publisher: fed a list of replies, and step by step with its state in 48 bytes that the caller lends.
ghost use Rattle.std.specs.Prelude.{◌≡◌};
ghost use Rattle.master_plan.specs.Kind.{ordinary, quick};
ghost use Rattle.plug_answers.specs.Answers.{code_in};
ghost use Rattle.plug_publisher_calls.specs.Publisher.{publisher_run_outcome, publisher_run_events, publisher_run_told, publisher_started, publisher_start_state};
ghost use Rattle.plug_publisher_calls.specs.Publisher.{publisher_start_told, publisher_call_outcome, publisher_call_state, publisher_call_told};

use master_plan::kind;
use plug_answers::answer;
use plug_publisher_calls::publisher;

// The update of a page by a publisher fed these replies: a byte for each call, its event or FFh, and what the last call told. In the
// ordinary mode. Refused: 1, 2, 10, 3, 4, 5, 20, 9, 8.
#[tactic(auto, unfolding(plug_publisher_calls::specs::Publisher::publisher_run_told))]
#[unsafe(no_mangle)]
pub extern "C" fn plug_publisher_run(
    image: &[u8],
    new: &[u8],
    page: u32,
    replies: &[u8],
    events: &mut [u8],
    answer: &mut [u8],
) -> u32
    ensures code { result ≡ code_in (publisher_run_outcome 64 ordinary image.now new.now page replies.now events.old answer.old) }
    ensures events { events.new ≡ publisher_run_events 64 ordinary image.now new.now page replies.now events.old answer.old }
    ensures answer { answer.new ≡ publisher_run_told 64 ordinary image.now new.now page replies.now events.old answer.old }
{
    answer::tell_next(
        publisher::run_in(kind::ordinary(), image, new, page, replies, events, answer),
        answer,
    )
}

// In the quick mode.
#[tactic(auto, unfolding(plug_publisher_calls::specs::Publisher::publisher_run_told))]
#[unsafe(no_mangle)]
pub extern "C" fn plug_publisher_run_quick(
    image: &[u8],
    new: &[u8],
    page: u32,
    replies: &[u8],
    events: &mut [u8],
    answer: &mut [u8],
) -> u32
    ensures code { result ≡ code_in (publisher_run_outcome 64 quick image.now new.now page replies.now events.old answer.old) }
    ensures events { events.new ≡ publisher_run_events 64 quick image.now new.now page replies.now events.old answer.old }
    ensures answer { answer.new ≡ publisher_run_told 64 quick image.now new.now page replies.now events.old answer.old }
{
    answer::tell_next(
        publisher::run_in(kind::quick(), image, new, page, replies, events, answer),
        answer,
    )
}

// The state before the first call of an update, in the ordinary mode. Refused: 1, 10, 3, 4, 5, 20, 9, 8.
#[tactic(auto, unfolding(plug_publisher_calls::specs::Publisher::publisher_start_told))]
#[unsafe(no_mangle)]
pub extern "C" fn plug_publisher_start(
    image: &[u8],
    new: &[u8],
    page: u32,
    state: &mut [u8],
    answer: &mut [u8],
) -> u32
    ensures code { result ≡ code_in (publisher_started 64 ordinary image.now new.now page state.old answer.old) }
    ensures state { state.new ≡ publisher_start_state 64 ordinary image.now new.now page state.old answer.old }
    ensures answer { answer.new ≡ publisher_start_told 64 ordinary image.now new.now page state.old answer.old }
{
    answer::tell(
        publisher::start_in(kind::ordinary(), image, new, page, state, answer),
        answer,
    )
}

// In the quick mode.
#[tactic(auto, unfolding(plug_publisher_calls::specs::Publisher::publisher_start_told))]
#[unsafe(no_mangle)]
pub extern "C" fn plug_publisher_start_quick(
    image: &[u8],
    new: &[u8],
    page: u32,
    state: &mut [u8],
    answer: &mut [u8],
) -> u32
    ensures code { result ≡ code_in (publisher_started 64 quick image.now new.now page state.old answer.old) }
    ensures state { state.new ≡ publisher_start_state 64 quick image.now new.now page state.old answer.old }
    ensures answer { answer.new ≡ publisher_start_told 64 quick image.now new.now page state.old answer.old }
{
    answer::tell(
        publisher::start_in(kind::quick(), image, new, page, state, answer),
        answer,
    )
}

// One call with a reply, 0 or 1, in the mode of the state: the next event, or the end with L and T. Refused: 2, 10, 13, 6 (in the
// ordinary mode), 7.
#[tactic(auto, unfolding(plug_publisher_calls::specs::Publisher::publisher_call_told))]
#[unsafe(no_mangle)]
pub extern "C" fn plug_publisher_call(state: &mut [u8], reply: u32, answer: &mut [u8]) -> u32
    ensures code { result ≡ code_in (publisher_call_outcome 64 state.old reply answer.old) }
    ensures state { state.new ≡ publisher_call_state 64 state.old reply answer.old }
    ensures answer { answer.new ≡ publisher_call_told 64 state.old reply answer.old }
{
    answer::tell_next(publisher::call(state, reply, answer), answer)
}

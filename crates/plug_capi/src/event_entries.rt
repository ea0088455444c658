// The chip: a whole run from power-up, and step by step with its state in 24 bytes that the caller lends.
ghost use Rattle.std.specs.Prelude.{◌≡◌};
ghost use Rattle.plug_answers.specs.Answers.{code_in};
ghost use Rattle.plug_chip_calls.specs.Chip.{whole_answer, whole_image, whole_replies, power_answer, power_state, events_answer, events_state, events_image, events_replies};

use plug_answers::answer;

// The events, a byte each, on a chip with this number from power-up on; a byte for each reply. Refused: 1, 2, 10.
#[unsafe(no_mangle)]
pub extern "C" fn plug_chip_run(
    number: &[u8],
    events: &[u8],
    image: &mut [u8],
    replies: &mut [u8],
) -> u32
    ensures code { result ≡ code_in (whole_answer 64 number.now events.now image.old replies.old) }
    ensures image { image.new ≡ whole_image 64 number.now events.now image.old replies.old }
    ensures replies { replies.new ≡ whole_replies 64 number.now events.now image.old replies.old }
{
    answer::code(plug_chip_calls::run(number, events, image, replies))
}

// The state of a chip with this number at power-up. Refused: 10.
#[unsafe(no_mangle)]
pub extern "C" fn plug_chip_power_up(number: &[u8], state: &mut [u8]) -> u32
    ensures code { result ≡ code_in (power_answer number.now state.old) }
    ensures state { state.new ≡ power_state number.now state.old }
{
    answer::code(plug_chip_calls::power_up(number, state))
}

// So many events, a byte each, on a chip with this state; a byte for each reply. Refused: 1, 2, 10.
#[unsafe(no_mangle)]
pub extern "C" fn plug_chip_events(
    state: &mut [u8],
    events: &[u8],
    image: &mut [u8],
    replies: &mut [u8],
) -> u32
    ensures code { result ≡ code_in (events_answer 64 state.old events.now image.old replies.old) }
    ensures state { state.new ≡ events_state 64 state.old events.now image.old replies.old }
    ensures image { image.new ≡ events_image 64 state.old events.now image.old replies.old }
    ensures replies { replies.new ≡ events_replies 64 state.old events.now image.old replies.old }
{
    answer::code(plug_chip_calls::events(state, events, image, replies))
}

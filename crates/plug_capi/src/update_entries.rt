// A whole update of a page on the image of a chip with this number, cut after so many events. Refused: 1, 10, 3, 4, 5, 20, 9, 8.
ghost use Rattle.std.specs.Prelude.{◌≡◌};
ghost use Rattle.master_plan.specs.Kind.{ordinary, quick};
ghost use Rattle.plug_answers.specs.Answers.{code_in, answered};
ghost use Rattle.plug_publisher_calls.specs.Update.{update_values, update_image};

use master_plan::kind;
use plug_answers::answer;
use plug_publisher_calls::update;

// In the ordinary mode.
#[unsafe(no_mangle)]
pub extern "C" fn plug_update(
    image: &mut [u8],
    number: &[u8],
    new: &[u8],
    page: u32,
    events: u32,
    answer: &mut [u8],
) -> u32
    ensures code { result ≡ code_in (update_values 64 ordinary image.old number.now new.now page answer.old) }
    ensures answer { answer.new ≡ answered (update_values 64 ordinary image.old number.now new.now page answer.old) answer.old }
    ensures image { image.new ≡ update_image 64 ordinary image.old number.now new.now page events answer.old }
{
    answer::tell(
        update::update_in(kind::ordinary(), image, number, new, page, events, answer),
        answer,
    )
}

// In the quick mode.
#[unsafe(no_mangle)]
pub extern "C" fn plug_update_quick(
    image: &mut [u8],
    number: &[u8],
    new: &[u8],
    page: u32,
    events: u32,
    answer: &mut [u8],
) -> u32
    ensures code { result ≡ code_in (update_values 64 quick image.old number.now new.now page answer.old) }
    ensures answer { answer.new ≡ answered (update_values 64 quick image.old number.now new.now page answer.old) answer.old }
    ensures image { image.new ≡ update_image 64 quick image.old number.now new.now page events answer.old }
{
    answer::tell(
        update::update_in(kind::quick(), image, number, new, page, events, answer),
        answer,
    )
}

// Entries on an image: walk, page, free page.
ghost use Rattle.std.specs.Prelude.{◌≡◌};
ghost use Rattle.chip_images.specs.Page.{copy_answer, copy_buffer};
ghost use Rattle.plug_answers.specs.Answers.{code_in, answered};
ghost use Rattle.plug_image_calls.specs.Image.{walk_values, free_values};

use plug_answers::answer;
use plug_image_calls::image;

// How the walk from a page ends: 0 with the final page and the hops, 4, or 5 with the number. Refused: 1, 10, 3.
#[unsafe(no_mangle)]
pub extern "C" fn plug_walk(image: &[u8], page: u32, answer: &mut [u8]) -> u32
    ensures code { result ≡ code_in (walk_values 64 image.now page answer.old) }
    ensures answer { answer.new ≡ answered (walk_values 64 image.now page answer.old) answer.old }
{
    answer::tell(image::walk(image, page, answer), answer)
}

// A page's 32 bytes into a buffer. Refused: 1, 10, 3.
#[unsafe(no_mangle)]
pub extern "C" fn plug_page(image: &[u8], page: u32, buffer: &mut [u8]) -> u32
    ensures code { result ≡ code_in (copy_answer 64 image.now page buffer.old) }
    ensures buffer { buffer.new ≡ copy_buffer 64 image.now page buffer.old }
{
    answer::code(image::page(image, page, buffer))
}

// The lowest free page other than the one given. Refused: 1, 10, 3, 8.
#[unsafe(no_mangle)]
pub extern "C" fn plug_free_page(image: &[u8], other: u32, answer: &mut [u8]) -> u32
    ensures code { result ≡ code_in (free_values 64 image.now other answer.old) }
    ensures answer { answer.new ≡ answered (free_values 64 image.now other answer.old) answer.old }
{
    answer::tell(image::free_page(image, other, answer), answer)
}

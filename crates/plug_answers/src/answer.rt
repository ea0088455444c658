// What a caller in C is told.
ghost use Rattle.std.specs.Prelude.{◌≡◌, List, ℕ, []};
ghost use Rattle.base_types.specs.Outcome.{accepted, refusing, outcome_of};
ghost use Rattle.base_types.specs.Refusal.{number_of};
ghost use Rattle.bus_scripts.specs.Next.{next_outcome};
ghost use Rattle.plug_answers.specs.Answers.{code_in, told_by, page_values, final_values, update_pages, is_answer, is_number_buffer, eight_of, answered, next_answered};

use base_types::address::Page;
use base_types::refusal::Refusal;
use bus_events::Next;
use chip_memory::{image, page};

// A buffer for an answer has sixteen bytes.
pub fn is_answer(answer: &[u8]) -> bool
    ensures { result ≡ is_answer answer.now }
{
    answer.len() == 16
}

// A registration number has eight.
pub fn is_number(number: &[u8]) -> bool
    ensures { result ≡ is_number_buffer number.now }
{
    number.len() == 8
}

// The first eight bytes of a slice.
pub fn eight_of(b: &[u8]) -> [u8; 8]
    ensures { result ≡ eight_of b.now }
{
    [
        image::byte_at(b, 0),
        image::byte_at(b, 1),
        image::byte_at(b, 2),
        image::byte_at(b, 3),
        image::byte_at(b, 4),
        image::byte_at(b, 5),
        image::byte_at(b, 6),
        image::byte_at(b, 7),
    ]
}

// ---- what is told where nothing is refused

// What an answer tells beside its code: FFh, and these values.
pub trait Values: Copy {
    ghost values: { Self → List ℕ };

    fn tell(self, answer: &mut [u8])
        ensures { answer.new ≡ answered (accepted (values self)) answer.old };
}

impl<const N: usize> Values for [u8; N] {
    ghost values = { λ bytes. bytes };

    fn tell(self, answer: &mut [u8]) {
        if let Some((first, rest)) = answer.split_first_mut() {
            *first = 0xFF;
            page::copy(&self, rest);
        }
    }
}

// Nothing more than that it was accepted.
impl Values for () {
    ghost values = { λ nothing. [] };

    fn tell(self, answer: &mut [u8]) {
        page::copy(&[0xFF], answer);
    }
}

impl Values for Page {
    ghost values = { page_values };

    fn tell(self, answer: &mut [u8]) {
        [self.0].tell(answer);
    }
}

// A page and the hops to it.
impl Values for (Page, u8) {
    ghost values = { final_values };

    fn tell(self, answer: &mut [u8]) {
        let (page, hops) = self;
        [page.0, hops].tell(answer);
    }
}

// L and T.
impl Values for (Page, Page) {
    ghost values = { update_pages };

    fn tell(self, answer: &mut [u8]) {
        let (l, t) = self;
        [l.0, t.0].tell(answer);
    }
}

// ---- the code, and what is told

// The code of an answer that tells nothing more.
pub fn code(told: Result<(), Refusal>) -> u32
    ensures { result ≡ code_in (outcome_of told) }
{
    match told {
        Ok(()) => 0,
        Err(refusal) => number(refusal),
    }
}

// The code of a refusal.
pub fn number(refusal: Refusal) -> u32
    ensures { result ≡ number_of refusal }
{
    u32::from(refusal.number())
}

// A refusal: its value, if it gives one back, and its code.
pub fn refuse(refusal: Refusal, answer: &mut [u8]) -> u32
    ensures code { result ≡ number_of refusal }
    ensures answer { answer.new ≡ answered (refusing refusal) answer.old }
{
    if let Some(value) = refusal.value() {
        [value].tell(answer);
    }
    number(refusal)
}

// What was asked for, and 0; or a refusal.
pub fn tell<V: Values>(told: Result<V, Refusal>, answer: &mut [u8]) -> u32
    ensures code { result ≡ code_in (told_by V.values told) }
    ensures answer { answer.new ≡ answered (told_by V.values told) answer.old }
{
    match told {
        Ok(values) => {
            values.tell(answer);
            0
        }
        Err(refusal) => refuse(refusal, answer),
    }
}

// What a master told: its next event; or its end, and 0; or a refusal.
pub fn tell_next<E: Values>(told: Result<Next<E>, Refusal>, answer: &mut [u8]) -> u32
    ensures code { result ≡ code_in (next_outcome E.values told) }
    ensures answer { answer.new ≡ next_answered (next_outcome E.values told) answer.old }
{
    match told {
        Ok(Next::Send(event)) => {
            page::copy(&[u8::from(event)], answer);
            0
        }
        Ok(Next::End(end)) => {
            end.tell(answer);
            0
        }
        Err(stop) => refuse(stop, answer),
    }
}

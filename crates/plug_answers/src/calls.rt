// What callers in C can get wrong before a master is asked.
ghost use Rattle.std.specs.Prelude.{◌≡◌};
ghost use Rattle.base_types.specs.Outcome.{outcome_of, accepted, done};
ghost use Rattle.plug_answers.specs.Calls.{page_number, reply_judged, answer_judged};

use crate::answer;
use base_types::address::Page;
use base_types::refusal;
use base_types::refusal::Refusal;

// The page of a number, whichever it is. One that no byte holds counts as 255, which is no page of the chip either.
pub fn page(number: u32) -> Page
    ensures { result.0 ≡ page_number number }
{
    Page(u8::try_from(number).unwrap_or(255))
}

// A reply to a state that is within its ranges or not. Refused: 2, 10.
pub fn judge_reply(in_range: bool, reply: u32, answer: &[u8]) -> Result<(), Refusal>
    ensures { outcome_of result ≡ reply_judged in_range reply answer.now }
{
    refusal::in_order(true, in_range && reply < 2, answer::is_answer(answer))
}

// The answer's buffer. Refused: 10.
pub fn judge_answer(answer: &[u8]) -> Result<(), Refusal>
    ensures { outcome_of result ≡ answer_judged answer.now (accepted done) }
{
    refusal::in_order(true, true, answer::is_answer(answer))
}

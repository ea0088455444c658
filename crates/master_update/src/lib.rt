// A whole update on a lent image: the publisher's start, and its later calls joined to a chip, with the power cut after so many events.
#![tactic(auto)]

ghost use Rattle.std.specs.Prelude.{◌≡◌};
ghost use Rattle.base_types.specs.Outcome.{accepted};
ghost use Rattle.bus_scripts.specs.Next.{send};
ghost use Rattle.master_publisher.specs.Call.{turn_outcome};
ghost use Rattle.master_update.specs.Update.{handed_on, handed_image, called, image_called, is_running, run_for, update_outcome, update_answer, updated_image, ReadsAs};

use base_types::address::Page;
use base_types::refusal::Refusal;
use bus_events::{Event, Next};
use chip_entries::event;
use chip_entries::event::State;
use master_plan::kind::UpdateKind;
use master_publisher::{Publisher, Stage};

// A publisher joined to a chip, and the reply that the last event drew.
#[derive(Clone, Copy)]
pub struct Joined {
    pub publisher: Publisher,
    pub chip: State,
    pub reply: bool,
}

// An event reaches the chip.
#[tactic(auto, unfolding(crate::specs::Update::handed_on, crate::specs::Update::handed_image))]
fn reach(j: Joined, e: Event, image: &mut [u8]) -> Joined
    ensures joined { result ≡ handed_on 64 j (accepted (send e)) image.old }
    ensures image { image.new ≡ handed_image 64 j (accepted (send e)) image.old }
{
    let drawn = event::event(j.chip, e, image);
    Joined {
        chip: drawn.state,
        reply: event::line_of(drawn.answer),
        ..j
    }
}

// What a call told: an event reaches the chip; an end or a refusal does not.
#[tactic(auto, unfolding(crate::specs::Update::handed_on, crate::specs::Update::handed_image))]
fn hand_on(j: Joined, answer: Result<Next<(Page, Page)>, Refusal>, image: &mut [u8]) -> Joined
    ensures joined { result ≡ handed_on 64 j (turn_outcome answer) image.old }
    ensures image { image.new ≡ handed_image 64 j (turn_outcome answer) image.old }
{
    match answer {
        Ok(Next::Send(e)) => reach(j, e, image),
        Ok(Next::End(_)) | Err(_) => j,
    }
}

// One later call, with the reply that the last event drew.
#[tactic(auto, unfolding(crate::specs::Update::called, crate::specs::Update::image_called))]
fn call_once(j: Joined, image: &mut [u8]) -> Joined
    ensures joined { result ≡ called 64 j image.old }
    ensures image { image.new ≡ image_called 64 j image.old }
{
    let turn = master_publisher::call(j.publisher, j.reply);
    hand_on(
        Joined {
            publisher: turn.state,
            ..j
        },
        turn.answer,
        image,
    )
}

// The publisher has events left, as far as it has been told.
#[tactic(auto, unfolding(crate::specs::Update::is_running))]
fn is_running(j: Joined) -> bool
    ensures { result ≡ is_running j.publisher.stage }
{
    matches!(j.publisher.stage, Stage::Running(_, _))
}

// So many later calls. After its end a publisher tells no further event, so that no more calls are needed.
#[tactic(auto, using(crate::proofs::Runs::run_next, crate::proofs::Runs::run_none, crate::proofs::Runs::run_ended))]
fn run(mut j: Joined, calls: u32, image: &mut [u8])
    ensures { image.new ≡ run_for 64 calls j image.old }
{
    for _ in 0..calls {
        if !is_running(j) {
            return;
        }
        j = call_once(j, image);
    }
}

// The update of a page of the chip with this number whose memory is the image, cut after so many events (or whole, where they are more
// than the plan has). Refused, with the image untouched: 1, 10, 3, 4, 5, 20, 9, 8. Else L and T, and the image as the cut leaves it.
pub fn update(
    kind: UpdateKind,
    image: &mut [u8],
    number: [u8; 8],
    new: &[u8],
    page: Page,
    events: u32,
) -> Result<(Page, Page), Refusal>
    ensures answer { update_outcome result ≡ update_answer 64 kind image.old new.now page.0 }
    ensures image { image.new ≡ updated_image 64 kind number image.old new.now page.0 events }
    ensures reads { ReadsAs 64 kind image.old new.now page.0 events image.new }
{
    let started = master_publisher::start(kind, image, new, page);
    started.answer?;
    let publisher = started.state;
    let joined = Joined {
        publisher,
        chip: event::power_up(number),
        reply: true,
    };
    run(joined, events, image);
    Ok((publisher.superseded, publisher.target))
}

// What can happen on the bus, and each event as a byte; and what a master tells at a call.
#![tactic(auto)]

ghost use Rattle.std.specs.Prelude.{◌≡◌};
ghost use Rattle.bus_events.specs.Codes.{code_of, event_of, is_event};
ghost use Rattle.bus_events.specs.Events as named;

// A read slot is a slot with the master's bit 1.
#[derive(Clone, Copy, Debug, PartialEq, Eq)]
pub enum Event {
    Reset,
    Slot(bool),
    Pulse,
    PowerLoss,
}

// What a master tells that is not stopped: the next event, or its end with what it came to.
#[derive(Clone, Copy, Debug, PartialEq, Eq)]
pub enum Next<E> {
    Send(Event),
    End(E),
}

// The events by name. Code above builds them by these functions, so that a further field of an event shows here.
pub fn reset() -> Event
    ensures { result ≡ named.reset }
{
    Event::Reset
}

// A slot with this master bit.
pub fn slot(bit: bool) -> Event
    ensures { result ≡ named.slot bit }
{
    Event::Slot(bit)
}

pub fn read_slot() -> Event
    ensures { result ≡ named.read_slot }
{
    Event::Slot(true)
}

// The program pulse.
pub fn pulse() -> Event
    ensures { result ≡ named.pulse }
{
    Event::Pulse
}

// A byte is that of an event.
pub fn is_event(code: u8) -> bool
    ensures { result ≡ is_event code }
{
    code < 5
}

// The byte of an event: a slot is its master bit.
impl From<Event> for u8 {
    ghost from_gives = { λ event code. code ≡ code_of event };

    fn from(event: Event) -> u8 {
        match event {
            Event::Slot(bit) => u8::from(bit),
            Event::Reset => 2,
            Event::Pulse => 3,
            Event::PowerLoss => 4,
        }
    }
}

// The event of a byte; a byte that is that of none counts as a power loss.
impl From<u8> for Event {
    ghost from_gives = { λ code event. event ≡ event_of code };

    fn from(code: u8) -> Event {
        match code {
            0 => Event::Slot(false),
            1 => Event::Slot(true),
            2 => Event::Reset,
            3 => Event::Pulse,
            _ => Event::PowerLoss,
        }
    }
}

// Events as numbers: which numbers of a list stand for one, and for which.
//
// Every public function is an inner call of the models: total, and exactly its definition.
#![tactic(auto, unfolding(laws::specs::Pick::pick))]

ghost use Rattle.std.specs.Prelude.{◌≡◌, eqb};
ghost use Rattle.pins.specs.Events.{event_of};
ghost use Rattle.events.specs.Events.{is_event, are_events};

use pins::Event;

// The kind stands above the low 32 bits.
const KIND: u64 = 1 << 32;

// What is wrong with a number, 0 for an event: a kind above 5, or a value above 1 that is no reading. Sums and products
// with no choice inside, so that the pass over a list takes several numbers at once.
fn fault(number: u64) -> u64
    ensures { eqb result 0 ≡ is_event number }
{
    let kind = number / KIND;
    let above = number % KIND / 2;
    (kind + 2) / 8 + (kind + 3) % 8 * above
}

// Each number of a list.
// Stays a loop over all of them: `all`, which stops at the first that fails, takes twice the time.
pub fn are_events(events: &[u64]) -> bool
    ensures { result ≡ are_events events.now }
{
    let mut faults = 0;
    for event in events {
        faults |= fault(*event);
    }
    faults == 0
}

// The event that a number stands for: the low 32 bits are the reading, or the level in the lowest; the three above them
// are the kind. A number that stands for none is not played.
// Stays a function: a `From` for `Event` would stand in the crate that has `Event`, which knows no numbers.
pub fn event_of(number: u64) -> Event
    ensures { result ≡ event_of number }
{
    let level = number % 2 == 1;
    match number / KIND % 8 {
        0 => Event::S(level),
        1 => Event::C(level),
        2 => Event::D(level),
        3 => Event::W(level),
        4 => Event::Hold(level),
        _ => Event::Time((number % KIND) as u32),
    }
}

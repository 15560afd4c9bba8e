// The choice of step 2: the deadlines of the active guests as plain numbers, which one search can be lent without a copy.
ghost use Rattle.std.specs.Prelude.{◌≡◌, map, ◌≤◌, ◌<◌};
ghost use Rattle.rules.specs.Limits.{guest_places};
ghost use Rattle.rules.specs.Steps.{earliest};
ghost use Rattle.engine_choice.specs.Choice.{in_use, pick_of};
ghost use Rattle.engine_time.specs.Inner.{due_at, AllDue, SoonestFrom};

use engine_choice::Pick;
use rules::{GUEST_PLACES, Guest};

// Past every deadline of a sound state: what an idle guest has. It is a number and no Option, since None would come first in the order.
pub(crate) const NEVER: u64 = u64::MAX;

pub(crate) fn due_of(g: Guest) -> u64
    ensures { result ≡ due_at g }
{
    if g.jobs == 0 { NEVER } else { g.deadline }
}

pub(crate) fn dues_of(guests: [Guest; GUEST_PLACES]) -> [u64; GUEST_PLACES]
    ensures { result ≡ map due_at guests }
{
    guests.map(due_of)
}

// Equal deadlines stay with the best so far, whose number is lower.
pub(crate) fn soonest(dues: &[u64; GUEST_PLACES], from: usize, count: usize) -> usize
    requires { (from < count) × (count ≤ guest_places) }
    ensures { (result < count) × SoonestFrom dues.now from count result }
{
    let mut best = from;
    for i in from + 1..count {
        if dues[i] < dues[best] {
            best = i;
        }
    }
    best
}

// Where the search starts. Where nobody is active it may start anywhere.
pub(crate) fn start_of(lowest: usize, count: usize) -> usize
    ensures { (lowest < count → result ≡ lowest) × (count ≤ lowest → result ≡ 0) }
{
    if lowest < count { lowest } else { 0 }
}

// Who runs; the search starts at the lowest active guest.
pub(crate) fn picked(guests: [Guest; GUEST_PLACES], count: usize) -> Option<Pick>
    requires { (0 < count) × (count ≤ guest_places) × AllDue guests }
    ensures { pick_of result ≡ earliest 0 (in_use count guests) }
{
    let from = start_of(engine_choice::lowest(guests, count), count);
    let soon = soonest(&dues_of(guests), from, count);
    engine_choice::ready(soon, guests[soon])
}

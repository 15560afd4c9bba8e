// Step 1 of a tick: an active guest with no budget left is renewed.
ghost use Rattle.std.specs.Prelude.{◌≡◌, ◌+◌, ◌<◌, ◌^◌};
ghost use Rattle.rules.specs.Places.{guest_of, guest_place, model};
ghost use Rattle.rules.specs.Steps.{renew, renewed};
ghost use Rattle.engine_time.specs.Inner.{placed};

use engine_sound::Sound;
use rules::{Entry, GUEST_PLACES, Guest};

pub(crate) fn renewed(e: Entry, g: Guest) -> Guest
    requires { g.deadline + e.period < 2 ^ 64 }
    ensures { result ≡ guest_place (renew (guest_of e g)) }
{
    if g.jobs == 0 || g.current != 0 {
        return g;
    }
    Guest {
        current: e.budget,
        deadline: g.deadline + e.period,
        ..g
    }
}

pub(crate) fn guests_renewed(s: Sound<'_>) -> [Guest; GUEST_PLACES]
    ensures { result ≡ placed (renewed (model s.entry.state.now)).guests }
{
    let s = s.state;
    let mut guests = s.guests;
    for i in 0..s.table.count {
        guests[i] = renewed(s.table.entries[i], s.guests[i]);
    }
    guests
}

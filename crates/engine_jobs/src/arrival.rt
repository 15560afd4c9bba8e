// What an arrival does to a guest, and whether there is room for it.
ghost use Rattle.std.specs.Prelude.{◌≡◌, ℕ, ◌+◌, ◌<◌, ◌^◌, max, eqb};
ghost use Rattle.rules.specs.declared.Entry.{Entry};
ghost use Rattle.rules.specs.Limits.{spare_places, most_jobs};
ghost use Rattle.rules.specs.Model.{occupied};
ghost use Rattle.rules.specs.Places.{model, guest_of, guest_place};
ghost use Rattle.rules.specs.Steps.{wake, join};

use engine_sound::Sound;
use rules::{Entry, Guest, SPARE_PLACES};

// Rule 5: nothing but the jobs changes. An arrival renews no budget.
pub(crate) fn joined(g: Guest) -> Guest
    requires { (0 < g.jobs) × (g.jobs < most_jobs) }
    ensures { (e : Entry) (now : ℕ) → result ≡ guest_place (join now (guest_of e g)) }
{
    Guest {
        jobs: g.jobs + 1,
        ..g
    }
}

// Rule 4: from the old deadline where that is still ahead, or the guest would get its budget twice before it.
pub(crate) fn woken(e: Entry, g: Guest, now: u64) -> Guest
    requires { max now g.deadline + e.period < 2 ^ 64 }
    ensures { result ≡ guest_place (wake now (guest_of e g)) }
{
    Guest {
        jobs: 1,
        current: e.budget,
        deadline: now.max(g.deadline) + e.period,
        ..g
    }
}

// Each active guest may leave one more spare, so each needs a place.
pub(crate) fn is_full(s: Sound<'_>) -> bool
    ensures { result ≡ eqb (occupied (model s.entry.state.now)) spare_places }
{
    let s = s.state;
    let mask = engine_choice::mask_of(&s.guests, s.table.count);
    let active = engine_choice::ones_of(mask);
    s.listed + active as usize == SPARE_PLACES
}

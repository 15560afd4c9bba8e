// What a completion does to a guest, and its leftover.
ghost use Rattle.std.specs.Prelude.{◌≡◌, true, ◌&&◌, ◌<◌, ltb, eqb, get_or};
ghost use Rattle.rules.specs.declared.Entry.{Entry};
ghost use Rattle.rules.specs.Places.{model, packed, guest_of, guest_place, no_guest_place};
ghost use Rattle.rules.specs.Steps.{finish, done};

use crate::spares::inserted;
use engine_sound::Sound;
use rules::{Guest, Spare, State};

// Rule 9: a guest that goes idle keeps no budget; what was left is its spare's.
pub(crate) fn finished(g: Guest) -> Guest
    requires { 0 < g.jobs }
    ensures { (e : Entry) → result ≡ guest_place (finish (guest_of e g)) }
{
    let jobs = g.jobs - 1;
    if jobs == 0 {
        return Guest {
            jobs,
            current: 0,
            ..g
        };
    }
    Guest { jobs, ..g }
}

// With no budget left no spare is made.
pub(crate) fn leaves(g: Guest) -> bool
    ensures { result ≡ eqb g.jobs 1 && ltb 0 g.current }
{
    g.jobs == 1 && 0 < g.current
}

// The leftover is listed and taken from the guest in one state: no state has it twice.
#[tactic(auto, using(engine_state::proofs::Answering::guests_fit))]
pub(crate) fn with_leftover(s: Sound<'_>, i: usize) -> State
    requires inside { i < s.state.now.table.count }
    requires no_guest_place_value { eqb (get_or s.state.now.guests i no_guest_place).jobs 1 && ltb 0 (get_or s.state.now.guests i no_guest_place).current ≡ true }
    ensures { result ≡ packed (done i (model s.entry.state.now)) }
{
    let s = *s.state;
    let mut guests = s.guests;
    let g = guests[i];
    let leftover = Spare {
        deadline: g.deadline,
        owner: i,
        capacity: g.current,
    };
    guests[i] = finished(g);
    State {
        guests,
        listed: s.listed + 1,
        spares: inserted(s.spares, s.listed, leftover),
        ..s
    }
}

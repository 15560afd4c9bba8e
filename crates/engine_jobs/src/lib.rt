// Jobs: one arrives at a guest, and one is done.
#![tactic(auto)]

ghost use Rattle.rules.specs.Calls.{Arrived, Finished};

use crate::arrival::{is_full, joined, woken};
use crate::completion::{finished, leaves, with_leftover};
use crate::guests::{check_guest, with_guest};
use rules::{DEADLINE_CAP, MOST_JOBS, Refusal, State};

mod arrival;
mod completion;
mod guests;
mod spares;

// A job arrives at a guest.
pub fn arrive(s: State, i: usize) -> Result<State, Refusal>
    ensures { Arrived s i result }
{
    let sound = check_guest(&s, i)?;
    let g = s.guests[i];
    if g.jobs == MOST_JOBS {
        return Err(Refusal::JobsFull);
    }
    // An active guest has its deadline, and its place among the spares is kept for it.
    if 0 < g.jobs {
        return Ok(with_guest(s, i, joined(g)));
    }
    if is_full(sound) {
        return Err(Refusal::NoRoom);
    }
    let awake = woken(s.table.entries[i], g, s.now);
    if DEADLINE_CAP < awake.deadline {
        return Err(Refusal::DeadlineTooFar);
    }
    Ok(with_guest(s, i, awake))
}

// A guest's job is done.
pub fn done(s: State, i: usize) -> Result<State, Refusal>
    ensures { Finished s i result }
{
    let sound = check_guest(&s, i)?;
    let g = s.guests[i];
    if g.jobs == 0 {
        return Err(Refusal::GuestIdle);
    }
    if leaves(g) {
        return Ok(with_leftover(sound, i));
    }
    Ok(with_guest(s, i, finished(g)))
}

// A fresh state, the one of a refusal, and what can be asked of any state without a tick: who is active, and how far ahead a deadline lies.
#![tactic(auto)]

ghost use Rattle.rules.specs.Calls.{NoStateMade, Freshened, ActiveTold, MarginTold};

use crate::distance::ticks_until;
use crate::fresh_state::started;
use rules::{Activity, Refusal, State, Table};

mod distance;
mod fresh_state;

// "a refused .. fresh state is all zeros"
pub fn no_state() -> State
    ensures { NoStateMade result }
{
    started(table::no_table())
}

// A fresh state of a table: tick 0, nobody active, nothing spare.
pub fn fresh(t: Table) -> Result<State, Refusal>
    ensures { Freshened t result }
{
    table::check(t)?;
    Ok(started(t))
}

// Who is active: a mask and a number.
pub fn active(s: State) -> Result<Activity, Refusal>
    ensures { ActiveTold s result }
{
    engine_sound::tested(&s)?;
    let mask = engine_choice::mask_of(&s.guests, s.table.count);
    let actives = engine_choice::ones_of(mask);
    Ok(Activity { mask, actives })
}

// How far ahead a guest's deadline lies; it is below zero where the deadline has passed.
#[tactic(auto, using(crate::proofs::Answering::guests_fit))]
pub fn margin(s: State, i: usize) -> Result<i64, Refusal>
    ensures { MarginTold s i result }
{
    engine_sound::tested(&s)?;
    if s.table.count <= i {
        return Err(Refusal::NoSuchGuest);
    }
    Ok(ticks_until(s.guests[i].deadline, s.now))
}

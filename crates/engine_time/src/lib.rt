// Time: what the next tick would do, an advance by k ticks, and a walk that shows them portion by portion.
#![tactic(auto)]

ghost use Rattle.std.specs.Prelude.{◌≡◌, ◌+◌, ◌≤◌, IfOk};
ghost use Rattle.rules.specs.Calls.{advance_rows, AskedFor, Advanced};
ghost use Rattle.rules.specs.Limits.{last_tick};
ghost use Rattle.rules.specs.Places.{model, packed};
ghost use Rattle.rules.specs.Refusals.{first, number_of};
ghost use Rattle.rules.specs.Steps.{advance};
ghost use Rattle.rules.specs.Walks.{Walked};

use crate::dues::picked;
use crate::renewal::guests_renewed;
use crate::walking::{first_left, walked};
use engine_choice::portion_for;
use engine_sound::Sound;
use rules::{LAST_TICK, Portion, Refusal, State, Walk};

mod charges;
mod dues;
mod renewal;
mod walking;

// To ask changes nothing.
pub fn ask(s: State) -> Result<Portion, Refusal>
    ensures { AskedFor s result }
{
    let sound = engine_sound::tested(&s)?;
    let pick = picked(guests_renewed(sound), s.table.count);
    Ok(portion_for(pick, first_left(&s.spares, 0, s.listed)))
}

// The sum of now and k is not made, because it could wrap.
fn checked(s: &State, k: u64) -> Result<Sound<'_>, Refusal>
    ensures answer { number_of result ≡ first (advance_rows s.entry.now k) }
    ensures went { IfOk result (λ x. (x.state ≡ s.entry) × (x.state.now.now + k ≤ last_tick)) }
{
    let sound = engine_sound::tested(s)?;
    if LAST_TICK - s.now < k {
        return Err(Refusal::EndOfTime);
    }
    Ok(sound)
}

// Walk after walk: the soundness of each state follows from that of the first.
fn advanced(s: Sound<'_>, k: u64) -> State
    requires { s.state.now.now + k ≤ last_tick }
    ensures { result ≡ packed (advance k (model s.entry.state.now)) }
{
    let mut state = *s.state;
    let mut left = k;
    while 0 < left {
        let w = walked(Sound { state: &state }, left);
        state = w.state;
        left = w.left;
    }
    state
}

// k = 0 is accepted and changes nothing; past the last tick no tick is made.
pub fn advance(s: State, k: u64) -> Result<State, Refusal>
    ensures { Advanced s k result }
{
    let sound = checked(&s, k)?;
    Ok(advanced(sound, k))
}

// At most as many portions as there are places for lines; the ticks behind them are left.
pub fn walk(s: State, k: u64) -> Result<Walk, Refusal>
    ensures { Walked s k result }
{
    let sound = checked(&s, k)?;
    Ok(walked(sound, k))
}

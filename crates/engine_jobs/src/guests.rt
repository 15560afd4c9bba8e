// The guest that a call names: whether there is one, and other numbers for it.
ghost use Rattle.std.specs.Prelude.{◌≡◌, List, ◌∷◌, ◌<◌, ◌≤◌, IfOk, IfErr, set};
ghost use Rattle.rules.specs.Calls.{sound_row, guest_row};
ghost use Rattle.rules.specs.Limits.{guest_places};
ghost use Rattle.rules.specs.Refusals.{Row, first, refusal_number};

use engine_sound::Sound;
use rules::{Guest, Refusal, State};

// The two refusals that come before any other: the state is not sound, or there is no such guest.
#[tactic(auto, using(engine_state::proofs::Answering::guests_fit))]
pub(crate) fn check_guest(s: &State, i: usize) -> Result<Sound<'_>, Refusal>
    ensures found { IfOk result (λ x. (x.state ≡ s.entry) × (i < s.entry.now.table.count) × (s.entry.now.table.count ≤ guest_places)) }
    ensures refused { (rows : List Row) → IfErr result (λ r. refusal_number r ≡ first (sound_row s.entry.now ∷ guest_row s.entry.now i ∷ rows)) }
{
    let sound = engine_sound::tested(s)?;
    if s.table.count <= i {
        return Err(Refusal::NoSuchGuest);
    }
    Ok(sound)
}

// The state with other numbers for guest i.
pub(crate) fn with_guest(mut s: State, i: usize, g: Guest) -> State
    requires { i < guest_places }
    ensures { result ≡ record { table = s.table; now = s.now; guests = set s.guests i g; listed = s.listed; spares = s.spares; burned = s.burned; empty = s.empty } }
{
    s.guests[i] = g;
    s
}

// The state of a table before any call.
ghost use Rattle.std.specs.Prelude.{◌≡◌};
ghost use Rattle.rules.specs.Places.{fresh_state};

use rules::{GUEST_PLACES, Guest, SPARE_PLACES, Spare, State, Table};

pub(crate) fn started(t: Table) -> State
    ensures { result ≡ fresh_state t }
{
    State {
        table: t,
        now: 0,
        guests: [Guest::default(); GUEST_PLACES],
        listed: 0,
        spares: [Spare::default(); SPARE_PLACES],
        burned: 0,
        empty: 0,
    }
}

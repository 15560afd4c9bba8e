// What a charge takes from a guest and from a spare.
ghost use Rattle.std.specs.Prelude.{◌≡◌, ◌+◌, ◌≤◌, ◌<◌, ◌^◌};
ghost use Rattle.engine_time.specs.Inner.{ran_place, spent_place};

use engine_choice::Charge;
use rules::{Guest, Spare};

pub(crate) fn ran(g: Guest, c: Charge) -> Guest
    requires { (c.own ≤ g.current) × (g.own + c.own < 2 ^ 64) × (g.borrowed + c.borrowed < 2 ^ 64) }
    ensures { result ≡ ran_place c g }
{
    Guest {
        current: g.current - c.own,
        own: g.own + c.own,
        borrowed: g.borrowed + c.borrowed,
        ..g
    }
}

pub(crate) fn spent(x: Spare, c: Charge) -> Spare
    requires { c.spent ≤ x.capacity }
    ensures { result ≡ spent_place c x }
{
    Spare {
        capacity: x.capacity - c.spent,
        ..x
    }
}

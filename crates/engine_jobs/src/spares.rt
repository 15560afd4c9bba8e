// The list of spares in its places, with one more in order.
ghost use Rattle.std.specs.Prelude.{◌≡◌, true, map, ◌<◌, ◌≤◌, length, take};
ghost use Rattle.std.specs.List.{position_or_len};
ghost use Rattle.laws.specs.Lists.{padded, unused};
ghost use Rattle.rules.specs.Limits.{spare_places};
ghost use Rattle.rules.specs.Steps.{before, insert_spare};
ghost use Rattle.rules.specs.Places.{spare_of, spare_place, no_spare_place, spare_place_is_zero};

use rules::{SPARE_PLACES, Spare};

// Where x belongs: before the first spare that it comes before. What stands there and behind it is not compared.
fn place_of(spares: &[Spare], x: Spare) -> usize
    ensures inside { result ≤ length spares.now }
    ensures place { result ≡ position_or_len (λ y. before (spare_of x) (spare_of y)) spares.now }
{
    spares
        .iter()
        .position(|y| engine_choice::comes_before(x, *y))
        .unwrap_or(spares.len())
}

// The list with one more spare, in its place; each spare from there on moves one place further.
pub(crate) fn inserted(
    mut spares: [Spare; SPARE_PLACES],
    listed: usize,
    x: Spare,
) -> [Spare; SPARE_PLACES]
    requires listed_lt_spare_places { listed < spare_places }
    requires spares_value { unused spare_place_is_zero spare_places listed spares ≡ true }
    ensures { result ≡ padded spare_places no_spare_place (map spare_place (insert_spare (spare_of x) (map spare_of (take listed spares)))) }
{
    let at = place_of(&spares[..listed], x);
    spares.copy_within(at..listed, at + 1);
    spares[at] = x;
    spares
}

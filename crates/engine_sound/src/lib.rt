// Whether a state is sound, for any numbers in it: tested once a call.
#![tactic(auto)]

ghost use Rattle.std.specs.Prelude.{true, map, ◌≡◌, ◌≤◌, ◌+◌, leb, eqb, length};
ghost use Rattle.std.specs.List.{list_all};
ghost use mathlib.Core.List.{zip_with};
ghost use Rattle.laws.specs.Lists.{every, total};
ghost use Rattle.rules.specs.Limits.{guest_places, spare_places, last_tick};
ghost use Rattle.rules.specs.Model.{active_count};
ghost use Rattle.rules.specs.Sound.{rising, sound};
ghost use Rattle.rules.specs.Table.{good_table};
ghost use Rattle.engine_choice.specs.Choice.{in_use};
ghost use Rattle.rules.specs.Places.{guest_of, spare_of};
ghost use Rattle.engine_sound.specs.Clauses.{SoundTold, SoundTested};
ghost use Rattle.engine_sound.specs.Inner.{guest_holds, spare_fits, spare_place_holds, place_tallies};

use rules::{
    DEADLINE_CAP, DEADLINE_GROWTH, Entry, GUEST_PLACES, Guest, LAST_TICK, MOST_JOBS, Refusal,
    SPARE_PLACES, Spare, State,
};

mod sound;

pub use sound::Sound;

fn guest_holds(e: &Entry, g: &Guest, now: u64) -> bool
    requires { now ≤ last_tick }
    ensures { result ≡ guest_holds now (guest_of e.now g.now) }
{
    let active = g.jobs != 0;
    let spent = g.current == 0;
    g.jobs <= MOST_JOBS
        && g.current <= e.budget
        && (active || spent)
        && g.deadline <= DEADLINE_CAP + now * DEADLINE_GROWTH
}

fn guests_hold(entries: &[Entry], guests: &[Guest], now: u64) -> bool
    requires { now ≤ last_tick }
    ensures { result ≡ every (guest_holds now) (zip_with guest_of entries.now guests.now) }
{
    entries
        .iter()
        .zip(guests)
        .all(|(e, g)| guest_holds(e, g, now))
}

// Whether each place is the zero one.
fn all_equal<T: Copy + PartialEq>(places: &[T], zero: T) -> bool
    ensures { result ≡ list_all (λ x. T.eq x zero) places.now }
{
    places.iter().all(|x| *x == zero)
}

// A sum that no number of ticks holds is no tick: it stops at the largest number.
fn tallies_add_up(guests: &[Guest], burned: u64, empty: u64, now: u64) -> bool
    requires { now ≤ last_tick }
    ensures { result ≡ eqb (total place_tallies guests.now + burned + empty) now }
{
    let mut sum = burned.saturating_add(empty);
    for g in guests {
        sum = sum.saturating_add(g.own).saturating_add(g.borrowed);
    }
    sum == now
}

fn spare_fits(e: &Entry, g: &Guest, now: u64, x: &Spare) -> bool
    requires { now ≤ last_tick }
    ensures { result ≡ spare_fits now (guest_of e.now g.now) (spare_of x.now) }
{
    let idle = g.jobs == 0;
    let behind = x.deadline < g.deadline;
    x.capacity >= 1
        && x.capacity <= e.budget
        && x.deadline <= DEADLINE_CAP + now * DEADLINE_GROWTH
        && x.deadline <= g.deadline
        && (idle || behind)
}

// One owner's numbers are read for each spare, and not its whole list.
fn spare_holds(entries: &[Entry], guests: &[Guest], now: u64, x: &Spare) -> bool
    requires { (length entries.now ≡ length guests.now) × (now ≤ last_tick) }
    ensures { result ≡ spare_place_holds now (zip_with guest_of entries.now guests.now) x.now }
{
    x.owner < guests.len() && spare_fits(&entries[x.owner], &guests[x.owner], now, x)
}

fn spares_hold(entries: &[Entry], guests: &[Guest], now: u64, spares: &[Spare]) -> bool
    requires { (length entries.now ≡ length guests.now) × (now ≤ last_tick) }
    ensures { result ≡ every (spare_place_holds now (zip_with guest_of entries.now guests.now)) spares.now }
{
    spares.iter().all(|x| spare_holds(entries, guests, now, x))
}

fn spares_rise(spares: &[Spare]) -> bool
    ensures { result ≡ rising (map spare_of spares.now) }
{
    spares.is_sorted_by(|x, y| engine_choice::comes_before(*x, *y))
}

// "spares plus active guests are at most 64"
fn has_room(guests: &[Guest; GUEST_PLACES], count: usize, listed: usize) -> bool
    requires { listed ≤ spare_places }
    ensures { result ≡ leb (listed + active_count (in_use count guests.now)) spare_places }
{
    let active = engine_choice::ones_of(engine_choice::mask_of(guests, count));
    listed + active as usize <= SPARE_PLACES
}

// What is left to test once no count passes its places. With `&` each test is made, and there is one way through them.
fn all_holds(s: State) -> bool
    requires { (good_table s.table ≡ true) × (s.table.count ≤ guest_places) × (s.listed ≤ spare_places) × (s.now ≤ last_tick) }
    ensures { result ≡ sound s }
{
    let count = s.table.count;
    let entries = &s.table.entries[..count];
    let (guests, unused_guests) = s.guests.split_at(count);
    let (spares, unused_spares) = s.spares.split_at(s.listed);
    guests_hold(entries, guests, s.now)
        & spares_hold(entries, guests, s.now, spares)
        & tallies_add_up(guests, s.burned, s.empty, s.now)
        & spares_rise(spares)
        & has_room(&s.guests, count, s.listed)
        & all_equal(unused_guests, Guest::default())
        & all_equal(unused_spares, Spare::default())
}

// Any numbers may stand in the state.
pub fn is_sound(s: State) -> bool
    ensures { SoundTold s result }
{
    if table::check(s.table).is_err() {
        return false;
    }
    if s.listed > SPARE_PLACES {
        return false;
    }
    s.now <= LAST_TICK && all_holds(s)
}

// The state as it was given, with the fact that it is sound.
pub fn tested(s: &State) -> Result<Sound<'_>, Refusal>
    ensures { SoundTested s.entry result }
{
    if is_sound(*s) {
        Ok(Sound { state: s })
    } else {
        Err(Refusal::NotSound)
    }
}

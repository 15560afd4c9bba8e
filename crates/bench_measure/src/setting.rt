// The state that a call is measured on: a table, spares and active guests, made by the engine's own calls.
ghost use Rattle.std.specs.Prelude.{◌<◌};
ghost use Rattle.rules.specs.Limits.{guest_places};

use crate::input::Call;
use rules::{Entry, GUEST_PLACES, SPARE_PLACES, State, Table};

const FRAME: u64 = 240;

// What every guest has, and so every spare: the ticks of a portion.
pub(crate) const BUDGET: u64 = 4;

// With a place kept for one guest that is active or is to be.
const MOST_SPARES: u64 = SPARE_PLACES as u64 - 1;

// The last guest of so many, within the places. It is the one that arrives or is done.
pub(crate) fn last_guest(guests: u64) -> usize
    ensures { result < guest_places }
{
    (guests.clamp(1, GUEST_PLACES as u64) - 1) as usize
}

// Periods from the whole frame down to its sixth: the spares of different guests lie in between each other.
fn entry_of(i: usize, budget: u64) -> Entry
    requires { i < guest_places }
{
    let parts = i as u64 / 3 + 1;
    Entry {
        budget,
        period: FRAME / parts,
    }
}

fn table_of(last: usize, budget: u64) -> Table
    requires { last < guest_places }
{
    let mut entries = [Entry::default(); GUEST_PLACES];
    for i in 0..last + 1 {
        entries[i] = entry_of(i, budget);
    }
    Table {
        frame: FRAME,
        count: last + 1,
        entries,
    }
}

// A guest that goes idle as it came leaves its whole budget; the next time its deadline is one period later.
fn one_spare(s: State, i: usize) -> State {
    let active = engine::arrive(s, i).unwrap_or(s);
    engine::done(active, i).unwrap_or(active)
}

fn next_guest(i: usize, last: usize) -> usize {
    if i < last { i + 1 } else { 0 }
}

// Guest after guest leaves a spare.
fn with_spares(s: State, last: usize, spares: u64) -> State {
    let mut state = s;
    let mut i = 0;
    for _ in 0..spares {
        state = one_spare(state, i);
        i = next_guest(i, last);
    }
    state
}

fn with_active(s: State, guests: u64) -> State {
    let mut state = s;
    for n in 0..guests {
        state = engine::arrive(state, n as usize).unwrap_or(state);
    }
    state
}

// Short portions for one long advance: with a budget of 1 every tick is a portion.
fn budget_for(call: Call) -> u64 {
    match call {
        Call::LongAdvance => 1,
        _ => BUDGET,
    }
}

// As many other guests are active as there is room for, and the last guest too, but where its arrival is measured.
pub(crate) fn prepared(call: Call, last: usize, wanted: u64) -> State
    requires { last < guest_places }
{
    let spares = wanted.min(MOST_SPARES);
    let others = (last as u64).min(MOST_SPARES - spares);
    let start = engine::fresh(table_of(last, budget_for(call))).unwrap_or(engine::no_state());
    let s = with_active(with_spares(start, last, spares), others);
    match call {
        Call::Arrive => s,
        _ => engine::arrive(s, last).unwrap_or(s),
    }
}

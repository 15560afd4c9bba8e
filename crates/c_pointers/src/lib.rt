// Functions that take structs by pointer and have another function do the work by value: one for each form that C calls. All that is known of the other
// function is its contract; nothing here knows of the rules.
#![tactic(auto)]

ghost use Rattle.std.specs.Prelude.{◌≡◌};
ghost use Rattle.std.specs.Fn.{FnOnceReturnsAt};
ghost use Rattle.c_pointers.specs.Forms.{StoresAt};

use c_answers::{Changed, WalkShown, Walked};
use c_images::Reading;
use rules::{State, Table};

// The state is changed in its place, and the number is given.
pub fn changing<N, F: FnOnce(State, N) -> Changed>(change: F, state: &mut State, number: N) -> u32
    requires { F.pre change state.old number }
    ensures { F.post change state.old number (record { refusal = result; state = state.new }) }
{
    let changed = change(*state, number);
    *state = changed.state;
    changed.refusal
}

// The state is changed in its place, and what the walk tells is given.
pub fn walking<F: FnOnce(State, u64) -> Walked>(walk: F, state: &mut State, ticks: u64) -> WalkShown
    requires { F.pre walk state.old ticks }
    ensures { F.post walk state.old ticks (record { told = result; state = state.new }) }
{
    let walked = walk(*state, ticks);
    *state = walked.state;
    walked.told
}

// A question on a state.
pub fn asking<R, F: FnOnce(State) -> R>(ask: F, state: &State) -> R
    requires { F.pre ask state.now }
    ensures { F.post ask state.entry.now result }
{
    ask(*state)
}

// A question on a state and a guest.
pub fn asking_of<R, F: FnOnce(State, usize) -> R>(ask: F, state: &State, guest: usize) -> R
    requires { F.pre ask state.now guest }
    ensures { F.post ask state.entry.now guest result }
{
    ask(*state, guest)
}

// A state is made of what stands behind another pointer.
pub fn starting<T: Copy, F: FnOnce(T) -> Changed>(start: F, state: &mut State, from: &T) -> u32
    requires { F.pre start from.now }
    ensures { F.post start from.now (record { refusal = result; state = state.new }) }
{
    let started = start(*from);
    *state = started.state;
    started.refusal
}

// A table is made of an image, and stored whatever was there.
pub fn loading<F: FnOnce(&[u8]) -> Reading>(load: F, table: &mut Table, image: &[u8]) -> u32
    requires { F.IsAlwaysCallable load }
    ensures { FnOnceReturnsAt F.FnOnce load image.now (record { refusal = result; table = table.new }) }
{
    let reading = load(image);
    *table = reading.table;
    reading.refusal
}

// What stands behind a pointer is written to bytes.
pub fn storing<T: Copy, F: FnOnce(T, &mut [u8]) -> u32>(
    store: F,
    value: &T,
    bytes: &mut [u8],
) -> u32
    requires { F.IsAlwaysCallable store }
    ensures { StoresAt F.FnOnce store value.now bytes.old result bytes.new }
{
    store(*value, bytes)
}

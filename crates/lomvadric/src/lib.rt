// The library as C calls it: states, tables and bytes behind pointers, answers as numbers. Each function has `c_calls` or `c_images` do its work by
// value. A form of `c_pointers` fetches what stands there and stores what comes of it, but where a state is changed: there the form takes up to 8 KB more of stack.
#![tactic(auto)]

ghost use Rattle.rules.specs.Calls.{ImageChecked};
ghost use Rattle.c_answers.specs.Clauses.{FreshInPlace, ArrivedInPlace, FinishedInPlace, AdvancedInPlace, WalkedInPlace, NextTold, ActivesTold, DistanceTold};
ghost use Rattle.c_images.specs.Clauses.{ReadInPlace, EntriesPlaced, WrittenInPlace};

use c_answers::{Actives, Distance, Next, WalkShown};
use c_images::Part;
use c_pointers::{asking, asking_of, loading, starting, storing};
use rules::{State, Table};

// A fresh state of a table, into the caller's place; all zeros after a refusal.
#[unsafe(no_mangle)]
pub extern "C" fn lomvadric_fresh(state: &mut State, table: &Table) -> u32
    ensures { FreshInPlace table.now state.new result }
{
    starting(c_calls::fresh, state, table)
}

// A job arrives at a guest. A refusal stores the state as it was, and so do those of `lomvadric_done` and `lomvadric_advance`.
#[unsafe(no_mangle)]
pub extern "C" fn lomvadric_arrive(state: &mut State, guest: usize) -> u32
    ensures { ArrivedInPlace state.old guest state.new result }
{
    let arrived = c_calls::arrive(*state, guest);
    *state = arrived.state;
    arrived.refusal
}

// A guest's job is done.
#[unsafe(no_mangle)]
pub extern "C" fn lomvadric_done(state: &mut State, guest: usize) -> u32
    ensures { FinishedInPlace state.old guest state.new result }
{
    let finished = c_calls::done(*state, guest);
    *state = finished.state;
    finished.refusal
}

// Time goes on by so many ticks; 0 is accepted.
#[unsafe(no_mangle)]
pub extern "C" fn lomvadric_advance(state: &mut State, ticks: u64) -> u32
    ensures { AdvancedInPlace state.old ticks state.new result }
{
    let advanced = c_calls::advance(*state, ticks);
    *state = advanced.state;
    advanced.refusal
}

// An advance, shown portion by portion; the ticks behind the last place for a line are left.
#[unsafe(no_mangle)]
pub extern "C" fn lomvadric_walk(state: &mut State, ticks: u64) -> WalkShown
    ensures { WalkedInPlace state.old ticks state.new result }
{
    let walked = c_calls::walk(*state, ticks);
    *state = walked.state;
    walked.told
}

// What the next tick would do; nothing after a refusal.
#[unsafe(no_mangle)]
pub extern "C" fn lomvadric_ask(state: &State) -> Next
    ensures { NextTold state.entry.now result }
{
    asking(c_calls::ask, state)
}

// Who is active; nobody after a refusal.
#[unsafe(no_mangle)]
pub extern "C" fn lomvadric_active(state: &State) -> Actives
    ensures { ActivesTold state.entry.now result }
{
    asking(c_calls::active, state)
}

// How far ahead a guest's deadline lies; below zero where it has passed, and 0 after a refusal.
#[unsafe(no_mangle)]
pub extern "C" fn lomvadric_margin(state: &State, guest: usize) -> Distance
    ensures { DistanceTold state.entry.now guest result }
{
    asking_of(c_calls::margin, state, guest)
}

// 0, or the smallest number of refusal, for every image, one of no bytes included.
#[unsafe(no_mangle)]
pub extern "C" fn lomvadric_check_image(image: &[u8]) -> u32
    ensures { ImageChecked image.now result }
{
    c_images::check(image)
}

// Writes the whole table, whatever was there: that of the image, or one of zeros after a refusal.
#[unsafe(no_mangle)]
pub extern "C" fn lomvadric_read_image(table: &mut Table, image: &[u8]) -> u32
    ensures { ReadInPlace image.now table.new result }
{
    loading(c_images::read, table, image)
}

// Where the entries lie in the caller's own image.
#[unsafe(no_mangle)]
pub extern "C" fn lomvadric_entries(image: &[u8]) -> Part
    ensures { EntriesPlaced image.now result }
{
    c_images::entries(image)
}

// Writes the table's image at the front of the buffer; a refusal changes no byte.
#[unsafe(no_mangle)]
pub extern "C" fn lomvadric_write_image(table: &Table, buffer: &mut [u8]) -> u32
    ensures { WrittenInPlace table.now buffer.old buffer.new result }
{
    storing(c_images::write, table, buffer)
}

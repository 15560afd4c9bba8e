// The table that the `F` line and the `G` lines make, and its check.
ghost use Rattle.std.specs.Prelude.{◌≡◌, ◌+◌, ◌≤◌, length};
ghost use Rattle.rules.specs.Refusals.{first};
ghost use Rattle.rules.specs.Table.{table_rows};
ghost use Rattle.program_listing.specs.declared.Stage.TheVariants.{Frames, Guests};
ghost use Rattle.program_listing.specs.Listing.{framed, with_guest};
ghost use Rattle.program_listing.specs.Turning.{turn_room, with_table, checks, turn_in};
ghost use Rattle.program_turn.specs.Inner.{Did};

use crate::commands::going_on;
use crate::input::next_line;
use crate::put::{malformed, stopped};
use answer_number::number_of;
use program_listing::{Held, MOST_INPUT, Stage, Turned};
use program_text::Line;
use rules::{Entry, GUEST_PLACES, State, Table};

fn framed(frame: u64) -> Table
    ensures { result ≡ framed frame }
{
    Table {
        frame,
        ..table::no_table()
    }
}

// A guest past the places is counted and has no place: the count alone has the table refused.
fn with_guest(mut t: Table, guest: Entry) -> Table
    ensures { result ≡ with_guest guest t }
{
    if t.count < GUEST_PLACES {
        t.entries[t.count] = guest;
    }
    Table {
        count: t.count.min(GUEST_PLACES) + 1,
        ..t
    }
}

// More `G` lines may come.
fn with_table(at: usize, table: Table, state: State) -> Held
    ensures { result ≡ with_table at table state }
{
    Held {
        at,
        stage: Stage::Guests,
        table,
        state,
        left: 0,
    }
}

pub(crate) fn frame_turn(input: &[u8], h: Held, buffer: &mut [u8], filled: usize) -> Turned
    requires { filled + turn_room ≤ length buffer.old }
    ensures { Did (turn_in Frames input.now h) buffer.old filled buffer.new result }
{
    if MOST_INPUT < input.len() {
        return malformed(h, buffer, filled);
    }
    let next = next_line(input, h.at);
    match next.line {
        Line::Frame(frame) => Turned {
            held: with_table(next.end, framed(frame), h.state),
            filled,
        },
        _ => malformed(h, buffer, filled),
    }
}

// The table is checked before the line behind it is looked at.
fn checked(h: Held, buffer: &mut [u8], filled: usize) -> Turned
    requires { filled + turn_room ≤ length buffer.old }
    ensures { Did (checks (first (table_rows h.table)) h) buffer.old filled buffer.new result }
{
    let outcome = engine::fresh(h.table);
    let Ok(state) = outcome else {
        return stopped(number_of(&outcome), h, buffer, filled);
    };
    Turned {
        held: going_on(h.at, h.table, state, 0),
        filled,
    }
}

pub(crate) fn guest_turn(input: &[u8], h: Held, buffer: &mut [u8], filled: usize) -> Turned
    requires { filled + turn_room ≤ length buffer.old }
    ensures { Did (turn_in Guests input.now h) buffer.old filled buffer.new result }
{
    let next = next_line(input, h.at);
    match next.line {
        Line::Guest(budget, period) => {
            let table = with_guest(h.table, Entry { budget, period });
            Turned {
                held: with_table(next.end, table, h.state),
                filled,
            }
        }
        _ => checked(h, buffer, filled),
    }
}

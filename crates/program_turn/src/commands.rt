// The commands: arrive, done and advance, each on the state that is held.
ghost use Rattle.std.specs.Prelude.{◌≡◌, ◌+◌, ◌≤◌, length};
ghost use Rattle.program_listing.specs.Turning.{turn_room, going_on, walks, ends, command_line, command_turn};
ghost use Rattle.program_turn.specs.Inner.{Did, called};

use crate::input::next_line;
use crate::put::{malformed, over, put_portions, refused};
use answer_number::number_of;
use program_listing::{Held, Stage, Turned};
use program_text::{Call, Line};
use rules::{Refusal, State, Table};

pub(crate) fn going_on(at: usize, table: Table, state: State, left: u64) -> Held
    ensures { result ≡ going_on at table state left }
{
    Held {
        at,
        stage: Stage::Commands,
        table,
        state,
        left,
    }
}

// What an arrival or a completion gave; a refused one leaves the state as it was.
fn called(
    outcome: Result<State, Refusal>,
    end: usize,
    h: Held,
    buffer: &mut [u8],
    filled: usize,
) -> Turned
    requires { filled + turn_room ≤ length buffer.old }
    ensures { Did (called outcome end h) buffer.old filled buffer.new result }
{
    let Ok(state) = outcome else {
        let held = going_on(end, h.table, h.state, 0);
        return refused(number_of(&outcome), held, buffer, filled);
    };
    Turned {
        held: going_on(end, h.table, state, 0),
        filled,
    }
}

// The soundness of the state is tested once for all the portions of a walk.
fn walked(k: u64, end: usize, h: Held, buffer: &mut [u8], filled: usize) -> Turned
    requires { filled + turn_room ≤ length buffer.old }
    ensures { Did (walks k end h) buffer.old filled buffer.new result }
{
    let outcome = engine::walk(h.state, k);
    let Ok(walk) = outcome else {
        let held = going_on(end, h.table, h.state, 0);
        return refused(number_of(&outcome), held, buffer, filled);
    };
    Turned {
        held: going_on(end, h.table, walk.state, walk.left),
        filled: put_portions(&walk.lines[..walk.shown], buffer, filled),
    }
}

#[tactic(auto, unfolding(rules::specs::Calls::state_after))]
fn command_line(line: Line, end: usize, h: Held, buffer: &mut [u8], filled: usize) -> Turned
    requires { filled + turn_room ≤ length buffer.old }
    ensures { Did (command_line line end h) buffer.old filled buffer.new result }
{
    let Line::Command(call) = line else {
        return malformed(h, buffer, filled);
    };
    match call {
        Call::Arrive(i) => called(engine::arrive(h.state, i as usize), end, h, buffer, filled),
        Call::Done(i) => called(engine::done(h.state, i as usize), end, h, buffer, filled),
        Call::Advance(k) => walked(k, end, h, buffer, filled),
    }
}

fn ended(h: Held, buffer: &mut [u8], filled: usize) -> Turned
    requires { filled + turn_room ≤ length buffer.old }
    ensures { Did (ends h) buffer.old filled buffer.new result }
{
    let filled = program_lines::put_end(h.state.now, buffer, filled);
    Turned {
        held: over(h),
        filled,
    }
}

pub(crate) fn command_turn(input: &[u8], h: Held, buffer: &mut [u8], filled: usize) -> Turned
    requires { filled + turn_room ≤ length buffer.old }
    ensures { Did (command_turn input.now h) buffer.old filled buffer.new result }
{
    if 0 < h.left {
        return walked(h.left, h.at, h, buffer, filled);
    }
    if input.len() <= h.at {
        return ended(h, buffer, filled);
    }
    let next = next_line(input, h.at);
    command_line(next.line, next.end, h, buffer, filled)
}

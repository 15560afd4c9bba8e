// What a turn puts out: a refusal, one that stops the program, and the portions of a walk.
ghost use Rattle.std.specs.Prelude.{◌≡◌, ◌+◌, ◌≤◌, length};
ghost use Rattle.rules.specs.Limits.{line_places};
ghost use Rattle.program_text.specs.Lines.{refusal_bytes};
ghost use Rattle.program_text.specs.Script.{malformed};
ghost use Rattle.program_listing.specs.Turning.{turn_room, turn, over, stops};
ghost use Rattle.program_turn.specs.Inner.{Did, PortionsPut};

use program_listing::{Held, Stage, Turned};
use rules::{Line, Refusal};

// Nothing comes any more.
pub(crate) fn over(h: Held) -> Held
    ensures { result ≡ over h }
{
    Held {
        stage: Stage::Over,
        ..h
    }
}

// The number of a refusal, and what is held behind it. It is a number, because the else of a `let .. else` has no name for the refusal.
pub(crate) fn refused(number: u32, held: Held, buffer: &mut [u8], filled: usize) -> Turned
    requires { filled + turn_room ≤ length buffer.old }
    ensures { Did (turn (refusal_bytes number) held) buffer.old filled buffer.new result }
{
    let filled = program_lines::put_refusal(u64::from(number), buffer, filled);
    Turned { held, filled }
}

// A refusal that stops the program.
pub(crate) fn stopped(number: u32, h: Held, buffer: &mut [u8], filled: usize) -> Turned
    requires { filled + turn_room ≤ length buffer.old }
    ensures { Did (stops number h) buffer.old filled buffer.new result }
{
    refused(number, over(h), buffer, filled)
}

// "a line of program input is malformed", or out of order, or there is too much input.
pub(crate) fn malformed(h: Held, buffer: &mut [u8], filled: usize) -> Turned
    requires { filled + turn_room ≤ length buffer.old }
    ensures { Did (stops malformed h) buffer.old filled buffer.new result }
{
    stopped(u32::from(Refusal::Malformed), h, buffer, filled)
}

pub(crate) fn put_portions(lines: &[Line], buffer: &mut [u8], filled: usize) -> usize
    requires { (length lines.now ≤ line_places) × (filled + turn_room ≤ length buffer.old) }
    ensures { PortionsPut lines.now buffer.old filled buffer.new result }
{
    let mut end = filled;
    for line in lines {
        end = program_lines::put_portion(*line, buffer, end);
    }
    end
}

// One turn of the program: it takes the input and what is held, puts out some bytes and gives what is held next.
#![tactic(auto)]

ghost use Rattle.program_listing.specs.Turning.{Turning};

use crate::commands::command_turn;
use crate::tables::{frame_turn, guest_turn};
use program_lines::LINE_ROOM;
use program_listing::{Held, Stage, Turned};
use rules::LINE_PLACES;

mod commands;
mod input;
mod put;
mod tables;

// A turn puts out at most the portions of one walk.
pub const TURN_ROOM: usize = LINE_PLACES * LINE_ROOM;

#[tactic(auto, unfolding(program_listing::specs::Turning::turn_of))]
pub fn turn(input: &[u8], h: Held, buffer: &mut [u8], filled: usize) -> Turned
    ensures { Turning input.now h buffer.old filled buffer.new result }
{
    if !program_lines::has_room(buffer.len(), filled, TURN_ROOM) {
        return Turned { held: h, filled };
    }
    match h.stage {
        Stage::Frames => frame_turn(input, h, buffer, filled),
        Stage::Guests => guest_turn(input, h, buffer, filled),
        Stage::Commands => command_turn(input, h, buffer, filled),
        Stage::Over => Turned { held: h, filled },
    }
}

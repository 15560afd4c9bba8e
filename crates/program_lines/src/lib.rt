// The lines of the listing, put into a lent buffer behind what it holds: a portion, a refusal, the end.
#![tactic(auto)]

ghost use Rattle.program_text.specs.Lines.{RoomTold, LinePut, portion_bytes, refusal_bytes, end_bytes};

use crate::parts::{put_closed, put_number, put_spaced, put_used};
use rules::Line;

mod parts;

// No line takes more bytes, whatever its numbers.
pub const LINE_ROOM: usize = 85;

// Whether so many bytes have room in a buffer of this length. The sum of filled and the room is not made, because it could wrap.
pub fn has_room(length: usize, filled: usize, room: usize) -> bool
    ensures { RoomTold length filled room result }
{
    room <= length && filled <= length - room
}

// Behind the bytes that the buffer holds; where a whole line has no room, nothing is put, and so with the other two.
pub fn put_portion(line: Line, buffer: &mut [u8], filled: usize) -> usize
    ensures { LinePut (portion_bytes line) buffer.old filled buffer.new result }
{
    if !has_room(buffer.len(), filled, LINE_ROOM) {
        return filled;
    }
    let first = put_number(line.first, buffer, filled);
    let end = put_spaced(line.end, buffer, first);
    let behind = put_used(line.used, buffer, end);
    buffer[behind] = b'\n';
    behind + 1
}

// `! number`, whatever the number is: the contract is over any number, and not over the refusals alone.
pub fn put_refusal(number: u64, buffer: &mut [u8], filled: usize) -> usize
    ensures { LinePut (refusal_bytes number) buffer.old filled buffer.new result }
{
    if !has_room(buffer.len(), filled, LINE_ROOM) {
        return filled;
    }
    buffer[filled] = b'!';
    put_closed(number, b'\n', buffer, filled + 1)
}

// `end` and the tick.
pub fn put_end(tick: u64, buffer: &mut [u8], filled: usize) -> usize
    ensures { LinePut (end_bytes tick) buffer.old filled buffer.new result }
{
    if !has_room(buffer.len(), filled, LINE_ROOM) {
        return filled;
    }
    buffer[filled..filled + 3].copy_from_slice(b"end");
    put_closed(tick, b'\n', buffer, filled + 3)
}

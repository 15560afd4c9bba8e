// The program: commands from standard input, and their schedule on standard output.
#![tactic(auto)]

ghost use Rattle.std.specs.Prelude.{◌≤◌, length};
ghost use Rattle.program_listing.specs.Turning.{turn_room};
ghost use Rattle.schedule.specs.Clauses.{Filled};

use program_listing::{Held, MOST_INPUT, Turned};
use program_turn::TURN_ROOM;

// Where input comes from and output goes to, by their numbers.
const STDIN_FILENO: i32 = 0;

const STDOUT_FILENO: i32 = 1;

// One byte more than the program takes, so that too much input is seen.
const INPUT_PLACES: usize = MOST_INPUT + 1;

// Turn after turn, until the buffer has no room for another one or no more is to come.
fn fill(input: &[u8], from: Held, buffer: &mut [u8]) -> Turned
    requires { turn_room ≤ length buffer.old }
    ensures { Filled input.now from buffer.new result }
{
    let mut turned = Turned {
        held: from,
        filled: 0,
    };
    while program_turns::is_going(turned.held.stage)
        && program_lines::has_room(buffer.len(), turned.filled, TURN_ROOM)
    {
        turned = program_turn::turn(input, turned.held, buffer, turned.filled);
    }
    turned
}

// Each full buffer is written whole, and a write that fails ends the program.
fn run(input: &[u8], buffer: &mut [u8])
    requires { turn_room ≤ length buffer.old }
{
    let mut held = program_turns::begin();
    while program_turns::is_going(held.stage) {
        let turned = fill(input, held, buffer);
        if !io::write_all(STDOUT_FILENO, &buffer[..turned.filled]) {
            return;
        }
        held = turned.held;
    }
}

fn main() {
    let mut input = [0u8; INPUT_PLACES];
    let mut buffer = io::large_buffer();
    let length = io::read_full(STDIN_FILENO, &mut input);
    run(&input[..length], &mut buffer);
}

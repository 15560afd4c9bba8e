// Answers calls on any state, any table and any image that standard input holds, sound or not: what `compare states` holds to the second
// implementation.
#![tactic(auto)]

use crate::wire::next_number;

mod images;
mod put;
mod states;
mod tables;
mod taken;
mod wire;

// Where input comes from and output goes to, by their numbers.
pub(crate) const STDIN_FILENO: i32 = 0;

const STDOUT_FILENO: i32 = 1;

// The longest answer, that to a state, has 1,577 numbers.
const ANSWER_PLACES: usize = 16384;

// How many bytes of the buffer the answer has; none where the input has ended, and where no such request is known. A kind is read and used here
// alone, so an enum of them would say it twice.
fn answered(buffer: &mut [u8]) -> Option<usize> {
    match next_number() {
        1 => states::answered(buffer),
        2 => tables::answered(buffer),
        3 => images::answered(buffer),
        _ => None,
    }
}

// Whether there was a request and its answer is written.
fn answer_one(buffer: &mut [u8]) -> bool {
    let Some(filled) = answered(buffer) else {
        return false;
    };
    filled <= buffer.len() && io::write_all(STDOUT_FILENO, &buffer[..filled])
}

fn run(buffer: &mut [u8]) {
    for _ in 0..next_number() {
        if !answer_one(buffer) {
            return;
        }
    }
}

fn main() {
    let mut buffer = [0u8; ANSWER_PLACES];
    run(&mut buffer);
}

// Numbers as standard input has them and as an answer has them: 8 bytes each, the low one first.
//
// The input is the number of requests and then the requests, each a number that says its kind, and:
//   1: a state, a guest number and a number of ticks;
//   2: a table, the length of a buffer (at most 200) and a number whose low byte fills it;
//   3: the length of an image (at most 65,600) and its bytes.
// A table is its frame, its count, and budget and period of all 16 places. A state is its table, of each of the 16 guests jobs, current,
// deadline, own and borrowed, of each of the 64 spares deadline, owner and capacity, then now, listed, burned and empty: 310 numbers.
//
// The answers come in the order of the requests. Each call's answer starts with its refusal number, or 0:
//   1: arrive, done and advance, each with its state; walk with its state, left, shown, and of each of the 64 lines first, end, kind,
//      guest and owner; ask with kind, guest, owner, deadline and span; active with mask and actives; margin with its ticks as the
//      64 bits of a signed number;
//   2: check; fresh with its state; write with the buffer's length and its bytes;
//   3: read with its table; the number of its check; entries (which has no number) with the length of the part and its bytes.
// A kind is 0 for nothing, 1 for a guest on its own budget, 2 for a guest on a spare, 3 for a spare that burns; a number that the kind does
// not have is 0. An input that ends early, a request of another kind and one that is too long end the answers.
ghost use Rattle.std.specs.Prelude.{◌<◌};

use crate::STDIN_FILENO;
use image_reader::word_at;

const NUMBER_LENGTH: usize = 8;

// The number at a place, counted in numbers; 0 where it runs past the end. By words: of a number that is cut off its low word counts.
pub(crate) fn number_at(bytes: &[u8], place: usize) -> u64
    requires { place < 1000 }
{
    let at = NUMBER_LENGTH * place;
    let low = word_at(bytes, at) as u64;
    let high = word_at(bytes, at + 4) as u64;
    low + (high << 32)
}

// The next number of standard input, or 0 at its end.
pub(crate) fn next_number() -> u64 {
    let mut bytes = [0u8; NUMBER_LENGTH];
    let length = io::read_full(STDIN_FILENO, &mut bytes);
    number_at(&bytes[..length], 0)
}

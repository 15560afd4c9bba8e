// Numbers of an image and of its trailer, for every image and every place.
#![tactic(auto)]

ghost use Rattle.image_reader.specs.Clauses.{NumberRead, EntryRead, TrailerRead};

use crate::reader::{Reader, trailer_place};

mod bytes;
mod reader;

// The numbers of an image's trailer.
#[derive(Clone, Copy)]
pub struct Trailer {
    pub frame: usize,
    pub offset: usize,
    pub count: usize,
    pub edition: usize,
}

// The numbers of an entry: Q and T.
#[derive(Clone, Copy)]
pub struct Pair {
    pub budget: usize,
    pub period: usize,
}

// The number in 4 bytes at a place, or 0 where they run past the end, as the contract says. A pattern has a fixed length, so this and `half_at` are two functions.
pub fn word_at(bytes: &[u8], at: usize) -> usize
    ensures { NumberRead 4 bytes.now at result }
{
    let &[a, b, c, d, ..] = &bytes[at.min(bytes.len())..] else {
        return 0;
    };
    u32::from_le_bytes([a, b, c, d]) as usize
}

// The trailer's numbers, read one behind the other: the plain function that serves every caller.
pub fn read_trailer(image: &[u8]) -> Trailer
    ensures { TrailerRead image.now result }
{
    let mut reader = Reader {
        image,
        at: trailer_place(image),
    };
    Trailer {
        frame: reader.word(),
        offset: reader.word(),
        count: reader.half(),
        edition: reader.half(),
    }
}

// The numbers of the entry at a place, read one behind the other.
pub fn read_entry(part: &[u8], at: usize) -> Pair
    ensures { EntryRead part.now at result }
{
    let mut reader = Reader { image: part, at };
    Pair {
        budget: reader.word(),
        period: reader.word(),
    }
}

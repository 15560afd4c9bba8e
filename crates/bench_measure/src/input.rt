// The line that says what to measure: call, guests, spares and times, with one byte between two numbers.
ghost use Rattle.std.specs.Prelude.{◌<◌, length, IsSome};

// Which call is measured; the turns alone for any other number.
#[derive(Clone, Copy)]
pub(crate) enum Call {
    Arrive,
    Done,
    Ask,
    Advance,
    LongAdvance,
    Nothing,
}

impl From<u64> for Call {
    fn from(number: u64) -> Call {
        match number {
            1 => Call::Arrive,
            2 => Call::Done,
            3 => Call::Ask,
            4 => Call::Advance,
            5 => Call::LongAdvance,
            _ => Call::Nothing,
        }
    }
}

// What to measure, as the line has it.
#[derive(Clone, Copy)]
pub(crate) struct Job {
    pub(crate) call: Call,
    pub(crate) guests: u64,
    pub(crate) spares: u64,
    pub(crate) times: u64,
}

// A number, and the place of its line that is read next.
#[derive(Clone, Copy)]
struct Number {
    value: u64,
    next: usize,
}

// The digit at a place, where there is one.
fn digit_at(line: &[u8], i: usize) -> Option<u64>
    ensures { IsSome result → i < length line.now }
{
    match line.get(i) {
        Some(b @ b'0'..=b'9') => Some(u64::from(*b - b'0')),
        _ => None,
    }
}

// The number that starts at a place, and where it ends, which the loop counts; one without digits is 0, and one that does not fit wraps: nobody measures so many turns. The byte
// behind it is passed over.
fn number_at(line: &[u8], from: usize) -> Number {
    let mut value: u64 = 0;
    let mut i = from;
    while let Some(digit) = digit_at(line, i) {
        value = value.wrapping_mul(10).wrapping_add(digit);
        i += 1;
    }
    Number {
        value,
        next: i.wrapping_add(1),
    }
}

pub(crate) fn job_of(line: &[u8]) -> Job {
    let call = number_at(line, 0);
    let guests = number_at(line, call.next);
    let spares = number_at(line, guests.next);
    let times = number_at(line, spares.next);
    Job {
        call: Call::from(call.value),
        guests: guests.value,
        spares: spares.value,
        times: times.value,
    }
}

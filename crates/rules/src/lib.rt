// The declared types and the limits that every other crate shares. The only code is each refusal's number: specs/ says what must happen.
#![tactic(auto)]

ghost use Rattle.std.specs.Prelude.{◌≡◌};
ghost use Rattle.rules.specs.Refusals.{refusal_number};

// The limits; specs/Limits.antt has them under the same words.
pub const GUEST_PLACES: usize = 16;

pub const SPARE_PLACES: usize = 64;

pub const LINE_PLACES: usize = 64;

pub const MOST_JOBS: u64 = 255;

pub const LAST_TICK: u64 = 1099511627776;

pub const DEADLINE_CAP: u64 = 17592186044416;

pub const DEADLINE_GROWTH: u64 = 1048576;

pub const LONGEST_FRAME: u64 = 1000000;

pub const SHORTEST_IMAGE: usize = 20;

pub const LONGEST_IMAGE: usize = 65536;

// A guest's budget Q and period T.
#[repr(C)]
#[derive(Clone, Copy, Default, PartialEq, Eq)]
pub struct Entry {
    pub budget: u64,
    pub period: u64,
}

// A frame H and the entries of `count` guests; the places behind them are zero.
#[repr(C)]
#[derive(Clone, Copy)]
pub struct Table {
    pub frame: u64,
    pub count: usize,
    pub entries: [Entry; GUEST_PLACES],
}

// What changes of a guest: waiting jobs, the current budget c, the deadline d, and two tallies:
// ticks run on its own budget, ticks run on a spare.
#[repr(C)]
#[derive(Clone, Copy, Default, PartialEq, Eq)]
pub struct Guest {
    pub jobs: u64,
    pub current: u64,
    pub deadline: u64,
    pub own: u64,
    pub borrowed: u64,
}

#[repr(C)]
#[derive(Clone, Copy, Default, PartialEq, Eq)]
pub struct Spare {
    pub deadline: u64,
    pub owner: usize,
    pub capacity: u64,
}

// The whole state. `listed` spares are in use; the processor's two tallies are idle ticks that burned
// a spare and idle ticks with nothing to burn.
#[repr(C)]
#[derive(Clone, Copy)]
pub struct State {
    pub table: Table,
    pub now: u64,
    pub guests: [Guest; GUEST_PLACES],
    pub listed: usize,
    pub spares: [Spare; SPARE_PLACES],
    pub burned: u64,
    pub empty: u64,
}

// The numbers of refusal, 1 to 16, in their order.
#[derive(Clone, Copy)]
pub enum Refusal {
    NotSound,
    NoSuchGuest,
    GuestIdle,
    JobsFull,
    NoRoom,
    DeadlineTooFar,
    EndOfTime,
    ImageLength,
    UnknownEdition,
    GuestCount,
    WrongOffset,
    FrameRange,
    BadGuest,
    ShareTooLarge,
    BufferShort,
    Malformed,
}

impl From<Refusal> for u32 {
    ghost from_gives = { λ r n. n ≡ refusal_number r };

    fn from(r: Refusal) -> u32 {
        match r {
            Refusal::NotSound => 1,
            Refusal::NoSuchGuest => 2,
            Refusal::GuestIdle => 3,
            Refusal::JobsFull => 4,
            Refusal::NoRoom => 5,
            Refusal::DeadlineTooFar => 6,
            Refusal::EndOfTime => 7,
            Refusal::ImageLength => 8,
            Refusal::UnknownEdition => 9,
            Refusal::GuestCount => 10,
            Refusal::WrongOffset => 11,
            Refusal::FrameRange => 12,
            Refusal::BadGuest => 13,
            Refusal::ShareTooLarge => 14,
            Refusal::BufferShort => 15,
            Refusal::Malformed => 16,
        }
    }
}

// Whose capacity a running guest uses: its own, or the spare that this guest left.
#[derive(Clone, Copy)]
pub enum Source {
    Own,
    SpareOf(usize),
}

// What a tick uses: a guest runs (number, source), a spare burns (owner), or nothing.
#[derive(Clone, Copy)]
pub enum Use {
    Run(usize, Source),
    Burn(usize),
    Nothing,
}

// What the next tick would do: a guest runs (number, source, deadline, span), a spare burns (owner,
// deadline, span), or nothing.
#[derive(Clone, Copy)]
pub enum Portion {
    Run(usize, Source, u64, u64),
    Burn(usize, u64, u64),
    Nothing,
}

// A portion of an advance as the listing shows it: its first tick, the tick it ends at, and what it used.
#[derive(Clone, Copy)]
pub struct Line {
    pub first: u64,
    pub end: u64,
    pub used: Use,
}

// What a walk gives: the lines of its first portions, `shown` of them, the state after them, and the ticks that are
// left to walk.
#[derive(Clone, Copy)]
pub struct Walk {
    pub state: State,
    pub left: u64,
    pub shown: usize,
    pub lines: [Line; LINE_PLACES],
}

// Bit i of the mask stands for guest i; `actives` is the number of its ones.
#[derive(Clone, Copy)]
pub struct Activity {
    pub mask: u32,
    pub actives: u32,
}

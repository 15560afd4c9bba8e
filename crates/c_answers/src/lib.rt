// The declared types of what C reads of each call. There is no code here: specs/ says what each answer is in numbers.
#![tactic(auto)]

use rules::{LINE_PLACES, State};

// What a call that changes the state gives: the number of its answer, because C reads it, and the state, because a refused call stores one too.
#[derive(Clone, Copy)]
pub struct Changed {
    pub refusal: u32,
    pub state: State,
}

// What a tick uses, as numbers: 0 nothing, 1 a guest's own budget, 2 a spare, 3 a spare that burns. A number that the kind does not have is 0.
#[repr(C)]
#[derive(Clone, Copy)]
pub struct UseNumbers {
    pub kind: u32,
    pub guest: usize,
    pub owner: usize,
}

// What the next tick would do.
#[repr(C)]
#[derive(Clone, Copy)]
pub struct Next {
    pub refusal: u32,
    pub used: UseNumbers,
    pub deadline: u64,
    pub span: u64,
}

#[repr(C)]
#[derive(Clone, Copy)]
pub struct Actives {
    pub refusal: u32,
    pub mask: u32,
    pub actives: u32,
}

#[repr(C)]
#[derive(Clone, Copy)]
pub struct Distance {
    pub refusal: u32,
    pub ticks: i64,
}

#[repr(C)]
#[derive(Clone, Copy)]
pub struct LineShown {
    pub first: u64,
    pub end: u64,
    pub used: UseNumbers,
}

#[repr(C)]
#[derive(Clone, Copy)]
pub struct WalkShown {
    pub refusal: u32,
    pub left: u64,
    pub shown: usize,
    pub lines: [LineShown; LINE_PLACES],
}

// What a walk gives: what it shows, and the state.
#[derive(Clone, Copy)]
pub struct Walked {
    pub told: WalkShown,
    pub state: State,
}

// The declared types of what the program holds between two turns. There is no code here: specs/ has the program's whole output and its turns.
#![tactic(auto)]

use rules::{State, Table};

// The most input that the program takes; with one byte more it is refused.
pub const MOST_INPUT: usize = 65536;

// Which lines come next: the `F` line, `G` lines, commands, or none.
#[derive(Clone, Copy)]
pub enum Stage {
    Frames,
    Guests,
    Commands,
    Over,
}

// What the program holds between two turns: the place of the next line, the stage, the table that the `G` lines
// make, the state, and the ticks that are left of the last `R`.
#[derive(Clone, Copy)]
pub struct Held {
    pub at: usize,
    pub stage: Stage,
    pub table: Table,
    pub state: State,
    pub left: u64,
}

// What a turn gives: what is held next, and how many bytes the buffer holds.
#[derive(Clone, Copy)]
pub struct Turned {
    pub held: Held,
    pub filled: usize,
}

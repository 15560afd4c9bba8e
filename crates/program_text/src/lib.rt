// The declared types of a line of input. There is no code here: specs/ says what a line of input and a line of output are.
#![tactic(auto)]

// A call that a line names; the letters are `A`, `D` and `R`.
#[derive(Clone, Copy)]
pub enum Call {
    Arrive(u64),
    Done(u64),
    Advance(u64),
}

// What a line asks for; the letters are `F`, `G` and those of the calls.
#[derive(Clone, Copy)]
pub enum Line {
    Frame(u64),
    Guest(u64, u64),
    Command(Call),
    Malformed,
}

// What the program holds at first, and whether more is to come; proofs/ has the theorems about its turns.
#![tactic(auto)]

ghost use Rattle.program_listing.specs.Turning.{Begun, GoingTold};

use program_listing::{Held, Stage};

// What is held at first: no table, and the state that is given back for none.
pub fn begin() -> Held
    ensures { Begun result }
{
    Held {
        at: 0,
        stage: Stage::Frames,
        table: table::no_table(),
        state: engine::no_state(),
        left: 0,
    }
}

// Whether more is to come.
pub fn is_going(stage: Stage) -> bool
    ensures { GoingTold stage result }
{
    !matches!(stage, Stage::Over)
}

// The specification's number of an answer, for callers that have no enum: C code and listings.
#![tactic(auto)]

ghost use Rattle.rules.specs.Calls.{NumberTold};

use rules::Refusal;

// 0 is no refusal.
pub fn number_of<T>(answer: &Result<T, Refusal>) -> u32
    ensures { NumberTold answer.now result }
{
    match answer {
        Ok(_) => 0,
        Err(refusal) => u32::from(*refusal),
    }
}

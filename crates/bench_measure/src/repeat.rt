// One call, so many times on the same state. Each call has its own loop: a common one would hand the state on by value, and count that copy too.
ghost use Rattle.std.specs.Prelude.{◌<◌};
ghost use Rattle.rules.specs.Limits.{guest_places};

use crate::digest::{mixed, state_digest};
use crate::setting::BUDGET;
use rules::{Portion, Refusal, Source, State};

// What every turn adds to the checksum. A refusal shows in it.
fn turn_mixed<T>(sum: u64, answer: &Result<T, Refusal>, now: u64) -> u64 {
    mixed(mixed(sum, u64::from(answer_number::number_of(answer))), now)
}

// The turns alone.
pub(crate) fn no_calls(s: State, times: u64) -> u64 {
    let went: Result<(), Refusal> = Ok(());
    let mut sum = 0;
    for _ in 0..times {
        sum = turn_mixed(sum, &went, s.now);
    }
    state_digest(sum, &s)
}

// The outcome is kept as its caller would keep it, so that the compiler can leave no turn out.
pub(crate) fn arrivals(s: State, i: usize, times: u64) -> u64 {
    let mut state = s;
    let mut sum = 0;
    for _ in 0..times {
        let answer = engine::arrive(s, i);
        if let Ok(after) = &answer {
            state = *after;
        }
        sum = turn_mixed(sum, &answer, state.now);
    }
    state_digest(sum, &state)
}

pub(crate) fn completions(s: State, i: usize, times: u64) -> u64 {
    let mut state = s;
    let mut sum = 0;
    for _ in 0..times {
        let answer = engine::done(s, i);
        if let Ok(after) = &answer {
            state = *after;
        }
        sum = turn_mixed(sum, &answer, state.now);
    }
    state_digest(sum, &state)
}

// One portion a turn.
pub(crate) fn advances(s: State, times: u64) -> u64 {
    let mut state = s;
    let mut sum = 0;
    for _ in 0..times {
        let answer = engine::advance(s, BUDGET);
        if let Ok(after) = &answer {
            state = *after;
        }
        sum = turn_mixed(sum, &answer, state.now);
    }
    state_digest(sum, &state)
}

fn source_mixed(sum: u64, source: Source) -> u64 {
    match source {
        Source::Own => sum,
        Source::SpareOf(owner) => mixed(sum, owner as u64),
    }
}

fn next_mixed(sum: u64, next: Portion) -> u64 {
    match next {
        Portion::Run(i, source, deadline, span) => {
            let run = source_mixed(mixed(sum, i as u64), source);
            mixed(mixed(run, deadline), span)
        }
        Portion::Burn(owner, deadline, span) => {
            mixed(mixed(mixed(sum, owner as u64), deadline), span)
        }
        Portion::Nothing => sum,
    }
}

// In turn on the state and on the one after another arrival at the last guest, which differs in that guest alone: on a state that stays as
// it is the compiler could test soundness once for all turns.
pub(crate) fn asks(s: State, last: usize, times: u64) -> u64
    requires { last < guest_places }
{
    let busier = engine::arrive(s, last).unwrap_or(s);
    let mut state = s;
    let mut here = s.guests[last];
    let mut other = busier.guests[last];
    let mut sum = 0;
    for _ in 0..times {
        std::mem::swap(&mut here, &mut other);
        state.guests[last] = here;
        let answer = engine::ask(state);
        let next = answer.unwrap_or(Portion::Nothing);
        sum = turn_mixed(next_mixed(sum, next), &answer, state.now);
    }
    state_digest(sum, &s)
}

// All portions in one call.
pub(crate) fn long_advance(s: State, ticks: u64) -> u64 {
    state_digest(0, &engine::advance(s, ticks).unwrap_or(s))
}

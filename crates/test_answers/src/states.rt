// A request of a state, a guest number and a number of ticks: every call that takes a state, each on that same state.
use crate::STDIN_FILENO;
use crate::put::{put_answer, put_each, put_number, put_numbers, put_state};
use crate::taken::state_in;
use crate::wire::number_at;
use rules::{Activity, LINE_PLACES, Line, Portion, Refusal, Source, State, Use, Walk};

const GUEST: usize = 310;

const TICKS: usize = 311;

// The numbers of such a request, in bytes.
const REQUEST_LENGTH: usize = 2496;

fn put_source(guest: u64, source: Source, buffer: &mut [u8], filled: usize) -> usize {
    match source {
        Source::Own => put_numbers(&[1, guest, 0], buffer, filled),
        Source::SpareOf(owner) => put_numbers(&[2, guest, owner as u64], buffer, filled),
    }
}

fn put_line(line: &Line, buffer: &mut [u8], filled: usize) -> usize {
    let at = put_numbers(&[line.first, line.end], buffer, filled);
    match line.used {
        Use::Run(guest, source) => put_source(guest as u64, source, buffer, at),
        Use::Burn(owner) => put_numbers(&[3, 0, owner as u64], buffer, at),
        Use::Nothing => put_numbers(&[0, 0, 0], buffer, at),
    }
}

// A refused call leaves the state as it was, here and with a walk.
fn put_outcome(
    outcome: Result<State, Refusal>,
    s: &State,
    buffer: &mut [u8],
    filled: usize,
) -> usize {
    let at = put_answer(&outcome, buffer, filled);
    put_state(&outcome.unwrap_or(*s), buffer, at)
}

// What a refused walk shows.
fn no_walk(s: &State) -> Walk {
    let no_line = Line {
        first: 0,
        end: 0,
        used: Use::Nothing,
    };
    Walk {
        state: *s,
        left: 0,
        shown: 0,
        lines: [no_line; LINE_PLACES],
    }
}

fn put_walk(outcome: Result<Walk, Refusal>, s: &State, buffer: &mut [u8], filled: usize) -> usize {
    let at = put_answer(&outcome, buffer, filled);
    let walk = outcome.unwrap_or(no_walk(s));
    let stepped = put_state(&walk.state, buffer, at);
    let told = put_numbers(&[walk.left, walk.shown as u64], buffer, stepped);
    put_each(&walk.lines, put_line, buffer, told)
}

fn put_asked(asked: Result<Portion, Refusal>, buffer: &mut [u8], filled: usize) -> usize {
    let at = put_answer(&asked, buffer, filled);
    match asked.unwrap_or(Portion::Nothing) {
        Portion::Run(guest, source, due, span) => {
            let behind = put_source(guest as u64, source, buffer, at);
            put_numbers(&[due, span], buffer, behind)
        }
        Portion::Burn(owner, due, span) => put_numbers(
            &[3, 0, owner as u64, due, span],
            buffer,
            at,
        ),
        Portion::Nothing => put_numbers(&[0, 0, 0, 0, 0], buffer, at),
    }
}

fn put_activity(told: Result<Activity, Refusal>, buffer: &mut [u8], filled: usize) -> usize {
    let at = put_answer(&told, buffer, filled);
    let nobody = Activity {
        mask: 0,
        actives: 0,
    };
    let activity = told.unwrap_or(nobody);
    put_numbers(
        &[u64::from(activity.mask), u64::from(activity.actives)],
        buffer,
        at,
    )
}

fn put_margin(told: Result<i64, Refusal>, buffer: &mut [u8], filled: usize) -> usize {
    let at = put_answer(&told, buffer, filled);
    put_number(&told.unwrap_or(0).cast_unsigned(), buffer, at)
}

fn put_steps(s: &State, i: usize, buffer: &mut [u8]) -> usize {
    let arrived = put_outcome(engine::arrive(*s, i), s, buffer, 0);
    put_outcome(engine::done(*s, i), s, buffer, arrived)
}

fn put_times(s: &State, k: u64, buffer: &mut [u8], filled: usize) -> usize {
    let advanced = put_outcome(engine::advance(*s, k), s, buffer, filled);
    put_walk(engine::walk(*s, k), s, buffer, advanced)
}

fn put_told(s: &State, i: usize, buffer: &mut [u8], filled: usize) -> usize {
    let asked = put_asked(engine::ask(*s), buffer, filled);
    let active = put_activity(engine::active(*s), buffer, asked);
    put_margin(engine::margin(*s, i), buffer, active)
}

pub(crate) fn answered(buffer: &mut [u8]) -> Option<usize> {
    let mut request = [0u8; REQUEST_LENGTH];
    if io::read_full(STDIN_FILENO, &mut request) < REQUEST_LENGTH {
        return None;
    }
    let state = state_in(&request);
    let guest = number_at(&request, GUEST) as usize;
    let ticks = number_at(&request, TICKS);
    let stepped = put_steps(&state, guest, buffer);
    let passed = put_times(&state, ticks, buffer, stepped);
    Some(put_told(&state, guest, buffer, passed))
}

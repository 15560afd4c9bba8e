// An integrator's loop, as a hypervisor would have it: ask who runs next, run it until its span ends or an event comes, ask again.
#![tactic(auto)]

ghost use Rattle.std.specs.Prelude.{◌+◌, ◌≤◌, ◌<◌, min};
ghost use Rattle.example_loop.specs.Clauses.{WithinSpan, Stops};

use crate::events::{Call, END, Event, event_of};
use crate::guests::four_guests;
use crate::lines::{write_end, write_event, write_refusal, write_stretch};
use rules::{Portion, Refusal, State};

mod events;
mod guests;
mod lines;

// How long to run before asking again: behind the span comes another portion, and an event may change who runs. `event` and `end` are the
// ticks of the next event and of the end.
fn ticks_to_run(next: Portion, clock: u64, event: u64, end: u64) -> u64
    requires within_span { WithinSpan 1 next }
    requires clock_lt_event { (clock < event) × (clock < end) }
    ensures some { 1 ≤ result }
    ensures span { WithinSpan result next }
    ensures event { clock + result ≤ event }
    ensures end { clock + result ≤ end }
    ensures stops { Stops next clock event end result }
{
    let room = event.min(end) - clock;
    match next {
        Portion::Run(_, _, _, span) => span.min(room),
        Portion::Burn(_, _, span) => span.min(room),
        Portion::Nothing => room,
    }
}

fn called(state: State, event: Event) -> Result<State, Refusal> {
    match event.call {
        Call::Arrive => engine::arrive(state, event.guest),
        Call::Done => engine::done(state, event.guest),
    }
}

// A refused call changes nothing, so the loop goes on with the state as it was.
fn after_event(state: State, event: Event) -> State {
    write_event(event);
    match called(state, event) {
        Ok(after) => after,
        Err(refusal) => {
            write_refusal(refusal);
            state
        }
    }
}

// Each turn hands over one event that has come or runs one stretch, so nobody runs while an event waits. The clock is the hypervisor's: the
// library reads none, and is told how many ticks passed.
fn run_guests(fresh: State) -> State {
    let mut state = fresh;
    let mut clock: u64 = 0;
    let mut number: usize = 0;
    while clock < END {
        let event = event_of(number);
        if event.tick <= clock {
            state = after_event(state, event);
            number += 1;
            continue;
        }
        let next = match engine::ask(state) {
            Ok(next) => next,
            Err(refusal) => {
                write_refusal(refusal);
                return state;
            }
        };
        let ticks = ticks_to_run(next, clock, event.tick, END);
        // Here a hypervisor starts the guest, or sleeps where there is none, with its timer set to so many ticks.
        write_stretch(clock, clock + ticks, next);
        state = match engine::advance(state, ticks) {
            Ok(after) => after,
            Err(refusal) => {
                write_refusal(refusal);
                return state;
            }
        };
        clock += ticks;
    }
    state
}

fn main() {
    match engine::fresh(four_guests()) {
        Ok(fresh) => write_end(run_guests(fresh)),
        Err(refusal) => write_refusal(refusal),
    }
}

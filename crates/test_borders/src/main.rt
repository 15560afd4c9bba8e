// Prints what the library answers at the borders that the rules do not prove as rows; the second implementation prints the same.
#![tactic(auto)]

use answer_number::number_of;
use rules::{Entry, GUEST_PLACES, Refusal, State, Table};

// Where output goes to, by its number.
const STDOUT_FILENO: i32 = 1;

// One guest (1, 1,000,000): its deadline grows by a million with each tick that it runs.
fn slow_guest() -> Table {
    let mut entries = [Entry::default(); GUEST_PLACES];
    entries[0] = Entry {
        budget: 1,
        period: 1000000,
    };
    Table {
        frame: 1000000,
        count: 1,
        entries,
    }
}

fn fresh() -> State {
    engine::fresh(slow_guest()).unwrap_or(engine::no_state())
}

fn write_text(words: &[u8]) {
    io::write_all(STDOUT_FILENO, words);
}

fn write_number(n: u64) {
    io::print_decimal(STDOUT_FILENO, n);
}

// A space, and 0 or the refusal number.
fn write_answer<T>(answer: &Result<T, Refusal>) {
    write_text(b" ");
    write_number(u64::from(number_of(answer)));
}

// The state that a call gives, and the one before it where it is refused; its answer is written.
fn told(outcome: Result<State, Refusal>, before: State) -> State {
    write_answer(&outcome);
    outcome.unwrap_or(before)
}

// Arrive, advance, done, arrive: the last one wakes the guest a million ticks behind its deadline.
fn write_late_arrival(ticks: u64) {
    write_number(ticks);
    write_text(b" ticks:");
    let state = fresh();
    let state = told(engine::arrive(state, 0), state);
    let state = told(engine::advance(state, ticks), state);
    let state = told(engine::done(state, 0), state);
    write_answer(&engine::arrive(state, 0));
    write_text(b"\n");
}

fn write_short_image() {
    write_text(b"image of 19 bytes:");
    write_answer(&image::read(&[0u8; 19]));
    write_text(b"\n");
}

// Time has passed and no tally has counted it. The guest's number is refused too, by a greater number.
fn write_unsound_state() {
    let state = State { now: 1, ..fresh() };
    write_text(b"guest 16, state not sound:");
    write_answer(&engine::arrive(state, GUEST_PLACES));
    write_text(b"\n");
}

fn main() {
    write_late_arrival(17592185);
    write_late_arrival(17592186);
    write_short_image();
    write_unsound_state();
}

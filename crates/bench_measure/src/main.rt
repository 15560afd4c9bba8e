// Makes one call of the engine so many times on a prepared state, and writes a checksum of what came of it: what bench/ measures.
#![tactic(auto)]

use crate::input::{Call, Job, job_of};
use crate::repeat::{advances, arrivals, asks, completions, long_advance, no_calls};
use crate::setting::{last_guest, prepared};

mod digest;
mod input;
mod repeat;
mod setting;

fn checksum_of(job: Job) -> u64 {
    let last = last_guest(job.guests);
    let s = prepared(job.call, last, job.spares);
    match job.call {
        Call::Arrive => arrivals(s, last, job.times),
        Call::Done => completions(s, last, job.times),
        Call::Ask => asks(s, last, job.times),
        Call::Advance => advances(s, job.times),
        Call::LongAdvance => long_advance(s, job.times),
        Call::Nothing => no_calls(s, job.times),
    }
}

fn main() {
    let mut line = io::buffer();
    let n = io::read_full(0, &mut line);
    let job = job_of(&line[..n]);
    io::print_decimal(1, checksum_of(job));
    io::write_all(1, &[b'\n']);
}

// A number that depends on every number of a state.
use rules::{Guest, Spare, State};

pub(crate) fn mixed(sum: u64, x: u64) -> u64 {
    sum.wrapping_add(sum).wrapping_add(x) ^ (sum >> 7)
}

fn all_mixed(sum: u64, numbers: &[u64]) -> u64 {
    numbers.iter().fold(sum, |sum, x| mixed(sum, *x))
}

fn guest_mixed(sum: u64, g: &Guest) -> u64 {
    all_mixed(sum, &[g.jobs, g.current, g.deadline, g.own, g.borrowed])
}

fn spare_mixed(sum: u64, x: &Spare) -> u64 {
    all_mixed(sum, &[x.deadline, x.owner as u64, x.capacity])
}

pub(crate) fn state_digest(sum: u64, s: &State) -> u64 {
    let head = all_mixed(sum, &[s.now, s.listed as u64, s.burned, s.empty]);
    let guests = s.guests.iter().fold(head, guest_mixed);
    s.spares.iter().fold(guests, spare_mixed)
}

// Numbers, tables, states and bytes, each put into a lent buffer behind what it holds. What has no room is left out.
use answer_number::number_of;
use rules::{Entry, Guest, Refusal, Spare, State, Table};

// One behind the other.
pub(crate) fn put_each<T, P: Fn(&T, &mut [u8], usize) -> usize>(
    elements: &[T],
    put: P,
    buffer: &mut [u8],
    filled: usize,
) -> usize
    requires { P.IsAlwaysCallable put }
{
    let mut at = filled;
    for x in elements {
        at = put(x, buffer, at);
    }
    at
}

fn put_byte(x: &u8, buffer: &mut [u8], filled: usize) -> usize {
    if buffer.len() <= filled {
        return filled;
    }
    buffer[filled] = *x;
    filled + 1
}

pub(crate) fn put_number(x: &u64, buffer: &mut [u8], filled: usize) -> usize {
    put_each(&x.to_le_bytes(), put_byte, buffer, filled)
}

// How many there are, and the bytes.
pub(crate) fn put_bytes(bytes: &[u8], buffer: &mut [u8], filled: usize) -> usize {
    let at = put_number(&(bytes.len() as u64), buffer, filled);
    put_each(bytes, put_byte, buffer, at)
}

pub(crate) fn put_numbers(numbers: &[u64], buffer: &mut [u8], filled: usize) -> usize {
    put_each(numbers, put_number, buffer, filled)
}

// 0, or the refusal number.
pub(crate) fn put_answer<T>(
    answer: &Result<T, Refusal>,
    buffer: &mut [u8],
    filled: usize,
) -> usize {
    put_number(&u64::from(number_of(answer)), buffer, filled)
}

fn put_entry(e: &Entry, buffer: &mut [u8], filled: usize) -> usize {
    put_numbers(&[e.budget, e.period], buffer, filled)
}

pub(crate) fn put_table(t: &Table, buffer: &mut [u8], filled: usize) -> usize {
    let at = put_numbers(&[t.frame, t.count as u64], buffer, filled);
    put_each(&t.entries, put_entry, buffer, at)
}

fn put_guest(g: &Guest, buffer: &mut [u8], filled: usize) -> usize {
    put_numbers(
        &[g.jobs, g.current, g.deadline, g.own, g.borrowed],
        buffer,
        filled,
    )
}

fn put_spare(x: &Spare, buffer: &mut [u8], filled: usize) -> usize {
    put_numbers(&[x.deadline, x.owner as u64, x.capacity], buffer, filled)
}

pub(crate) fn put_state(s: &State, buffer: &mut [u8], filled: usize) -> usize {
    let table = put_table(&s.table, buffer, filled);
    let guests = put_each(&s.guests, put_guest, buffer, table);
    let spares = put_each(&s.spares, put_spare, buffer, guests);
    put_numbers(&[s.now, s.listed as u64, s.burned, s.empty], buffer, spares)
}

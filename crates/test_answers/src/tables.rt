// A request of a table and a buffer: the table's check, its fresh state, and its image written into the buffer.
use crate::STDIN_FILENO;
use crate::put::{put_answer, put_bytes, put_state};
use crate::taken::table_in;
use crate::wire::number_at;
use rules::Table;

const BUFFER_LENGTH: usize = 34;

const FILL: usize = 35;

// The numbers of such a request, in bytes.
const REQUEST_LENGTH: usize = 288;

const BUFFER_PLACES: usize = 200;

fn put_all(t: Table, borrowed: &mut [u8], buffer: &mut [u8]) -> usize {
    let checked = put_answer(&table::check(t), buffer, 0);
    let made = engine::fresh(t);
    let told = put_answer(&made, buffer, checked);
    let started = put_state(&made.unwrap_or(engine::no_state()), buffer, told);
    let written = put_answer(&image::write(t, borrowed), buffer, started);
    put_bytes(borrowed, buffer, written)
}

pub(crate) fn answered(buffer: &mut [u8]) -> Option<usize> {
    let mut request = [0u8; REQUEST_LENGTH];
    if io::read_full(STDIN_FILENO, &mut request) < REQUEST_LENGTH {
        return None;
    }
    let length = number_at(&request, BUFFER_LENGTH);
    if (BUFFER_PLACES as u64) < length {
        return None;
    }
    let fill = (number_at(&request, FILL) % 256) as u8;
    let mut borrowed = [fill; BUFFER_PLACES];
    Some(put_all(table_in(&request), &mut borrowed[..length as usize], buffer))
}

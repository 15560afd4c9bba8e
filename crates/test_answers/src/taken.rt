// The table and the state that a request's numbers make, whatever they are.
ghost use Rattle.std.specs.Prelude.{◌<◌};

use crate::wire::number_at;
use rules::{Entry, Guest, Spare, State, Table};
use std::array;

// Where the parts of a state begin, in numbers.
const ENTRIES: usize = 2;

const GUESTS: usize = 34;

const SPARES: usize = 114;

const NOW: usize = 306;

const LISTED: usize = 307;

const BURNED: usize = 308;

const EMPTY: usize = 309;

fn entry_at(bytes: &[u8], place: usize) -> Entry
    requires { place < 900 }
{
    Entry {
        budget: number_at(bytes, place),
        period: number_at(bytes, place + 1),
    }
}

pub(crate) fn table_in(bytes: &[u8]) -> Table {
    Table {
        frame: number_at(bytes, 0),
        count: number_at(bytes, 1) as usize,
        entries: array::from_fn(|i| entry_at(bytes, ENTRIES + 2 * i)),
    }
}

fn guest_at(bytes: &[u8], place: usize) -> Guest
    requires { place < 900 }
{
    Guest {
        jobs: number_at(bytes, place),
        current: number_at(bytes, place + 1),
        deadline: number_at(bytes, place + 2),
        own: number_at(bytes, place + 3),
        borrowed: number_at(bytes, place + 4),
    }
}

fn spare_at(bytes: &[u8], place: usize) -> Spare
    requires { place < 900 }
{
    Spare {
        deadline: number_at(bytes, place),
        owner: number_at(bytes, place + 1) as usize,
        capacity: number_at(bytes, place + 2),
    }
}

pub(crate) fn state_in(bytes: &[u8]) -> State {
    State {
        table: table_in(bytes),
        now: number_at(bytes, NOW),
        guests: array::from_fn(|i| guest_at(bytes, GUESTS + 5 * i)),
        listed: number_at(bytes, LISTED) as usize,
        spares: array::from_fn(|i| spare_at(bytes, SPARES + 3 * i)),
        burned: number_at(bytes, BURNED),
        empty: number_at(bytes, EMPTY),
    }
}

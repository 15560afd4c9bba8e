// A table's image, written to a buffer.
#![tactic(auto)]

ghost use Rattle.rules.specs.Calls.{TableWritten};

use crate::store::{store_entries, store_trailer};
use rules::{Refusal, Table};

mod store;

// 8n + 12 bytes at the front of the buffer; a refusal changes no byte.
pub fn write(t: Table, buffer: &mut [u8]) -> Result<(), Refusal>
    ensures { TableWritten t buffer.old result buffer.new }
{
    table::check(t)?;
    if buffer.len() < 8 * t.count + 12 {
        return Err(Refusal::BufferShort);
    }
    store_entries(&t.entries[..t.count], buffer);
    store_trailer(buffer, 8 * t.count, t.frame, t.count as u64);
    Ok(())
}

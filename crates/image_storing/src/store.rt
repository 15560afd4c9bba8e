// Little-endian numbers, entries and a trailer stored in a lent buffer.
ghost use Rattle.std.specs.Prelude.{◌≡◌, ◌++◌, ◌+◌, ◌*◌, ◌≤◌, length};
ghost use Rattle.std.proofs.lemmas.List.Edits.{sets};
ghost use Rattle.rules.specs.Image.{bytes_of, entries_image, trailer_image};

use rules::Entry;

// A number in `width` bytes, the low one first; what is above them is cut off.
fn store_number(buffer: &mut [u8], at: usize, width: usize, x: u64)
    requires { (width ≤ 8) × (at + width ≤ length buffer.old) }
    ensures { buffer.new ≡ sets buffer.old at (bytes_of width x) }
{
    buffer[at..at + width].copy_from_slice(&x.to_le_bytes()[..width]);
}

// An entry's Q and T, or a trailer's H and offset.
fn store_words(buffer: &mut [u8], at: usize, x: u64, y: u64)
    requires { at + 8 ≤ length buffer.old }
    ensures { buffer.new ≡ sets buffer.old at (bytes_of 4 x ++ bytes_of 4 y) }
{
    store_number(buffer, at, 4, x);
    store_number(buffer, at + 4, 4, y);
}

// H, offset 0, n and edition 1.
pub(crate) fn store_trailer(buffer: &mut [u8], at: usize, frame: u64, count: u64)
    requires { at + 12 ≤ length buffer.old }
    ensures { buffer.new ≡ sets buffer.old at (trailer_image frame count) }
{
    store_words(buffer, at, frame, 0);
    store_number(buffer, at + 8, 2, count);
    store_number(buffer, at + 10, 2, 1);
}

pub(crate) fn store_entries(entries: &[Entry], buffer: &mut [u8])
    requires { 8 * length entries.now ≤ length buffer.old }
    ensures { buffer.new ≡ sets buffer.old 0 (entries_image entries.now) }
{
    for (i, e) in entries.iter().enumerate() {
        store_words(buffer, 8 * i, e.budget, e.period);
    }
}

// Table images: read, and their entries handed on.
#![tactic(auto)]

ghost use Rattle.std.specs.Prelude.{◌≡◌, ◌+◌, ◌*◌, ◌≤◌, length, drop};
ghost use Rattle.laws.specs.Lists.{padded};
ghost use Rattle.rules.specs.Limits.{guest_places};
ghost use Rattle.rules.specs.Table.{no_entry};
ghost use Rattle.rules.specs.Image.{entry_in, entries_in, table_in};
ghost use Rattle.rules.specs.Calls.{TableRead};
ghost use Rattle.image_loading.specs.Clauses.{EntriesPart};
ghost use Rattle.image_loading.specs.Inner.{Whole};

use image_reader::{Trailer, read_entry, read_trailer};
use rules::{Entry, GUEST_PLACES, LONGEST_IMAGE, Refusal, SHORTEST_IMAGE, Table};

// The entry at a place of the part, read by moving a reader from its Q to its T.
fn entry_at(part: &[u8], at: usize) -> Entry
    requires { at + 8 ≤ length part.now }
    ensures { result ≡ entry_in (drop at part.now) }
{
    let pair = read_entry(part, at);
    Entry {
        budget: pair.budget as u64,
        period: pair.period as u64,
    }
}

// The entries of the part that is handed on, and zeros behind them.
fn entries_of(part: &[u8], count: usize) -> [Entry; GUEST_PLACES]
    requires { (count ≤ guest_places) × (8 * count ≤ length part.now) }
    ensures { result ≡ padded guest_places no_entry (entries_in count part.now) }
{
    let mut entries = [Entry::default(); GUEST_PLACES];
    for i in 0..count {
        entries[i] = entry_at(part, 8 * i);
    }
    entries
}

// The table of an image whose trailer points at its entries: they are handed on as the part between the offset and the trailer.
fn loaded(image: &[u8], t: Trailer) -> Table
    requires { Whole image.now t }
    ensures { result ≡ table_in image.now }
{
    Table {
        frame: t.frame as u64,
        count: t.count,
        entries: entries_of(&image[t.offset..image.len() - 12], t.count),
    }
}

// Any bytes, none too.
pub fn read(image: &[u8]) -> Result<Table, Refusal>
    ensures { TableRead image.now result }
{
    if image.len() < SHORTEST_IMAGE || LONGEST_IMAGE < image.len() {
        return Err(Refusal::ImageLength);
    }
    let t = read_trailer(image);
    if t.edition != 1 {
        return Err(Refusal::UnknownEdition);
    }
    if t.count == 0 || GUEST_PLACES < t.count {
        return Err(Refusal::GuestCount);
    }
    if t.offset + 8 * t.count + 12 != image.len() {
        return Err(Refusal::WrongOffset);
    }
    let table = loaded(image, t);
    table::check(table)?;
    Ok(table)
}

// The entries, between the offset and the trailer of the caller's own image; the empty part at the front where it is refused.
pub fn entries(image: &[u8]) -> &[u8]
    ensures { EntriesPart image.entry result }
{
    if read(image).is_err() {
        return &image[0..0];
    }
    let t = read_trailer(image);
    &image[t.offset..image.len() - 12]
}

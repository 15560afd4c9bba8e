// Little-endian numbers of a slice of bytes.
ghost use Rattle.image_reader.specs.Clauses.{NumberRead};

// The number in 2 bytes at a place, or 0 where they run past the end.
pub(crate) fn half_at(bytes: &[u8], at: usize) -> usize
    ensures { NumberRead 2 bytes.now at result }
{
    let &[a, b, ..] = &bytes[at.min(bytes.len())..] else {
        return 0;
    };
    usize::from(u16::from_le_bytes([a, b]))
}

// The parts of a line, each put at a place of the buffer that has room for the longest.
ghost use Rattle.std.specs.Prelude.{◌≡◌, ◌+◌, ◌≤◌, length};
ghost use Rattle.program_text.specs.Decimal.{digit_count, decimal};
ghost use Rattle.program_text.specs.Lines.{dash, spaced, closed, source_bytes, used_bytes};
ghost use Rattle.program_lines.specs.Inner.{PartPut};

use rules::{Source, Use};

fn digit_count(n: u64) -> usize
    ensures { (result ≡ digit_count n) × (result ≤ 20) }
{
    n.max(1).ilog10() as usize + 1
}

// From the last digit to the first.
pub(crate) fn put_number(n: u64, buffer: &mut [u8], at: usize) -> usize
    requires { at + 20 ≤ length buffer.old }
    ensures { PartPut (decimal n) 20 buffer.old at buffer.new result }
{
    let end = at + digit_count(n);
    let mut rest = n;
    for i in (at..end).rev() {
        buffer[i] = b'0' + (rest % 10) as u8;
        rest /= 10;
    }
    end
}

pub(crate) fn put_spaced(n: u64, buffer: &mut [u8], at: usize) -> usize
    requires { at + 21 ≤ length buffer.old }
    ensures { PartPut (spaced n) 21 buffer.old at buffer.new result }
{
    buffer[at] = b' ';
    put_number(n, buffer, at + 1)
}

fn put_dash(buffer: &mut [u8], at: usize) -> usize
    requires { at + 2 ≤ length buffer.old }
    ensures { PartPut dash 2 buffer.old at buffer.new result }
{
    buffer[at] = b' ';
    buffer[at + 1] = b'-';
    at + 2
}

// One byte more behind it: an owner's letter, or the line feed.
pub(crate) fn put_closed(n: u64, last: u8, buffer: &mut [u8], at: usize) -> usize
    requires { at + 22 ≤ length buffer.old }
    ensures { PartPut (closed n last) 22 buffer.old at buffer.new result }
{
    let behind = put_spaced(n, buffer, at);
    buffer[behind] = last;
    behind + 1
}

// Behind a running guest: whose capacity it uses, itself or the spare's owner.
fn put_source(guest: usize, source: Source, buffer: &mut [u8], at: usize) -> usize
    requires { at + 22 ≤ length buffer.old }
    ensures { PartPut (source_bytes guest source) 22 buffer.old at buffer.new result }
{
    match source {
        Source::Own => put_closed(guest as u64, b'o', buffer, at),
        Source::SpareOf(owner) => put_closed(owner as u64, b's', buffer, at),
    }
}

pub(crate) fn put_used(used: Use, buffer: &mut [u8], at: usize) -> usize
    requires { at + 43 ≤ length buffer.old }
    ensures { PartPut (used_bytes used) 43 buffer.old at buffer.new result }
{
    match used {
        Use::Run(i, source) => {
            let behind = put_spaced(i as u64, buffer, at);
            put_source(i, source, buffer, behind)
        }
        Use::Burn(owner) => {
            let behind = put_dash(buffer, at);
            put_closed(owner as u64, b's', buffer, behind)
        }
        Use::Nothing => {
            let behind = put_dash(buffer, at);
            put_dash(buffer, behind)
        }
    }
}

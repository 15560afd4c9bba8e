// The line that comes next in the input.
ghost use Rattle.std.specs.Prelude.{◌≡◌};
ghost use Rattle.program_listing.specs.Turning.{line_length, line_at, behind};

use program_text::Line;

// What the line asks for, and the place behind it.
#[derive(Clone, Copy)]
pub(crate) struct Next {
    pub(crate) line: Line,
    pub(crate) end: usize,
}

// How many bytes the first line has, its line feed with it.
fn line_length(rest: &[u8]) -> usize
    ensures { result ≡ line_length rest.now }
{
    match rest.iter().position(|b| *b == b'\n') {
        Some(feed) => feed + 1,
        None => rest.len(),
    }
}

// At the end of the input there is no line, and an empty one is malformed.
pub(crate) fn next_line(input: &[u8], at: usize) -> Next
    ensures { (result.line ≡ line_at input.now at) × (result.end ≡ behind input.now at) }
{
    let Some(rest) = input.get(at..) else {
        return Next {
            line: Line::Malformed,
            end: at,
        };
    };
    let length = line_length(rest);
    Next {
        line: program_script::line_of(&rest[..length]),
        end: at + length,
    }
}

// One line of the program's input: its letter and its numbers, or malformed.
#![tactic(auto)]

ghost use Rattle.std.specs.Prelude.{true, ◌≡◌, ◌+◌, ◌-◌, ◌*◌, ◌≤◌, ◌<◌, length, slice_index, EachIndex};
ghost use Rattle.std.specs.List.{take_while};
ghost use Rattle.laws.specs.Digits.{value_in};
ghost use Rattle.program_text.specs.Numbers.{is_digit, digits_in, most_digits, well_formed, number_at};
ghost use Rattle.program_text.specs.Script.{ends, last_at, guest_line, line_with, one_line, LineTold};
ghost use Rattle.program_script.specs.Inner.{got_in};

use program_text::{Call, Line};

// A number that was read, and what is behind it.
#[derive(Clone, Copy)]
struct Number<'a> {
    value: u64,
    rest: &'a [u8],
}

// "a number has 1 to 13 digits"
const MOST_DIGITS: usize = 13;

fn is_digit(b: u8) -> bool
    ensures { result ≡ is_digit b }
{
    matches!(b, b'0'..=b'9')
}

// How many digits stand at the front.
fn front_digits(bytes: &[u8]) -> usize
    ensures { result ≡ length (take_while is_digit bytes.now) }
{
    bytes.iter().take_while(|b| is_digit(**b)).count()
}

// Not so many digits that the value could wrap: a loop, whose invariant says so; a fold would have it in a clause of its own, which is no plainer.
fn value_of(digits: &[u8]) -> u64
    requires few { length digits.now ≤ most_digits }
    requires all { EachIndex digits.now (λ k. is_digit (slice_index digits.now k) ≡ true) }
    ensures { result ≡ value_in 0 digits.now }
{
    let mut value: u64 = 0;
    for b in digits {
        value = value * 10 + u64::from(*b - b'0');
    }
    value
}

// "1 to 13 digits and no leading zero unless it is 0", of so many digits at the front.
#[tactic(auto, using(crate::proofs::Digits::digits_within), unfolding(program_text::specs::Numbers::well_formed))]
fn well_formed(bytes: &[u8], digits: usize) -> bool
    requires { digits ≡ digits_in bytes.now }
    ensures { result ≡ well_formed bytes.now }
{
    1 <= digits && digits <= MOST_DIGITS && (digits == 1 || bytes[0] != b'0')
}

// The number behind one space.
#[tactic(auto, unfolding(program_text::specs::Numbers::number_at))]
fn number_at(line: &[u8]) -> Option<Number<'_>>
    ensures { got_in result ≡ number_at line.now }
{
    let Some((b' ', bytes)) = line.split_first() else {
        return None;
    };
    let digits = front_digits(bytes);
    if !well_formed(bytes, digits) {
        return None;
    }
    let (number, rest) = bytes.split_at(digits);
    Some(Number {
        value: value_of(number),
        rest,
    })
}

// The line feed, and nothing behind it.
fn ends(rest: &[u8]) -> bool
    ensures { result ≡ ends rest.now }
{
    matches!(rest, [b'\n'])
}

// The number that ends its line.
#[tactic(auto, unfolding(program_text::specs::Script::last_at))]
fn last_at(line: &[u8]) -> Option<Number<'_>>
    ensures { got_in result ≡ last_at line.now }
{
    number_at(line).filter(|n| ends(n.rest))
}

#[tactic(auto, unfolding(program_text::specs::Script::guest_line))]
fn guest_line(numbers: &[u8]) -> Line
    ensures { result ≡ guest_line (number_at numbers.now) }
{
    let Some(budget) = number_at(numbers) else {
        return Line::Malformed;
    };
    let Some(period) = last_at(budget.rest) else {
        return Line::Malformed;
    };
    Line::Guest(budget.value, period.value)
}

fn line_with(letter: u8, value: u64) -> Line
    ensures { result ≡ line_with letter value }
{
    match letter {
        b'F' => Line::Frame(value),
        b'A' => Line::Command(Call::Arrive(value)),
        b'D' => Line::Command(Call::Done(value)),
        b'R' => Line::Command(Call::Advance(value)),
        _ => Line::Malformed,
    }
}

fn one_line(letter: u8, numbers: &[u8]) -> Line
    ensures { result ≡ one_line letter (last_at numbers.now) }
{
    match last_at(numbers) {
        Some(n) => line_with(letter, n.value),
        None => Line::Malformed,
    }
}

// A line with its line feed; any bytes. `G` has two numbers, and every other letter one.
#[tactic(auto, unfolding(program_text::specs::Script::line_of))]
pub fn line_of(line: &[u8]) -> Line
    ensures { LineTold line.now result }
{
    match line {
        [b'G', numbers @ ..] => guest_line(numbers),
        [letter, numbers @ ..] => one_line(*letter, numbers),
        [] => Line::Malformed,
    }
}

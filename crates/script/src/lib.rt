// The text of a score's fields, read back: decimal numbers, the end of a line, the field of a line.
#![tactic(auto)]

ghost use Rattle.std.specs.Prelude.{◌≡◌, ◌↔◌, IsTrue, get_or};
ghost use Rattle.listing.specs.FieldText.{field_text};
ghost use Rattle.script.specs.Numbers.{digit, number_at};
ghost use Rattle.script.specs.Lines.{line_end, number_after, write_in, read_in, bare_in, meant, Reads};

use listing::TEXT;
use refusals::Refused;
use score::{Field, What};

// A number in a text, and the place after it.
#[derive(Clone, Copy, Debug, PartialEq, Eq)]
pub struct Number {
    pub value: u32,
    pub next: usize,
}

// What the digit at a place is worth, where one stands.
fn digit_at(s: &[u8], at: usize) -> Option<u64>
    ensures { result ≡ digit (get_or s.now at 0) }
{
    match s.get(at) {
        Some(b @ b'0'..=b'9') => Some((*b - b'0') as u64),
        _ => None,
    }
}

// A decimal number of at most `limit`, with no sign and no leading zero, and with no digit after it.
pub fn number_at(s: &[u8], at: usize, limit: u32) -> Option<Number>
    ensures { result ≡ number_at limit s.now at }
{
    let mut value = digit_at(s, at)?;
    let mut next = at + 1;
    // a `while`: what ends it is the value, or the byte at `next`
    while value <= limit as u64 {
        let Some(digit) = digit_at(s, next) else {
            return Some(Number {
                value: value as u32,
                next,
            });
        };
        if value == 0 {
            return None;
        }
        value = 10 * value + digit;
        next += 1;
    }
    None
}

// The place of the first line feed at or after a place; the text's length where none is.
#[tactic(auto, unfolding(crate::specs::Lines::line_end))]
pub fn line_end(text: &[u8], at: usize) -> usize
    ensures { result ≡ line_end text.now at }
{
    if text.len() <= at {
        return text.len();
    }
    match text[at..].iter().position(|b| *b == b'\n') {
        Some(i) => at + i,
        None => text.len(),
    }
}

// The number after the one byte at a place, which in a field's line is a space.
#[tactic(auto, unfolding(crate::specs::Lines::number_after))]
fn number_after(line: &[u8], at: usize, limit: u32) -> Option<Number>
    ensures { result ≡ number_after limit line.now at }
{
    if at < line.len() {
        number_at(line, at + 1, limit)
    } else {
        None
    }
}

#[tactic(auto, unfolding(crate::specs::Lines::write_in))]
fn write_in(line: &[u8]) -> Option<Field>
    ensures { result ≡ write_in line.now }
{
    let stamp = number_after(line, 5, u32::MAX)?;
    let address = number_after(line, stamp.next, 255)?;
    let value = number_after(line, address.next, 255)?;
    Some(Field {
        stamp: stamp.value,
        what: What::Write {
            address: address.value as u8,
            value: value.value as u8,
        },
    })
}

#[tactic(auto, unfolding(crate::specs::Lines::read_in))]
fn read_in(line: &[u8]) -> Option<Field>
    ensures { result ≡ read_in line.now }
{
    let stamp = number_after(line, 4, u32::MAX)?;
    let address = number_after(line, stamp.next, 255)?;
    Some(Field {
        stamp: stamp.value,
        what: What::Read {
            address: address.value as u8,
        },
    })
}

// A field that has a stamp alone, after a word of so many letters.
#[tactic(auto, unfolding(crate::specs::Lines::bare_in))]
fn bare_in(line: &[u8], letters: usize, what: What) -> Option<Field>
    ensures { result ≡ bare_in line.now letters what }
{
    let stamp = number_after(line, letters, u32::MAX)?;
    Some(Field {
        stamp: stamp.value,
        what,
    })
}

// The one field whose line this may be: nothing is checked but the third letter, in which all words differ, and that
// the numbers are there.
#[tactic(auto, unfolding(crate::specs::Lines::meant))]
fn meant(line: &[u8]) -> Option<Field>
    ensures { result ≡ meant line.now }
{
    match line.get(2) {
        Some(b'i') => write_in(line),
        Some(b'a') => read_in(line),
        Some(b'v') => bare_in(line, 6, What::Levels),
        Some(b't') => bare_in(line, 5, What::Watch),
        _ => bare_in(line, 3, What::End),
    }
}

fn is_text(line: &[u8], f: Field) -> bool
    ensures { IsTrue result ↔ line.now ≡ field_text f }
{
    let mut text = [0u8; TEXT];
    let n = listing::field_line(&mut text, f);
    line == &text[..n - 1]
}

// The field whose line a line is, which is given without its line feed. The field that it can mean is put as text, and
// the text compared with the line: so no other way to write a number, a word or a space is taken.
pub fn field_of(line: &[u8]) -> Option<Field>
    ensures { Reads line.now result }
{
    let f = meant(line)?;
    if is_text(line, f) { Some(f) } else { None }
}

// A refusal's line alone, for a program that prints no listing. By `io`: the signature has no handle to print with.
pub fn print_refused(to: i32, r: Refused)
    ensures { result ≡ tt }
{
    let mut line = [0u8; TEXT];
    let n = listing::refused_line(&mut line, r);
    io::write_all(to, &line[..n]);
}

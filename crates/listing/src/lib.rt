// The lines that `replay` prints (document 01, 'Score and program'), and those of a score's fields, each put at the
// start of a lent buffer of `TEXT` bytes.
#![tactic(auto)]

ghost use Rattle.std.specs.Prelude.{◌≡◌, ◌+◌, ◌≤◌, ◌<◌, length, map};
ghost use Rattle.std.specs.List.{All};
ghost use Rattle.refusals.specs.Refusals.{told};
ghost use Rattle.listing.specs.Text.{Put, fits, copied, one, decimal, hex_digit, opening, spaced, voice, text_room, fade_room, line_room, read_line, levels_line, end_line, fade_line, refused_line};
ghost use Rattle.listing.specs.FieldText.{spaced_number, word_of, operands, field_line};
ghost use Rattle.listing.specs.Pens.{HasRoom, Puts};

use refusals::Refused;
use score::{Field, What};

// Room for what a step prints: a line, after lines of bits that fade.
pub const TEXT: usize = 512;

#[tactic(auto, unfolding(crate::specs::Text::hex_digit))]
fn hex_digit(d: u8) -> u8
    requires { d < 16 }
    ensures { result ≡ hex_digit d }
{
    if d < 10 { b'0' + d } else { b'a' + (d - 10) }
}

#[tactic(auto, unfolding(crate::specs::FieldText::word_of))]
fn word(what: What) -> &'static [u8]
    ensures word { result.now ≡ word_of what }
    ensures six { length result.now ≤ 6 }
{
    match what {
        What::Write { .. } => b"write",
        What::Read { .. } => b"read",
        What::Levels => b"levels",
        What::Watch => b"watch",
        What::End => b"end",
    }
}

// A lent buffer, and the place in it that is reached.
#[derive(Drop)]
struct Pen<'a> {
    out: &'a mut [u8],
    at: usize,
}

impl<'a> Pen<'a> {
    fn byte(&mut self, b: u8)
        requires { HasRoom self.old 1 }
        ensures { Puts self.old (one b) 1 self.new }
    {
        self.out[self.at] = b;
        self.at += 1;
    }

    #[tactic(auto, using(crate::proofs::Joins::put_part))]
    fn bytes(&mut self, w: &[u8])
        requires { HasRoom self.old (length w.now) }
        ensures { Puts self.old w.now (length w.now) self.new }
    {
        let end = self.at + w.len();
        self.out[self.at..end].copy_from_slice(w);
        self.at = end;
    }

    fn decimal(&mut self, n: usize)
        requires { HasRoom self.old (length (decimal n)) }
        ensures { Puts self.old (decimal n) (length (decimal n)) self.new }
    {
        if 10 <= n {
            self.decimal(n / 10);
        }
        self.byte(b'0' + (n % 10) as u8);
    }

    // `decimal` for a caller that has room for any number.
    #[tactic(auto, using(crate::proofs::Joins::puts_wider, crate::proofs::Joins::decimal_twenty))]
    fn number(&mut self, n: usize)
        requires { HasRoom self.old 20 }
        ensures { Puts self.old (decimal n) 20 self.new }
    {
        self.decimal(n);
    }

    fn hex(&mut self, digits: &[u8])
        requires room { HasRoom self.old (length digits.now) }
        requires below { All (λ d. d < 16) digits.now }
        ensures { Puts self.old (map hex_digit digits.now) (length digits.now) self.new }
    {
        for d in digits {
            self.byte(hex_digit(*d));
        }
    }

    #[tactic(auto, using(crate::proofs::Joins::puts_then), unfolding(crate::specs::Text::opening, crate::specs::FieldText::spaced_number))]
    fn opening(&mut self, letter: u8, stamp: u32)
        requires { HasRoom self.old 22 }
        ensures { Puts self.old (opening letter stamp) 22 self.new }
    {
        self.byte(letter);
        self.spaced_number(stamp as usize);
    }

    #[tactic(auto, using(crate::proofs::Joins::puts_then), unfolding(crate::specs::Text::spaced, crate::specs::Text::hex2))]
    fn spaced(&mut self, b: u8)
        requires { HasRoom self.old 3 }
        ensures { Puts self.old (spaced b) 3 self.new }
    {
        self.byte(b' ');
        self.hex(&[b / 16, b % 16]);
    }

    #[tactic(auto, using(crate::proofs::Joins::puts_then), unfolding(crate::specs::Text::voice, crate::specs::Text::hex3))]
    fn voice(&mut self, code: u16, level: u8)
        requires { HasRoom self.old 7 }
        ensures { Puts self.old (voice code level) 7 self.new }
    {
        self.byte(b' ');
        self.hex(&[
            (code / 256 % 16) as u8,
            (code / 16 % 16) as u8,
            (code % 16) as u8,
        ]);
        self.spaced(level);
    }

    // `number` after a space.
    #[tactic(auto, using(crate::proofs::Joins::puts_then), unfolding(crate::specs::FieldText::spaced_number))]
    fn spaced_number(&mut self, n: usize)
        requires { HasRoom self.old 21 }
        ensures { Puts self.old (spaced_number n) 21 self.new }
    {
        self.byte(b' ');
        self.number(n);
    }

    // What follows a field's stamp.
    fn operands(&mut self, what: What)
        requires { HasRoom self.old 42 }
        ensures { Puts self.old (operands what) 42 self.new }
    {
        match what {
            What::Write { address, value } => {
                self.spaced_number(address as usize);
                self.spaced_number(value as usize);
            }
            What::Read { address } => self.spaced_number(address as usize),
            What::Levels | What::Watch | What::End => {}
        }
    }
}

// Bytes into a larger buffer, a finished line for instance; false, and the buffer as it was, where there is no room.
pub fn copy_into(out: &mut [u8], at: usize, w: &[u8]) -> bool
    ensures { (result ≡ fits out.old at w.now) × (out.new ≡ copied out.old at w.now) }
{
    if out.len() < at || out.len() - at < w.len() {
        return false;
    }
    out[at..at + w.len()].copy_from_slice(w);
    true
}

// Each line takes the lent buffer and gives its length back: `Put` of them is what callers are promised.
pub fn read_line(out: &mut [u8; TEXT], stamp: u32, address: u8, value: u8) -> usize
    ensures { Put out.old 0 (read_line stamp address value) result out.new × (result ≤ line_room) }
{
    let mut pen = Pen { out, at: 0 };
    pen.opening(b'R', stamp);
    pen.spaced(address);
    pen.spaced(value);
    pen.byte(b'\n');
    pen.at
}

// Six numbers of three voices: so `levels_line` of the specs names them, which `Shows` of the player rests on.
pub fn levels_line(
    out: &mut [u8; TEXT],
    stamp: u32,
    code_0: u16,
    level_0: u8,
    code_1: u16,
    level_1: u8,
    code_2: u16,
    level_2: u8,
) -> usize
    ensures { Put out.old 0 (levels_line stamp code_0 level_0 code_1 level_1 code_2 level_2) result out.new × (result ≤ line_room) }
{
    let mut pen = Pen { out, at: 0 };
    pen.opening(b'L', stamp);
    pen.voice(code_0, level_0);
    pen.voice(code_1, level_1);
    pen.voice(code_2, level_2);
    pen.byte(b'\n');
    pen.at
}

pub fn end_line(out: &mut [u8; TEXT], clocks: u32) -> usize
    ensures { Put out.old 0 (end_line clocks) result out.new × (result ≤ line_room) }
{
    let mut pen = Pen { out, at: 0 };
    pen.opening(b'E', clocks);
    pen.byte(b'\n');
    pen.at
}

pub fn fade_line(out: &mut [u8; TEXT], clock: u32, bits: u8) -> usize
    ensures { Put out.old 0 (fade_line clock bits) result out.new × (result ≤ fade_room) }
{
    let mut pen = Pen { out, at: 0 };
    pen.opening(b'F', clock);
    pen.spaced(bits);
    pen.byte(b'\n');
    pen.at
}

pub fn refused_line(out: &mut [u8; TEXT], r: Refused) -> usize
    ensures { Put out.old 0 (refused_line (told r)) result out.new × (result ≤ line_room) }
{
    let mut pen = Pen { out, at: 0 };
    pen.bytes(b"refused ");
    pen.number(u8::from(r.why) as usize);
    pen.bytes(b" at ");
    pen.number(r.place);
    pen.byte(b'\n');
    pen.at
}

pub fn field_line(out: &mut [u8; TEXT], f: Field) -> usize
    ensures { Put out.old 0 (field_line f) result out.new × (result ≤ text_room) }
{
    let mut pen = Pen { out, at: 0 };
    pen.bytes(word(f.what));
    pen.spaced_number(f.stamp as usize);
    pen.operands(f.what);
    pen.byte(b'\n');
    pen.at
}

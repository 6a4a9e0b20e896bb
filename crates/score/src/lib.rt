// The score (document 01, 'Score and program'): tagged fields, one read at a place, and the whole checked before the
// first clock.
#![tactic(auto)]

ghost use Rattle.std.specs.Prelude.{◌≡◌};
ghost use Rattle.refusals.specs.Refusals.{tells};
ghost use Rattle.score.specs.Fields.{len_of, known_what, field_at, tag_of, is_end, is_access};
ghost use Rattle.score.specs.Stamps.{unstamped, used, admit};
ghost use Rattle.score.specs.Scores.{checked};
ghost use Rattle.score.specs.Given.{Judged};

use refusals::{Refusal, Refused};

// What a field asks for, without its stamp.
#[derive(Clone, Copy, Debug, PartialEq, Eq)]
pub enum What {
    Write { address: u8, value: u8 },
    Read { address: u8 },
    Levels,
    Watch,
    End,
}

impl What {
    // The first byte of a field that asks for it.
    pub fn tag(self) -> u8
        ensures { result ≡ tag_of self }
    {
        match self {
            What::Write { .. } => 0x01,
            What::Read { .. } => 0x02,
            What::Levels => 0x03,
            What::Watch => 0x04,
            What::End => 0x7f,
        }
    }

    // The length of a value that asks for it.
    #[tactic(auto, unfolding(crate::specs::Fields::len_of))]
    pub fn length(self) -> u8
        ensures { result ≡ len_of (tag_of self) }
    {
        match self {
            What::Write { .. } => 6,
            What::Read { .. } => 5,
            What::Levels | What::Watch | What::End => 4,
        }
    }

    pub fn is_end(self) -> bool
        ensures { result ≡ is_end self }
    {
        matches!(self, What::End)
    }

    // A write or read: the processor makes one in a clock.
    pub fn is_access(self) -> bool
        ensures { result ≡ is_access self }
    {
        matches!(self, What::Write { .. } | What::Read { .. })
    }
}

#[derive(Clone, Copy, Debug, PartialEq, Eq)]
pub struct Field {
    pub stamp: u32,
    pub what: What,
}

// What a tag asks for, if it is known, its value standing first in v.
#[tactic(auto, unfolding(crate::specs::Fields::len_of, crate::specs::Fields::what_of))]
fn what_of(tag: u8, v: &[u8]) -> Option<What>
    ensures { result ≡ known_what tag v.now }
{
    match tag {
        0x01 => Some(What::Write {
            address: words::u8_at(v, 4),
            value: words::u8_at(v, 5),
        }),
        0x02 => Some(What::Read {
            address: words::u8_at(v, 4),
        }),
        0x03 => Some(What::Levels),
        0x04 => Some(What::Watch),
        0x7f => Some(What::End),
        _ => None,
    }
}

// What stands at a place of a score, and the place after it. A cut field is refused at the first missing byte.
#[tactic(auto, using(crate::proofs::Fields::tag_back), unfolding(crate::specs::Fields::field_at))]
pub fn field_at(s: &[u8], at: usize) -> Result<(Field, usize), Refused>
    ensures { result ≡ field_at s.now at }
{
    let end = s.len();
    let left = end.saturating_sub(at);
    if left < 3 {
        return Err(Refusal::HeaderCut.at(end));
    }
    let from = at + 3;
    let value = &s[from..];
    let Some(what) = what_of(words::u8_at(s, at), value) else {
        return Err(Refusal::UnknownTag.at(at));
    };
    let n = what.length() as usize;
    if words::u16_at(s, at + 1) as usize != n {
        return Err(Refusal::FieldLength.at(at));
    }
    if left - 3 < n {
        return Err(Refusal::ValueCut.at(end));
    }
    let stamp = words::u32_at(value, 0);
    Ok((Field { stamp, what }, from + n))
}

// The stamp of the field before, and the first that is free for an access: the one after the access before. Each is 0
// if there was none.
#[derive(Clone, Copy, Debug, PartialEq, Eq)]
pub struct Order {
    pub last: u32,
    pub free: u32,
}

impl Order {
    pub fn new() -> Self
        ensures { result ≡ unstamped }
    {
        Self { last: 0, free: 0 }
    }
}

// Whether a field is an access that isn't above the access before.
fn is_used(o: Order, f: Field) -> bool
    ensures { result ≡ used o f }
{
    f.what.is_access() && f.stamp < o.free
}

// The rules on a field's stamp, for whoever reads or writes fields: the order that the next field meets.
#[tactic(auto, unfolding(crate::specs::Stamps::admit))]
pub fn admit(o: Order, f: Field) -> Result<Order, Refusal>
    ensures { result ≡ admit o f }
{
    if 100_000_000 < f.stamp {
        return Err(Refusal::StampTooLate);
    }
    if f.stamp < o.last {
        return Err(Refusal::StampFalls);
    }
    if is_used(o, f) {
        return Err(Refusal::StampUsed);
    }
    Ok(Order {
        last: f.stamp,
        free: if f.what.is_access() {
            f.stamp + 1
        } else {
            o.free
        },
    })
}

// The clocks of the whole score, before the first clock: the first refusal ends the walk (a `loop` that breaks with a
// value, the form that document 01 names for it).
pub fn check_score(s: &[u8]) -> Result<u32, Refused>
    ensures { (result ≡ checked s.now) × Judged s.now (tells result) }
{
    if 65536 < s.len() {
        return Err(Refusal::ScoreLength.at(0));
    }
    let mut at: usize = 0;
    let mut order = Order::new();
    loop {
        if s.len() <= at {
            break Err(Refusal::NoEnd.at(s.len()));
        }
        let (f, next) = match field_at(s, at) {
            Ok(read) => read,
            Err(r) => break Err(r),
        };
        order = match admit(order, f) {
            Ok(next_order) => next_order,
            Err(why) => break Err(why.at(at)),
        };
        if f.what.is_end() {
            break if next < s.len() {
                Err(Refusal::AfterEnd.at(next))
            } else {
                Ok(f.stamp)
            };
        }
        at = next;
    }
}

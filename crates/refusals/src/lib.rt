// The numbers that a caller can get back (document 01, 'Numbers a caller can get back', and document 02).
#![tactic(auto)]

ghost use Rattle.std.specs.Prelude.{◌≡◌};
ghost use Rattle.refusals.specs.Refusals.{number_of, refused};

use std::fmt;

#[derive(Clone, Copy, Debug, PartialEq, Eq)]
pub enum Refusal {
    NoTable,
    TableLength,
    VoiceNumber,
    ScoreLength,
    HeaderCut,
    UnknownTag,
    FieldLength,
    StampTooLate,
    StampFalls,
    AfterEnd,
    NoEnd,
    ValueCut,
    NoRoom,
    StampUsed,
    PackLength,
    Unsettled,
}

// What a refused call answers: the error of every call that can be refused.
#[derive(Clone, Copy, Debug, PartialEq, Eq)]
pub struct Refused {
    pub why: Refusal,
    pub place: usize,
}

impl Refusal {
    pub fn at(self, place: usize) -> Refused
        ensures { result ≡ refused self place }
    {
        Refused { why: self, place }
    }
}

impl From<Refusal> for u8 {
    ghost from_gives = { λ why number. number ≡ number_of why };

    fn from(why: Refusal) -> u8 {
        match why {
            Refusal::NoTable => 1,
            Refusal::TableLength => 2,
            Refusal::VoiceNumber => 3,
            Refusal::ScoreLength => 4,
            Refusal::HeaderCut => 5,
            Refusal::UnknownTag => 6,
            Refusal::FieldLength => 7,
            Refusal::StampTooLate => 8,
            Refusal::StampFalls => 9,
            Refusal::AfterEnd => 10,
            Refusal::NoEnd => 11,
            Refusal::ValueCut => 12,
            Refusal::NoRoom => 13,
            Refusal::StampUsed => 14,
            Refusal::PackLength => 15,
            Refusal::Unsettled => 19,
        }
    }
}

impl fmt::Display for Refused {
    fn fmt<W: fmt::Write>(&self, f: &mut fmt::Formatter<W>) -> fmt::Result {
        write!(f, "refused {} at {}", u8::from(self.why), self.place)
    }
}

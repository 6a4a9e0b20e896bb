// The score's writer (document 02, 'Write scores from the tracker'): a field a call, appended to a lent buffer. No room
// is kept for the end, which takes 7 bytes: that is the caller's care.
#![tactic(auto)]

ghost use Rattle.std.specs.Prelude.{◌≡◌, length};
ghost use Rattle.score.specs.Fields.{written};
ghost use Rattle.writer.specs.Writer.{afresh, appended, buffered};

use refusals::{Refusal, Refused};
use score::{Field, Order, What};

// The place reached, the order that the next field meets, and whether the end was written.
#[derive(Clone, Copy, Debug, PartialEq, Eq)]
pub struct Writer {
    pub at: usize,
    pub order: Order,
    pub ended: bool,
}

// The most bytes that a score has.
const MOST: usize = 65536;

// The most bytes that a field has.
const MOST_FIELD: usize = 9;

// A field's bytes, which stand in the space that is lent for them.
fn field_bytes<'a>(space: &'a mut [u8; MOST_FIELD], f: Field) -> &'a [u8]
    ensures { result.now ≡ written f }
{
    let n = f.what.length();
    let [a, b, c, d] = f.stamp.to_le_bytes();
    let (first, second) = match f.what {
        What::Write { address, value } => (address, value),
        What::Read { address } => (address, 0),
        What::Levels | What::Watch | What::End => (0, 0),
    };
    *space = [f.what.tag(), n, 0, a, b, c, d, first, second];
    &space[..3 + n as usize]
}

impl Writer {
    pub fn new() -> Self
        ensures { result ≡ afresh }
    {
        Self {
            at: 0,
            order: Order::new(),
            ended: false,
        }
    }

    // The writer after a field that was taken; a refused call leaves the writer that it was made with.
    pub fn append(self, f: Field, out: &mut [u8]) -> Result<Writer, Refused>
        ensures { (result ≡ appended (length out.old) self f) × (out.new ≡ buffered out.old self f) }
    {
        let at = self.at;
        if self.ended {
            return Err(Refusal::AfterEnd.at(at));
        }
        // no `map_err(..)?`: what its closure makes of the refusal is lost to the proof of `ensures`
        let order = match score::admit(self.order, f) {
            Ok(order) => order,
            Err(why) => return Err(why.at(at)),
        };
        let mut space = [0u8; MOST_FIELD];
        let bytes = field_bytes(&mut space, f);
        let n = bytes.len();
        if MOST.saturating_sub(at) < n {
            return Err(Refusal::ScoreLength.at(at));
        }
        if out.len().saturating_sub(at) < n {
            return Err(Refusal::NoRoom.at(at));
        }
        out[at..at + n].copy_from_slice(bytes);
        let next = Writer {
            at: at + n,
            order,
            ended: f.what.is_end(),
        };
        Ok(next)
    }
}

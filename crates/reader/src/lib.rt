// The score's reader (document 01, 'A form for each place': 'a reader that refers to its bytes and a place'). Its
// functions are thin: every other caller uses `read_field`, which has plain parameters.
#![tactic(auto)]

ghost use Rattle.std.specs.Prelude.{◌≡◌};
ghost use Rattle.score.specs.Fields.{field_at};

use refusals::Refused;
use score::Field;

#[derive(Clone, Copy, Debug, PartialEq, Eq)]
pub struct Reader<'a> {
    pub src: &'a [u8],
    pub at: usize,
}

impl<'a> Reader<'a> {
    pub fn new(src: &'a [u8], at: usize) -> Self
        ensures { (result.src ≡ src.entry) × (result.at ≡ at) }
    {
        Self { src, at }
    }

    pub fn field(self) -> Result<(Field, usize), Refused>
        ensures { result ≡ field_at self.entry.src.now self.entry.at }
    {
        score::field_at(self.src, self.at)
    }
}

pub fn read_field(s: &[u8], at: usize) -> Result<(Field, usize), Refused>
    ensures { result ≡ field_at s.now at }
{
    Reader::new(s, at).field()
}

// Definitions and laws that more than one crate cites: see specs and proofs. Of code, what the stages of the noise
// register and the floating lines share: their charges for a code, the code that charges read as, what a charge loses.
#![tactic(auto)]

ghost use Rattle.std.specs.Prelude.{◌≡◌, min};
ghost use Rattle.laws.specs.Charges.{charged, high_to, drained};

// A full charge for each bit that is set, and none for the others; past bit 31 none is.
pub fn charges_of<const N: usize>(code: u32) -> [u16; N]
    ensures { result ≡ charged code N }
{
    let mut charge = [0u16; N];
    for (bit, q) in charge.iter_mut().enumerate() {
        *q = if bit < 32 && (code >> bit) % 2 == 1 {
            u16::MAX
        } else {
            0
        };
    }
    charge
}

// The bits whose charge is at least the threshold, of the first 32.
pub fn high_of<const N: usize>(charge: &[u16; N], threshold: u16) -> u32
    ensures { result ≡ high_to threshold charge.now (min N 32) }
{
    let mut code = 0u32;
    for (bit, q) in charge.iter().enumerate() {
        if bit < 32 && *q >= threshold {
            code |= 1 << bit;
        }
    }
    code
}

// A part is what the caller makes of the charge.
pub fn drained(charge: u16, part: u16) -> u16
    ensures { result ≡ drained charge part }
{
    charge.saturating_sub(part.max(1))
}

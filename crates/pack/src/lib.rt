// The pack of settled tables (document 02, request 3): filled once, then looked up on each clock of an engine over it.
#![tactic(auto)]

ghost use Rattle.std.specs.Prelude.{◌≡◌, ◌≢◌, ◌+◌, ◌*◌, ◌%◌, length, MatchResult};
ghost use Rattle.oscillator.specs.Oscillator.{selected};
ghost use Rattle.refusals.specs.Refusals.{refused, tells};
ghost use Rattle.pack.specs.Pack.{block_of, refusal, pack_after};

use oscillator::Control;
use refusals::{Refusal, Refused};

pub const LENGTH: usize = 45056;

// The selections that have a block, in their order.
const SELECTIONS: [u8; 11] = [3, 5, 6, 7, 9, 10, 11, 12, 13, 14, 15];

// Whether a pack has all its blocks, which every call over one asks first.
pub fn check(pack: &[u16]) -> Result<(), Refused>
    ensures { MatchResult result (λ x. length pack.now ≡ LENGTH) (λ r. (length pack.now ≢ LENGTH) × (r ≡ refused Refusal.PackLength 0)) }
{
    if pack.len() == LENGTH {
        Ok(())
    } else {
        Err(Refusal::PackLength.at(0))
    }
}

// Of blocks that `chunks_exact_mut` lends, a proof knows the length and not the entries.
pub fn fill(pack: &mut [u16]) -> Result<(), Refused>
    ensures { (tells result ≡ refusal (length pack.old)) × (pack.new ≡ pack_after pack.old) }
{
    check(pack)?;
    for (block, selection) in SELECTIONS.iter().enumerate() {
        tables::fill(*selection, &mut pack[block * 4096..(block + 1) * 4096])?;
    }
    Ok(())
}

// Where a voice's block begins. A selection without lines to load has none, and any place serves.
#[tactic(auto, unfolding(crate::specs::Pack::block_of))]
pub fn base(control: Control) -> u16
    ensures { result ≡ block_of (selected control).raw * 4096 }
{
    match (control.waveform % 16) as u16 {
        0..=4 => 0,
        selection @ 5..=8 => (selection - 4) * 4096,
        selection => (selection - 5) * 4096,
    }
}

// Where the entry of a code stands.
pub fn entry(base: u16, code: u16) -> usize
    ensures { result ≡ base + code % 4096 }
{
    (base as usize) + ((code % 4096) as usize)
}

// Settled tables in a lent part (document 01, 'Line loading'; waveforms.rs).
#![tactic(auto)]

ghost use Rattle.std.specs.Prelude.{◌≡◌, length};
ghost use Rattle.refusals.specs.Refusals.{tells};
ghost use Rattle.tables.specs.Tables.{refusal, table_after};

use refusals::{Refusal, Refused};
use waveforms::LineArray;

// The Rust's `LineArray::generate`, into a lent table.
pub fn fill(selection: u8, table: &mut [u16]) -> Result<(), Refused>
    ensures { (tells result ≡ refusal selection (length table.old)) × (table.new ≡ table_after selection table.old) }
{
    if 15 < selection || !waveforms::needs_line_loading(selection) {
        return Err(Refusal::NoTable.at(0));
    }
    if table.len() != 4096 {
        return Err(Refusal::TableLength.at(0));
    }
    let line_array = LineArray::new(selection);
    for (value, entry) in table.iter_mut().enumerate() {
        *entry = line_array.settle(value as u16);
    }
    Ok(())
}

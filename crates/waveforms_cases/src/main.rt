// Replays the oracle's lists data/waveforms (triangles, loaded codes, refusals, all settled tables) and data/settling
// (codes at the edge of a line). They are made by tools/oracle: cargo run --release -- list NAME
#![tactic(auto)]

use cases::Tally;
use refusals::Refused;
use waveforms::LineArray;

// No settled code is as large, so that an entry which a call has left alone is known.
fn unfilled(place: usize) -> u16 {
    4096 + (place % 8192) as u16
}

fn prepare(table: &mut [u16]) {
    for (place, entry) in table.iter_mut().enumerate() {
        *entry = unfilled(place);
    }
}

// A `fold`, and not `all`: with no way out of the loop it is made in wide steps, in half the time.
fn untouched(table: &[u16]) -> bool {
    table.iter().enumerate().fold(
        true,
        |kept, (place, entry)| kept & (*entry == unfilled(place)),
    )
}

// Document 01's number, 0 for a filled table; no number for a place that isn't 0.
fn number(gave: Result<(), Refused>) -> u8 {
    match gave {
        Ok(()) => 0,
        Err(refused) if refused.place == 0 => refused.why.into(),
        Err(_) => 255,
    }
}

fn fills(selection: u8, table: &mut [u16], answer: u16) -> bool {
    prepare(table);
    let gave = number(tables::fill(selection, table));
    u16::from(gave) == answer && (gave == 0 || untouched(table))
}

fn fills_part(selection: u8, table: &mut [u16], length: usize, answer: u16) -> bool {
    match table.get_mut(..length) {
        Some(part) => fills(selection, part, answer),
        None => false,
    }
}

// In the table filled last, and settled afresh as in a tick.
fn holds(selection: u8, table: &[u16], place: u16, code: u16) -> bool {
    table.get(usize::from(place)) == Some(&code)
        && waveforms::settled_code(selection, place) == code
}

#[derive(Clone, Copy, PartialEq, Eq)]
enum Call {
    Triangle,
    NeedsLoading,
    Settled,
    Fill,
    // An entry of the table filled last; those between two that are told are 0.
    Entry,
    // No call of the list's: compared as an entry, and the next one as a table's first.
    Other,
}

// A record of 6 bytes: the call, the selection, the operand (2), the answer (2).
#[derive(Clone, Copy)]
struct Record {
    call: Call,
    selection: u8,
    operand: u16,
    answer: u16,
}

impl Record {
    fn read(bytes: &[u8]) -> Self {
        Self {
            call: match words::u8_at(bytes, 0) {
                0 => Call::Triangle,
                1 => Call::NeedsLoading,
                2 => Call::Settled,
                3 => Call::Fill,
                4 => Call::Entry,
                _ => Call::Other,
            },
            selection: words::u8_at(bytes, 1),
            operand: words::u16_at(bytes, 2),
            answer: words::u16_at(bytes, 4),
        }
    }

    // The entry after the one told last; a table's first after its fill.
    fn next(self) -> u16 {
        if self.call == Call::Entry {
            self.operand % 4096 + 1
        } else {
            0
        }
    }

    fn compared(self, mut tally: Tally, table: &mut [u16], next: u16) -> Tally {
        let Self {
            call,
            selection,
            operand,
            answer,
        } = self;
        if matches!(call, Call::Entry | Call::Other) {
            // a `for`: folded, the tally is carried by longer ways, a fifth of the time more
            for at in next..operand {
                tally = tally.count(holds(selection, table, at, 0));
            }
        }
        tally.count(match call {
            Call::Triangle => waveforms::triangle_from_phase(operand) == answer,
            Call::NeedsLoading => waveforms::needs_line_loading(selection) == (answer == 1),
            Call::Settled => waveforms::settled_code(selection, operand) == answer,
            Call::Fill => fills_part(selection, table, usize::from(operand), answer),
            Call::Entry | Call::Other => holds(selection, table, operand, answer),
        })
    }
}

fn replay_waveforms(list: &[u8], table: &mut [u16]) -> Tally {
    let mut tally = Tally::new();
    let mut next = 0;
    for bytes in list.chunks_exact(6) {
        let record = Record::read(bytes);
        tally = record.compared(tally, table, next);
        next = record.next();
    }
    tally
}

// 24 bits in units of 2^-24; bit 31 is the sign.
fn extra_load(units: u32) -> f32 {
    let load = (units % 16777216) as f32 / 16777216.0;
    if units < 0x8000_0000 { load } else { -load }
}

fn settles(selection: u8, value: u16, units: u32, code: u16) -> bool {
    let mut array = LineArray::new(selection);
    array.static_load += extra_load(units);
    array.settle(value) == code
}

// Records of 9 bytes: the selection, the value (2), the extra load (4), the code (2).
fn replay_settling(list: &[u8]) -> Tally {
    list.chunks_exact(9).fold(Tally::new(), |tally, bytes| {
        tally.count(settles(
            words::u8_at(bytes, 0),
            words::u16_at(bytes, 1),
            words::u32_at(bytes, 3),
            words::u16_at(bytes, 7),
        ))
    })
}

fn main(rt: HostRuntime) {
    let mut list = [0u8; 65536];
    let mut table = [0u16; 4097];
    let n = cases::load(&rt, b"waveforms", &mut list);
    cases::report(b"waveforms", replay_waveforms(&list[..n], &mut table));
    let n = cases::load(&rt, b"settling", &mut list);
    cases::report(b"settling", replay_settling(&list[..n]));
}

// Makes the calls of standard input, the oracle's lists of fields, and tells what each answers and a digest of the
// whole buffer after it. Its file stdout has what the oracle says.
// The lists are made by tools/oracle: cargo run --release -- list writer_lists, and list writer_answers
// A list: the buffer's length (4 bytes), the place (8), the order's two stamps (4 each), whether the end was written,
// whether the score is to be played, the number of fields (2); a field in 7 bytes: its tag, stamp (4), address, value.
#![tactic(auto)]

use score::{Field, Order, What};
use writer::Writer;

// A tag of the list's, not of a score's: any that is none of these is an end.
fn field_of(bytes: &[u8; 7]) -> Field {
    let [tag, a, b, c, d, address, value] = *bytes;
    let what = match tag {
        1 => What::Write { address, value },
        2 => What::Read { address },
        3 => What::Levels,
        4 => What::Watch,
        _ => What::End,
    };
    Field {
        stamp: u32::from_le_bytes([a, b, c, d]),
        what,
    }
}

// No two neighbours alike, so that a byte that was stored shows.
fn pattern(buffer: &mut [u8]) {
    for (i, b) in buffer.iter_mut().enumerate() {
        *b = ((i % 256 * 7 + 13) % 256) as u8;
    }
}

fn digest(buffer: &[u8]) -> u64 {
    buffer.iter().fold(0, |sum: u64, b| {
        (sum % 4294967291 * 16777619 + *b as u64 + 1) % 4294967291
    })
}

// A write that fails is not told, here and below.
fn call_all(rt: &HostRuntime, from: Writer, fields: u16, buffer: &mut [u8]) -> Writer {
    let mut w = from;
    let mut bytes = [0u8; 7];
    for _ in 0..fields {
        io::read_full(0, &mut bytes);
        let answer = w.append(field_of(&bytes), buffer);
        let sum = digest(buffer);
        match answer {
            Ok(next) => {
                let _ = println!(rt; "next {} sum {sum}", next.at);
                w = next;
            }
            Err(r) => {
                let _ = println!(rt; "{r} sum {sum}");
            }
        }
    }
    w
}

fn call_list(rt: &HostRuntime, head: &[u8], buffer: &mut [u8], pack: &[u16]) {
    pattern(buffer);
    let from = Writer {
        at: words::u64_at(head, 4) as usize,
        order: Order {
            last: words::u32_at(head, 12),
            free: words::u32_at(head, 16),
        },
        ended: words::u8_at(head, 20) == 1,
    };
    let w = call_all(rt, from, words::u16_at(head, 22), buffer);
    if words::u8_at(head, 21) == 1 {
        let _ = printer::print_listing(1, buffer.get(..w.at).unwrap_or(buffer), pack);
    }
}

fn make_lists(rt: &HostRuntime, space: &mut [u8], pack: &[u16]) {
    let mut head = [0u8; 24];
    for number in 0..65536 {
        if io::read_full(0, &mut head) < 24 {
            break;
        }
        let _ = println!(rt; "list {number}");
        let room = words::u32_at(&head, 0) as usize;
        if let Some(buffer) = space.get_mut(..room) {
            call_list(rt, &head, buffer, pack);
        }
    }
}

fn main(rt: HostRuntime) {
    let mut pack = [0u16; pack::LENGTH];
    let _ = pack::fill(&mut pack);
    let mut space = [0u8; 66000];
    make_lists(&rt, &mut space, &pack);
}

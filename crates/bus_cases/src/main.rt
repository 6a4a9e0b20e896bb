// Replays data/bus, the oracle's calls on one data bus: what each gave, and the whole state after it.
// The list is made by tools/oracle: cargo run --release -- list bus
// A record of 15 bytes: the call, its operand (4), the byte it gave, of clocks the bits that the last lost; value, age
// (4) and next expiry (4) after it.
#![tactic(auto)]

use bus::InternalDataBus;
use cases::Tally;

// The bits that the last of so many clocks lost.
fn clock_times(bus: &mut InternalDataBus, n: u32) -> u8 {
    let mut lost = 0;
    for _ in 0..n {
        lost = bus.clock();
    }
    lost
}

// The byte that a call gave, 0 where it gives none. A call's number is read here alone: an enum of the calls would only
// be one match more.
fn made(bus: &mut InternalDataBus, call: u8, operand: u32, after: InternalDataBus) -> u8 {
    let byte = (operand % 256) as u8;
    match call {
        0 => {
            bus.reset();
            0
        }
        1 => {
            bus.drive(byte);
            0
        }
        2 => bus.read_driven(byte),
        3 => bus.read_floating(),
        4 => clock_times(bus, operand),
        _ => {
            *bus = after;
            0
        }
    }
}

fn replay(list: &[u8]) -> Tally {
    let mut tally = Tally::new();
    let mut bus = InternalDataBus::new();
    for record in list.chunks_exact(15) {
        let after = InternalDataBus {
            value: words::u8_at(record, 6),
            age: words::u32_at(record, 7),
            next_expiry: words::u32_at(record, 11),
        };
        let gave = made(
            &mut bus,
            words::u8_at(record, 0),
            words::u32_at(record, 1),
            after,
        );
        tally = tally.count(gave == words::u8_at(record, 5) && bus == after);
    }
    tally
}

fn main(rt: HostRuntime) {
    let mut list = [0u8; 65536];
    let n = cases::load(&rt, b"bus", &mut list);
    cases::report(b"bus", replay(&list[..n]));
}

// Replays the oracle's lists data/envelope (calls on one envelope: the whole state after each) and data/rises (rises:
// the level after each clock, the whole state after the last).
// They are made by tools/oracle: cargo run --release -- list NAME
#![tactic(auto)]

use cases::Tally;
use envelope::Envelope;

// A call's number is read here alone: an enum of the calls would only be one match more.
fn made(record: &[u8], e: Envelope, after: Envelope) -> Envelope {
    let operand = words::u16_at(record, 1);
    let byte = (operand % 256) as u8;
    match words::u8_at(record, 0) {
        0 => Envelope::new(),
        1 => e.reset(),
        2 => e.set_attack_decay(byte),
        3 => e.set_sustain_release(byte),
        4 => e.set_gate(byte == 1),
        5 => release::clock_times(e, operand as u32),
        _ => after,
    }
}

// The whole state, and by the methods what they tell of it.
fn same(e: Envelope, after: Envelope) -> bool {
    e.gate_is_high() == after.gate.input
        && e.level() == after.volume
        && e.held() == after.floor_hold
        && e.read_level() == after.readback
        && e == after
}

// A record of 21 bytes: the call, its operand (2), and the state after it.
fn replay_envelope(list: &[u8]) -> Tally {
    let mut tally = Tally::new();
    let mut e = Envelope::new();
    for record in list.chunks_exact(21) {
        let after = states::state(&record[3..]);
        e = made(record, e, after);
        tally = tally.count(same(e, after));
    }
    tally
}

#[derive(Clone, Copy)]
struct Played {
    e: Envelope,
    tally: Tally,
}

impl Played {
    // So many clocks, with this level after each. In locals: a field of `self` is copied out and in on each clock.
    fn clocked(self, clocks: u16, level: u8) -> Self {
        let mut e = self.e;
        let mut tally = self.tally;
        for _ in 0..clocks {
            e = e.clock();
            tally = tally.count(e.level() == level);
        }
        Self { e, tally }
    }
}

// A run of 3 bytes: the level, the clocks (2).
fn replay_rise(tally: Tally, start: Envelope, runs: &[u8], end: Envelope) -> Tally {
    let mut played = Played { e: start, tally };
    for run in runs.chunks_exact(3) {
        played = played.clocked(words::u16_at(run, 1), words::u8_at(run, 0));
    }
    played.tally.count(same(played.e, end))
}

fn started(late: bool, e: Envelope) -> Envelope {
    if late { e.set_gate(true) } else { e }
}

// A rise: whether a gate-on is written first, the number of runs (2), the state (18), the runs, and the state after
// them (18).
fn replay_rises(list: &[u8]) -> Tally {
    let mut tally = Tally::new();
    let mut rest = list;
    while let Some((head, more)) = rest.split_at_checked(21) {
        let Some((runs, more)) = more.split_at_checked(words::u16_at(head, 1) as usize * 3) else {
            break;
        };
        let Some((end, more)) = more.split_at_checked(18) else {
            break;
        };
        let start = started(words::u8_at(head, 0) == 1, states::state(&head[3..]));
        tally = replay_rise(tally, start, runs, states::state(end));
        rest = more;
    }
    tally
}

fn main(rt: HostRuntime) {
    let mut list = [0u8; 65536];
    let n = cases::load(&rt, b"envelope", &mut list);
    cases::report(b"envelope", replay_envelope(&list[..n]));
    let n = cases::load(&rt, b"rises", &mut list);
    cases::report(b"rises", replay_rises(&list[..n]));
}

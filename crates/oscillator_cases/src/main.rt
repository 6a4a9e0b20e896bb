// Replays data/calls, the oracle's calls on one oscillator: what each returned, and the digest of the whole state after
// it. data/states has the states that some calls start from. Both lists are made by tools/oracle, which says how they
// are laid out:
// cargo run --release -- list oscillator_calls, and oscillator_states
// The digests hold the Rust's own cycle; here the program holds it, and hands it to every call that takes one.
#![tactic(auto)]

use cases::Tally;
use floating::{Floating, FloatingBus};
use noise::{Noise, NoiseGenerator};
use oscillator::{Control, Oscillator, Tone};

// An oscillator beside a cycle that runs as the Rust's own: 0 where it is made or reset, one on with each clock.
#[derive(Clone, Copy)]
struct Timed {
    oscillator: Oscillator,
    cycle: u64,
}

// What a call gave, and what it left.
#[derive(Clone, Copy)]
struct Gave {
    code: u16,
    left: Timed,
}

// The charges from a place of the list on.
fn charges_at<const N: usize>(list: &[u8], at: usize) -> [u16; N] {
    let mut charge = [0u16; N];
    let bytes = list.get(at..).unwrap_or(&[]);
    for (q, pair) in charge.iter_mut().zip(bytes.chunks_exact(2)) {
        *q = words::u16_at(pair, 0);
    }
    charge
}

// The state with this number.
fn state(list: &[u8], number: usize) -> Timed {
    let at = number % 341 * 192;
    let flags = words::u8_at(list, at + 5);
    let captured_charge = charges_at(list, at + 58);
    let charge = charges_at(list, at + 104);
    let lines = charges_at(list, at + 168);
    Timed {
        oscillator: Oscillator {
            control: Control {
                frequency: words::u16_at(list, at),
                pulse_width: words::u16_at(list, at + 2),
                waveform: words::u8_at(list, at + 4),
                sync_enabled: flags % 2 == 1,
                ring_enabled: flags / 2 % 2 == 1,
                test_enabled: flags / 4 % 2 == 1,
            },
            tone: Tone {
                accumulator: words::u32_at(list, at + 6),
                msb_rising: flags / 8 % 2 == 1,
                last_sample: words::u16_at(list, at + 10),
                pulse_output: words::u16_at(list, at + 12),
                readback: words::u16_at(list, at + 22),
            },
            noise: NoiseGenerator {
                numbers: Noise {
                    state: words::u32_at(list, at + 24),
                    visible: words::u16_at(list, at + 28),
                    captured: words::u32_at(list, at + 30),
                    transfer_at: words::u64_at(list, at + 34),
                    normal_transfer_at: words::u64_at(list, at + 42),
                    next_leak: words::u64_at(list, at + 50),
                },
                captured_charge,
                charge,
            },
            bus: FloatingBus {
                numbers: Floating {
                    value: words::u16_at(list, at + 150),
                    hold_until: words::u64_at(list, at + 152),
                    next_leak: words::u64_at(list, at + 160),
                },
                charge: lines,
            },
        },
        cycle: words::u64_at(list, at + 14),
    }
}

fn with(digest: u64, field: u64) -> u64 {
    (digest.rotate_left(7) ^ field).wrapping_add(0x9e37_79b9_7f4a_7c15)
}

fn with_all(before: u64, fields: &[u64]) -> u64 {
    fields
        .iter()
        .fold(before, |digest, field| with(digest, *field))
}

fn with_charges(before: u64, charge: &[u16]) -> u64 {
    charge
        .iter()
        .fold(before, |digest, q| with(digest, *q as u64))
}

fn digest(timed: Timed) -> u64 {
    let c = timed.oscillator.control;
    let t = timed.oscillator.tone;
    let n = timed.oscillator.noise.numbers;
    let f = timed.oscillator.bus.numbers;
    let flags = (t.msb_rising as u64) << 3
        | (c.test_enabled as u64) << 2
        | (c.ring_enabled as u64) << 1
        | c.sync_enabled as u64;
    let numbers = [
        c.frequency as u64,
        c.pulse_width as u64,
        c.waveform as u64,
        flags,
        t.accumulator as u64,
        t.last_sample as u64,
        t.pulse_output as u64,
        timed.cycle,
        t.readback as u64,
        n.state as u64,
        n.visible as u64,
        n.captured as u64,
        n.transfer_at,
        n.normal_transfer_at,
        n.next_leak,
    ];
    let captured = with_charges(
        with_all(0, &numbers),
        &timed.oscillator.noise.captured_charge,
    );
    let held = with_charges(captured, &timed.oscillator.noise.charge);
    let floats = with_all(held, &[f.value as u64, f.hold_until, f.next_leak]);
    with_charges(floats, &timed.oscillator.bus.charge)
}

// What a call leaves that gives nothing.
fn silent(oscillator: Oscillator, cycle: u64) -> Gave {
    Gave {
        code: 0,
        left: Timed { oscillator, cycle },
    }
}

fn clock(before: Timed) -> Gave {
    let cycle = before.cycle.wrapping_add(1);
    silent(before.oscillator.clock_accumulator(cycle), cycle)
}

fn evaluate(before: Timed, modulator: u32) -> Gave {
    let cycle = before.cycle;
    let e = before.oscillator.evaluate_output(modulator, cycle);
    Gave {
        code: e.code,
        left: Timed {
            oscillator: e.oscillator,
            cycle,
        },
    }
}

fn tick(before: Timed, modulator: u32) -> Gave {
    let mut e = evaluate(clock(before).left, modulator);
    let cycle = e.left.cycle;
    e.left.oscillator = e
        .left
        .oscillator
        .apply_combined_feedback(e.code)
        .latch_output(e.code, cycle);
    e
}

fn run(mut timed: Timed, clocks: u32) -> Gave {
    for _ in 0..clocks {
        timed = tick(timed, timed.oscillator.tone.accumulator).left;
    }
    Gave {
        code: timed.oscillator.tone.last_sample,
        left: timed,
    }
}

// A call's number is read here alone: an enum of the calls would only be one match more.
fn made(call: u8, operand: u32, timed: Timed, states: &[u8]) -> Gave {
    let byte = (operand % 256) as u8;
    let half = (operand % 65536) as u16;
    let cycle = timed.cycle;
    let o = timed.oscillator;
    match call {
        0 => silent(Oscillator::new(), 0),
        1 => silent(o.reset(), 0),
        2 => silent(o.write_frequency_lo(byte), cycle),
        3 => silent(o.write_frequency_hi(byte), cycle),
        4 => silent(o.write_pulse_width_lo(byte), cycle),
        5 => silent(o.write_pulse_width_hi(byte), cycle),
        6 => silent(o.write_control(byte, cycle), cycle),
        7 => clock(timed),
        8 => evaluate(timed, operand),
        9 => silent(o.apply_combined_feedback(half), cycle),
        10 => silent(o.latch_output(half, cycle), cycle),
        11 => silent(o.synchronise(), cycle),
        12 => Gave {
            code: o.read_output() as u16,
            left: timed,
        },
        13 => Gave {
            code: o.phase(),
            left: timed,
        },
        14 => Gave {
            code: o.output_is_frozen() as u16,
            left: timed,
        },
        15 => tick(timed, operand),
        16 => run(timed, operand),
        17 => silent(o, cycle.wrapping_add(operand as u64)),
        _ => Gave {
            code: 0,
            left: state(states, operand as usize),
        },
    }
}

#[derive(Clone, Copy)]
struct Compared {
    same: bool,
    left: Timed,
}

// One call of the list, its 15 bytes.
fn call_of(call: &[u8], timed: Timed, states: &[u8]) -> Compared {
    let gave = made(words::u8_at(call, 0), words::u32_at(call, 1), timed, states);
    let code = words::u16_at(call, 5);
    let after = words::u64_at(call, 7);
    Compared {
        same: gave.code == code && digest(gave.left) == after,
        left: gave.left,
    }
}

fn replay(calls: &[u8], states: &[u8]) -> Tally {
    let mut tally = Tally::new();
    let mut timed = Timed {
        oscillator: Oscillator::new(),
        cycle: 0,
    };
    for call in calls.chunks_exact(15) {
        let c = call_of(call, timed, states);
        timed = c.left;
        tally = tally.count(c.same);
    }
    tally
}

fn main(rt: HostRuntime) {
    let mut calls = [0u8; 65536];
    let mut states = [0u8; 65536];
    let n = cases::load(&rt, b"calls", &mut calls);
    let m = cases::load(&rt, b"states", &mut states);
    cases::report(b"oscillator", replay(&calls[..n], &states[..m]));
}

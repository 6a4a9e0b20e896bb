// Replays the oracle's calls on the tail planner and on one chip, from standard input: forecasts, runs that stop when a
// voice is held, and what a chip is brought to by states put into its voices, writes and clocks.
// The list is made by tools/oracle, which says how it is laid out: cargo run --release -- list forecasts
#![tactic(auto)]

ghost use Rattle.std.specs.Prelude.{◌≡◌, length};

use cases::Tally;
use envelope::Envelope;
use sid::{Mos6581, Voice};
use tail::HeldRun;

const DIVISORS: [u8; 6] = [1, 2, 4, 8, 16, 30];

#[derive(Clone, Copy)]
struct Answered {
    chip: Mos6581,
    answer: u64,
}

fn silent(chip: Mos6581) -> Answered {
    Answered { chip, answer: 0 }
}

fn shown(chip: Mos6581) -> Answered {
    Answered {
        chip,
        answer: scenes::heard(chip),
    }
}

#[inline(always)]
fn forecast(chip: Mos6581, voice: u8) -> u64 {
    match tail::forecast(chip, voice) {
        Ok(clocks) => clocks as u64,
        Err(refused) => cases::refusal(refused),
    }
}

fn voice_with(v: Voice, envelope: Envelope) -> Voice {
    let oscillator = v.oscillator;
    Voice {
        oscillator,
        envelope,
    }
}

// The chip with an envelope of its own in a voice.
fn put(chip: Mos6581, voice: u8, envelope: Envelope) -> Mos6581 {
    let v_0 = chip.voice_0;
    let v_1 = chip.voice_1;
    let v_2 = chip.voice_2;
    let mut after = chip;
    match voice {
        0 => after.voice_0 = voice_with(v_0, envelope),
        1 => after.voice_1 = voice_with(v_1, envelope),
        _ => after.voice_2 = voice_with(v_2, envelope),
    }
    after
}

fn with_count(e: Envelope, divisor: u8, count: u8) -> Envelope {
    let mut after = e;
    after.curve_divisor = divisor;
    after.curve_count = count;
    after
}

// The forecasts with each count below a divisor, the highest first, in one digest.
fn forecast_counts(digest: u64, chip: Mos6581, voice: u8, e: Envelope, divisor: u8) -> u64 {
    let mut answer = digest;
    let mut count = divisor;
    while 0 < count {
        count = count - 1;
        let with = put(chip, voice, with_count(e, divisor, count));
        answer = cases::mixed(answer, forecast(with, voice));
    }
    answer
}

fn forecast_each(chip: Mos6581, voice: u8, e: Envelope) -> u64 {
    let mut answer: u64 = 1;
    for place in 0..6usize {
        answer = forecast_counts(answer, chip, voice, e, DIVISORS[place]);
    }
    answer
}

// What a run answered, and what it left to be seen, in one digest.
fn ran(r: HeldRun) -> Answered {
    let told = match r.answer {
        Ok(ran) => (ran.clocks as u64) | ((ran.stopped as u64) << 40),
        Err(refused) => cases::refusal(refused),
    };
    Answered {
        chip: r.chip,
        answer: cases::mixed(cases::mixed(1, told), scenes::heard(r.chip)),
    }
}

// A filled pack, and one of one number.
#[derive(Clone, Copy)]
struct Packs<'a> {
    filled: &'a [u16],
    one_number: &'a [u16],
}

// A call's number is read here alone: an enum of the calls would only be one match more.
fn made(record: &[u8], chip: Mos6581, packs: Packs) -> Answered
    requires { length «record».now ≡ 32 }
{
    let value = words::u8_at(record, 1);
    let number = words::u32_at(record, 2);
    match words::u8_at(record, 0) {
        0 => silent(Mos6581::new()),
        1 => silent(chip.reset()),
        2 => silent(chip.write((number % 65536) as u16, value)),
        3 => shown(run::run(chip, number as u64)),
        4 => Answered {
            chip,
            answer: forecast(chip, value),
        },
        5 => {
            let after = put(chip, value, states::state(&record[6..24]));
            Answered {
                chip: after,
                answer: forecast(after, value),
            }
        }
        6 => Answered {
            chip,
            answer: forecast_each(chip, value, states::state(&record[6..24])),
        },
        7 => ran(tail::run_to_held(chip, value, number)),
        8 => ran(tail::run_to_held_over(chip, value, number, packs.filled)),
        9 => ran(tail::run_to_held_over(chip, value, number, packs.one_number)),
        _ => Answered {
            chip,
            answer: planner::matches_to_zero(value) as u64,
        },
    }
}

#[derive(Clone, Copy)]
struct Replayed {
    chip: Mos6581,
    tally: Tally,
}

impl Replayed {
    fn replay(mut self, list: &[u8], packs: Packs) -> Self {
        for record in list.chunks_exact(32) {
            let gave = made(record, self.chip, packs);
            self.chip = gave.chip;
            self.tally = self.tally.count(gave.answer == words::u64_at(record, 24));
        }
        self
    }
}

// A part holds whole records; 2^20 parts are more than any list has.
fn replay_input() -> Tally {
    let mut list = [0u8; 65536];
    let mut filled = [0u16; pack::LENGTH];
    // of a pack's length, so that it is not refused
    let _ = pack::fill(&mut filled);
    let one_number = [0xfa5au16; pack::LENGTH];
    let packs = Packs {
        filled: &filled,
        one_number: &one_number,
    };
    let mut replayed = Replayed {
        chip: Mos6581::new(),
        tally: Tally::new(),
    };
    for _ in 0..1u32 << 20 {
        let n = io::read_full(0, &mut list);
        if n == 0 {
            break;
        }
        replayed = replayed.replay(&list[..n], packs);
    }
    replayed.tally
}

fn main() {
    cases::report(b"forecasts", replay_input());
}

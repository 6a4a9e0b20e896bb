// Replays the oracle's calls on one chip and one pack, from standard input: what each answered; ticks and renders answer
// for every clock by a digest.
// The list is made by tools/oracle, which says how it is laid out: cargo run --release -- list sid
#![tactic(auto)]

ghost use Rattle.std.specs.Prelude.{◌≡◌, length};

use cases::Tally;
use refusals::Refused;
use run::PackRan;
use sid::Mos6581;
use tick::Ticked;

#[derive(Clone, Copy)]
struct Answered {
    chip: Mos6581,
    answer: u64,
}

// What one clock gave: the outputs, or the refusal, and the bits that the bus lost.
#[derive(Clone, Copy)]
struct OneClock {
    chip: Mos6581,
    answer: u64,
    lost: u8,
}

// Three codes, then three levels, in one number.
fn together(outputs: [u64; 6]) -> u64 {
    outputs[0]
        | (outputs[1] << 12)
        | (outputs[2] << 24)
        | (outputs[3] << 36)
        | (outputs[4] << 44)
        | (outputs[5] << 52)
}

fn outputs(t: Ticked) -> OneClock {
    OneClock {
        chip: t.chip,
        answer: together([
            u64::from(t.code_0),
            u64::from(t.code_1),
            u64::from(t.code_2),
            u64::from(t.level_0),
            u64::from(t.level_1),
            u64::from(t.level_2),
        ]),
        lost: t.lost,
    }
}

// One clock: by the engine over the pack, or by the plain one, whose number is 0.
fn clocked(engine: u8, chip: Mos6581, pack: &[u16]) -> OneClock {
    if engine == 0 {
        return outputs(tick::tick(chip));
    }
    let r = tick::tick_packed(chip, pack);
    let gave = outputs(r.ticked);
    match r.answer {
        Ok(()) => gave,
        Err(refused) => OneClock {
            answer: cases::refusal(refused),
            ..gave
        },
    }
}

// The digest of one clock more.
fn with_clock(digest: u64, gave: OneClock) -> u64 {
    cases::mixed(cases::mixed(digest, gave.answer), u64::from(gave.lost))
}

// The chip is ticked so many times.
fn ticked(engine: u8, mut chip: Mos6581, clocks: u32, pack: &[u16]) -> Answered {
    let mut answer = 1;
    for _ in 0..clocks {
        let gave = clocked(engine, chip, pack);
        chip = gave.chip;
        answer = with_clock(answer, gave);
    }
    Answered { chip, answer }
}

// The chip is ticked so many times, and read after each.
fn watched(engine: u8, mut chip: Mos6581, address: u16, clocks: u32, pack: &[u16]) -> Answered {
    let mut answer = 1;
    for _ in 0..clocks {
        let gave = clocked(engine, chip, pack);
        let r = gave.chip.read(address);
        chip = r.chip;
        answer = cases::mixed(with_clock(answer, gave), u64::from(r.byte));
    }
    Answered { chip, answer }
}

fn told<T: Into<u64>>(answer: Result<T, Refused>) -> u64 {
    match answer {
        Ok(value) => value.into(),
        Err(refused) => cases::refusal(refused),
    }
}

// A chip's codes and levels after a run.
fn shown(chip: Mos6581) -> Answered {
    Answered {
        chip,
        answer: together([
            told(chip.code(0)),
            told(chip.code(1)),
            told(chip.code(2)),
            told(chip.level(0)),
            told(chip.level(1)),
            told(chip.level(2)),
        ]),
    }
}

// What was made over a pack, or the refusal.
fn ran(r: PackRan) -> Answered {
    match r.answer {
        Ok(()) => shown(r.chip),
        Err(refused) => Answered {
            chip: r.chip,
            answer: cases::refusal(refused),
        },
    }
}

// The chip is run so many clocks.
fn run(engine: u8, chip: Mos6581, clocks: u32, pack: &[u16]) -> Answered {
    if engine == 0 {
        shown(run::run(chip, u64::from(clocks)))
    } else {
        ran(run::run_packed(chip, u64::from(clocks), pack))
    }
}

// The outputs that are stored of one clock.
fn stored(six: &[u16]) -> u64
    requires { length six.now ≡ 6 }
{
    together(std::array::from_fn(|i| u64::from(six[i])))
}

// Whether the chip, ticked clock by clock, tells the outputs that are stored, and comes to the cycle of the one that was
// rendered.
fn as_ticked(mut chip: Mos6581, after: Mos6581, part: &[u16], out: &[u16]) -> bool {
    for six in out.chunks_exact(6) {
        let gave = outputs(tick::tick_over(chip, part));
        chip = gave.chip;
        if gave.answer != stored(six) {
            return false;
        }
    }
    chip.cycle == after.cycle
}

// What a render told; more than any outputs where the ticked chip tells others.
fn checked(before: Mos6581, gave: Answered, part: &[u16], out: &[u16]) -> Answered {
    if as_ticked(before, gave.chip, part, out) {
        return gave;
    }
    Answered {
        answer: 1 << 63,
        ..gave
    }
}

// Into a buffer, over a part of the pack: by the call that refuses all parts but the whole, or by the one that takes any.
// Returned where it is made: chosen by an `if`, the chip is copied once more.
fn render(strict: bool, before: Mos6581, part: &[u16], out: &mut [u16]) -> Answered {
    if !strict {
        return checked(
            before,
            shown(run::render_over(before, part, out)),
            part,
            out,
        );
    }
    let gave = ran(run::render(before, part, out));
    if part.len() != pack::LENGTH {
        return gave;
    }
    checked(before, gave, part, out)
}

fn fill(pack: &mut [u16]) -> u64 {
    match pack::fill(pack) {
        Ok(()) => 0,
        Err(refused) => cases::refusal(refused),
    }
}

// Numbers of sixteen bits; no two blocks are alike in their low twelve.
fn scatter(pack: &mut [u16]) {
    let mut spread: u64 = 1;
    for (at, entry) in pack.iter_mut().enumerate().rev() {
        spread = cases::mixed(spread, at as u64);
        *entry = (spread % 65536) as u16;
    }
}

// The block of selection 9.
fn spoil(pack: &mut [u16]) {
    if let Some(block) = pack.get_mut(16384..20480) {
        block.fill(23130);
    }
}

fn digest(pack: &[u16]) -> u64 {
    pack.iter()
        .rev()
        .fold(1, |answer, entry| cases::mixed(answer, u64::from(*entry)))
}

// The pack is filled, or laid or changed by a rule; the digest of what it has then.
fn packed(rule: u8, pack: &mut [u16]) -> u64 {
    match rule {
        0 => {
            fill(pack);
        }
        1 => pack.fill(65535),
        2 => scatter(pack),
        // the last entry comes first
        3 => pack.reverse(),
        _ => spoil(pack),
    }
    digest(pack)
}

// A buffer laid with numbers, and rendered into: a digest of all its entries, what was told, and the chip's cycle.
fn rendered(strict: bool, before: Mos6581, part: &[u16], out: &mut [u16]) -> Answered {
    scatter(out);
    let gave = render(strict, before, part, out);
    let told = cases::mixed(digest(out), gave.answer);
    Answered {
        chip: gave.chip,
        answer: cases::mixed(told, gave.chip.cycle),
    }
}

// So many entries of a buffer, over so many of the pack; no call asks for more than there are.
fn rendered_over(strict: bool, chip: Mos6581, length: u16, entries: u32, pack: &[u16]) -> Answered {
    let mut room = [0u16; 24581];
    match (
        pack.get(..length as usize),
        room.get_mut(..entries as usize),
    ) {
        (Some(part), Some(out)) => rendered(strict, chip, part, out),
        _ => silent(chip),
    }
}

// Whether a call was refused for the length of its pack, its chip as it was: no clock leaves the cycle alone.
fn kept(chip: Mos6581, after: Mos6581, answer: u64) -> bool {
    after.cycle == chip.cycle && answer == 15 << 32
}

// Whether a render over a part is refused, and stores nothing.
fn left_alone(chip: Mos6581, part: &[u16]) -> bool {
    let mut out = [0u16; 13];
    scatter(&mut out);
    let laid = digest(&out);
    let gave = render(true, chip, part, &mut out);
    digest(&out) == laid && kept(chip, gave.chip, gave.answer)
}

// Whether a part is refused by each call that takes a pack.
fn refused(chip: Mos6581, part: &mut [u16]) -> bool {
    let ticked = clocked(1, chip, part);
    let ran = run(1, chip, 1, part);
    kept(chip, ticked.chip, ticked.answer)
        && ticked.lost == 0
        && kept(chip, ran.chip, ran.answer)
        && left_alone(chip, part)
        && fill(part) == 15 << 32
}

// Parts of each length from the longest down to none: how many are not refused, the first of them, and a digest of the
// entries after all calls.
fn lengths(chip: Mos6581, longest: u16) -> u64 {
    let mut entries = [0u16; 65536];
    scatter(&mut entries);
    let mut tally = Tally::new();
    for length in (0..=longest as usize).rev() {
        tally = tally.count(refused(chip, &mut entries[..length]));
    }
    let found = (u64::from(tally.differ) << 32) | u64::from(tally.first.unwrap_or(0));
    cases::mixed(found, digest(&entries))
}

fn silent(chip: Mos6581) -> Answered {
    Answered { chip, answer: 0 }
}

fn read(chip: Mos6581, address: u16) -> Answered {
    let r = chip.read(address);
    Answered {
        chip: r.chip,
        answer: u64::from(r.byte),
    }
}

// The call of a record of 16 bytes. Its number and a rule's are read in one place alone, an engine's in two: enums of
// them would only be matches more.
fn made(record: &[u8], chip: Mos6581, pack: &mut [u16]) -> Answered {
    let value = words::u8_at(record, 1);
    let address = words::u16_at(record, 2);
    let clocks = words::u32_at(record, 4);
    match words::u8_at(record, 0) {
        0 => silent(Mos6581::new()),
        1 => silent(chip.reset()),
        2 => silent(chip.write(address, value)),
        3 => read(chip, address),
        4 => silent(chip.set_pot_x(value)),
        5 => silent(chip.set_pot_y(value)),
        6 => ticked(value, chip, clocks, pack),
        7 => watched(value, chip, address, clocks, pack),
        8 => run(value, chip, clocks, pack),
        9 => Answered {
            chip,
            answer: told(chip.code(value)),
        },
        10 => Answered {
            chip,
            answer: told(chip.level(value)),
        },
        11 => Answered {
            chip,
            answer: told(chip.held(value)),
        },
        12 => Answered {
            chip,
            answer: packed(value, pack),
        },
        13 => Answered {
            chip,
            answer: lengths(chip, address),
        },
        14 => rendered_over(true, chip, address, clocks, pack),
        _ => rendered_over(false, chip, address, clocks, pack),
    }
}

#[derive(Clone, Copy)]
struct Replayed {
    chip: Mos6581,
    tally: Tally,
}

impl Replayed {
    fn replay(mut self, list: &[u8], pack: &mut [u16]) -> Self {
        for record in list.chunks_exact(16) {
            let gave = made(record, self.chip, pack);
            self.chip = gave.chip;
            self.tally = self.tally.count(gave.answer == words::u64_at(record, 8));
        }
        self
    }
}

// A part holds whole calls; 2^20 parts are more than any list has.
fn replay_input() -> Tally {
    let mut list = [0u8; 65536];
    let mut pack = [0u16; pack::LENGTH];
    let mut replayed = Replayed {
        chip: Mos6581::new(),
        tally: Tally::new(),
    };
    for _ in 0..1u32 << 20 {
        let n = io::read_full(0, &mut list);
        if n == 0 {
            break;
        }
        replayed = replayed.replay(&list[..n], &mut pack);
    }
    replayed.tally
}

fn main() {
    cases::report(b"sid", replay_input());
}

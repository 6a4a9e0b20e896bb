// Scenes that tools/bench plays on this chip and on the original, for a program in another language to call. Each gives
// a digest of what it heard. Those over a pack are crate `bench_pack`'s, so that here `tick` has one caller, as in a
// program with one engine.
#![tactic(auto)]

ghost use Rattle.std.specs.Prelude.{◌≡◌};
ghost use Rattle.sid.specs.Sid.{fresh, ticked, ticks};
ghost use Rattle.scenes.specs.Scenes.{heard, scene, summed, stirred};
ghost use Rattle.bench.specs.Bench.{afloat, value_for};

use sid::Mos6581;

// No two waveforms at once: those settle afresh on each clock, which has scenes of its own.
#[tactic(auto, unfolding(crate::specs::Bench::value_for))]
fn value_for(register: u16, seed: u16) -> u8
    ensures { result ≡ value_for register seed }
{
    let byte = (seed / 256) as u8;
    if register % 7 == 4 {
        byte % 16 + (seed % 3 * 32) as u8
    } else {
        byte
    }
}

// A fresh chip left alone.
#[unsafe(no_mangle)]
pub extern "C" fn bench_idle(clocks: u64) -> u64
    ensures { result ≡ heard (ticks clocks fresh) }
{
    scenes::heard(run::run(Mos6581::new(), clocks))
}

// Three voices with one control byte, by `run`.
#[unsafe(no_mangle)]
pub extern "C" fn bench_run(control: u8, clocks: u64) -> u64
    ensures { result ≡ heard (ticks clocks (scene control)) }
{
    scenes::heard(run::run(scenes::scene(control), clocks))
}

// Three voices whose last codes are left on floating lines, by `run`.
#[tactic(auto, unfolding(crate::specs::Bench::afloat))]
#[unsafe(no_mangle)]
pub extern "C" fn bench_floats(control: u8, clocks: u64) -> u64
    ensures { result ≡ heard (ticks clocks (afloat control)) }
{
    let chip = run::run(scenes::scene(control), 100);
    let off = chip.write(0x04, 0x01).write(0x0b, 0x01).write(0x12, 0x01);
    scenes::heard(run::run(off, clocks))
}

// Three voices with one control byte, by `tick`, heard on every clock.
#[unsafe(no_mangle)]
pub extern "C" fn bench_ticks(control: u8, clocks: u64) -> u64
    ensures { result ≡ summed ticked clocks (scene control) }
{
    scenes::ticks_heard(scenes::scene(control), clocks)
}

// Writes to any of the voices' registers, some clocks apart. Its twin over a pack is `bench_pack_writes`: with closures
// for what differs, `make bench`'s rows of writes run more instructions, the chip being copied for each call.
#[unsafe(no_mangle)]
pub extern "C" fn bench_writes(seed: u16, writes: u64, apart: u64) -> u64
    ensures { result ≡ heard (stirred ticks value_for writes seed apart) }
{
    let mut chip = Mos6581::new();
    let mut x = seed;
    for _ in 0..writes {
        x = scenes::next(x);
        let register = x % 21;
        chip = chip.write(register, value_for(register, x));
        chip = run::run(chip, apart);
    }
    scenes::heard(chip)
}

// Scenes of tools/bench over a lent pack, beside the plain `tick` called as often: here the body of a tick has two
// callers.
#![tactic(auto)]

ghost use Rattle.std.specs.Prelude.{◌≡◌};
ghost use Rattle.sid.specs.Sid.{ticked};
ghost use Rattle.pack.specs.Pack.{pack_after};
ghost use Rattle.run.specs.Answers.{pack_ran};
ghost use Rattle.scenes.specs.Scenes.{heard, scene, summed, stirred};
ghost use Rattle.bench_pack.specs.BenchPack.{pack_tick, any_value};

use sid::Mos6581;

// A pack of another length stays as it is.
#[unsafe(no_mangle)]
pub extern "C" fn bench_pack_fill(pack: &mut [u16])
    ensures { pack.new ≡ pack_after pack.old }
{
    let _answer = pack::fill(pack);
}

// Three voices with one control byte, by `run_packed`.
#[unsafe(no_mangle)]
pub extern "C" fn bench_pack_run(control: u8, clocks: u64, pack: &[u16]) -> u64
    ensures { result ≡ heard (pack_ran pack.now clocks (scene control)) }
{
    scenes::heard(run::run_packed(scenes::scene(control), clocks, pack).chip)
}

// The same by `tick_packed`, heard on every clock: as `scenes::ticks_heard`, where it says why they are two.
#[unsafe(no_mangle)]
pub extern "C" fn bench_pack_ticks(control: u8, clocks: u64, pack: &[u16]) -> u64
    ensures { result ≡ summed (pack_tick pack.now) clocks (scene control) }
{
    let mut chip = scenes::scene(control);
    let mut sum: u64 = 0;
    for _ in 0..clocks {
        let t = tick::tick_packed(chip, pack).ticked;
        chip = t.chip;
        let d = scenes::digest(
            [t.code_0, t.code_1, t.code_2],
            [t.level_0, t.level_1, t.level_2],
        );
        sum = sum.wrapping_add(d);
    }
    sum
}

// The same by the plain `tick`.
#[unsafe(no_mangle)]
pub extern "C" fn bench_both_ticks(control: u8, clocks: u64) -> u64
    ensures { result ≡ summed ticked clocks (scene control) }
{
    scenes::ticks_heard(scenes::scene(control), clocks)
}

// Any byte to any of the voices' registers, some clocks apart, by `run_packed`: as `bench_writes`, where it says why
// they are two.
#[unsafe(no_mangle)]
pub extern "C" fn bench_pack_writes(seed: u16, writes: u64, apart: u64, pack: &[u16]) -> u64
    ensures { result ≡ heard (stirred (pack_ran pack.now) any_value writes seed apart) }
{
    let mut chip = Mos6581::new();
    let mut x = seed;
    for _ in 0..writes {
        x = scenes::next(x);
        chip = chip.write(x % 21, (x / 256) as u8);
        chip = run::run_packed(chip, apart, pack).chip;
    }
    scenes::heard(chip)
}

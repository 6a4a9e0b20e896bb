// What the scenes of tools/bench share: three tuned voices, and digests of what is heard of a chip.
#![tactic(auto)]

ghost use Rattle.std.specs.Prelude.{◌≡◌, ◌<◌, slice_index};
ghost use Rattle.sid.specs.Sid.{ticked};
ghost use Rattle.scenes.specs.Scenes.{digest, heard, tuned, scene, next, summed};

use sid::Mos6581;

// Codes and levels in one number.
#[tactic(auto, unfolding(crate::specs::Scenes::digest))]
pub fn digest(codes: [u16; 3], levels: [u8; 3]) -> u64
    ensures { result ≡ digest (slice_index codes 0) (slice_index codes 1) (slice_index codes 2) (slice_index levels 0) (slice_index levels 1) (slice_index levels 2) }
{
    let [code_0, code_1, code_2] = codes.map(u64::from);
    let [level_0, level_1, level_2] = levels.map(u64::from);
    let codes = code_0 + code_1 * 4096 + code_2 * 16777216;
    codes + (level_0 + level_1 * 256 + level_2 * 65536) * 549755813888
}

#[tactic(auto, unfolding(crate::specs::Scenes::heard))]
pub fn heard(chip: Mos6581) -> u64
    ensures { result ≡ heard chip }
{
    digest(
        [
            chip.voice_0.oscillator.tone.last_sample,
            chip.voice_1.oscillator.tone.last_sample,
            chip.voice_2.oscillator.tone.last_sample,
        ],
        [
            chip.voice_0.envelope.volume,
            chip.voice_1.envelope.volume,
            chip.voice_2.envelope.volume,
        ],
    )
}

// One voice: its frequency, half a pulse, a middling envelope, and last its control register.
#[tactic(auto, unfolding(crate::specs::Scenes::tuned))]
fn tune(chip: Mos6581, base: u16, frequency: u16, control: u8) -> Mos6581
    requires { base < 15 }
    ensures { result ≡ tuned chip base frequency control }
{
    chip.write(base, (frequency % 256) as u8)
        .write(base + 1, (frequency / 256) as u8)
        .write(base + 2, 0x00)
        .write(base + 3, 0x08)
        .write(base + 5, 0x29)
        .write(base + 6, 0xa9)
        .write(base + 4, control)
}

#[tactic(auto, unfolding(crate::specs::Scenes::scene))]
pub fn scene(control: u8) -> Mos6581
    ensures { result ≡ scene control }
{
    let one = tune(Mos6581::new(), 0, 0x1d45, control);
    let two = tune(one, 7, 0x2b11, control);
    tune(two, 14, 0x0f37, control)
}

#[tactic(auto, unfolding(crate::specs::Scenes::next))]
pub fn next(seed: u16) -> u16
    ensures { result ≡ next seed }
{
    seed.wrapping_mul(25173).wrapping_add(13849)
}

// The digests of single clocks by `tick`, summed. Its twin over a pack is `bench_pack_ticks`: one loop with a closure
// for the tick makes the rows of `tick` in `make bench` a sixth slower, since the chip is copied for each call.
pub fn ticks_heard(from: Mos6581, clocks: u64) -> u64
    ensures { result ≡ summed ticked clocks from }
{
    let mut chip = from;
    let mut sum: u64 = 0;
    for _ in 0..clocks {
        let t = tick::tick(chip);
        chip = t.chip;
        let d = digest(
            [t.code_0, t.code_1, t.code_2],
            [t.level_0, t.level_1, t.level_2],
        );
        sum = sum.wrapping_add(d);
    }
    sum
}

// The tail planner for tools/bench: forecasts of one level after another, and a run that waits for a voice.
#![tactic(auto)]

ghost use Rattle.std.specs.Prelude.{◌≡◌};
ghost use Rattle.refusals.specs.Refusals.{tells};
ghost use Rattle.oscillator.specs.Ways.{stepwise};
ghost use Rattle.scenes.specs.Scenes.{heard, scene};
ghost use Rattle.tail.specs.Tail.{ran_chip};
ghost use Rattle.bench_tail.specs.Bench.{at_level, clocks_told, forecasts};

use refusals::Refused;
use sid::Mos6581;

#[tactic(auto, unfolding(crate::specs::Bench::at_level))]
fn at_level(mut chip: Mos6581, level: u8) -> Mos6581
    ensures { result ≡ at_level chip level }
{
    chip.voice_0.envelope.volume = level;
    chip
}

fn clocks_told(forecast: Result<u32, Refused>) -> u64
    ensures { result ≡ clocks_told (tells forecast) }
{
    forecast.map_or(0, u64::from)
}

// A fresh chip's voice 0, at one level after another.
#[unsafe(no_mangle)]
pub extern "C" fn bench_forecasts(calls: u64) -> u64
    ensures { result ≡ forecasts calls }
{
    let chip = Mos6581::new();
    let mut sum: u64 = 0;
    for i in 0..calls {
        let told = clocks_told(tail::forecast(at_level(chip, (i % 256) as u8), 0));
        sum = sum.wrapping_add(told);
    }
    sum
}

// Three voices with one control byte, to where the first is held.
#[unsafe(no_mangle)]
pub extern "C" fn bench_to_held(control: u8, clocks: u32) -> u64
    ensures { result ≡ heard (ran_chip stepwise (scene control) 0 clocks) }
{
    scenes::heard(tail::run_to_held(scenes::scene(control), 0, clocks).chip)
}

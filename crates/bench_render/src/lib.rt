// Scenes of tools/bench that are rendered: calls of `render` one after the other, all into the same buffer.
#![tactic(auto)]

ghost use Rattle.std.specs.Prelude.{◌≡◌};
ghost use Rattle.laws.specs.Times.{times};
ghost use Rattle.sid.specs.Sid.{fresh};
ghost use Rattle.run.specs.Answers.{pack_ran};
ghost use Rattle.run.specs.Render.{clocks_in};
ghost use Rattle.scenes.specs.Scenes.{heard};
ghost use Rattle.bench_render.specs.BenchRender.{mixed, stored};

use sid::Mos6581;

fn render_times(from: Mos6581, calls: u64, pack: &[u16], out: &mut [u16]) -> Mos6581
    ensures { (result ≡ times calls (pack_ran pack.now (clocks_in out.old)) from) × (out.new ≡ stored pack.now calls from out.old) }
{
    let mut chip = from;
    for _ in 0..calls {
        chip = run::render(chip, pack, out).chip;
    }
    chip
}

// A fresh chip left alone.
#[unsafe(no_mangle)]
pub extern "C" fn bench_render_idle(calls: u64, pack: &[u16], out: &mut [u16]) -> u64
    ensures { (result ≡ heard (times calls (pack_ran pack.now (clocks_in out.old)) fresh)) × (out.new ≡ stored pack.now calls fresh out.old) }
{
    scenes::heard(render_times(Mos6581::new(), calls, pack, out))
}

// Three voices, each with a control byte of its own.
#[unsafe(no_mangle)]
#[tactic(auto, unfolding(crate::specs::BenchRender::mixed))]
pub extern "C" fn bench_render(
    control_0: u8,
    control_1: u8,
    control_2: u8,
    calls: u64,
    pack: &[u16],
    out: &mut [u16],
) -> u64
    ensures { (result ≡ heard (times calls (pack_ran pack.now (clocks_in out.old)) (mixed control_0 control_1 control_2))) × (out.new ≡ stored pack.now calls (mixed control_0 control_1 control_2) out.old) }
{
    let chip = scenes::scene(control_0)
        .write(0x0b, control_1)
        .write(0x12, control_2);
    scenes::heard(render_times(chip, calls, pack, out))
}

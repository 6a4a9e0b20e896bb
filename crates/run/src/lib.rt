// Any number of clocks in one loop, which also stores what is heard of them where it is lent room. The parts of the
// voices stand in locals of their own, what control decides is worked out ahead, and an array is touched only where
// something is due.
#![tactic(auto)]

ghost use Rattle.std.specs.Prelude.{◌≡◌, ◌+◌, ◌≤◌, length};
ghost use Rattle.std.proofs.lemmas.List.Edits.{sets};
ghost use Rattle.refusals.specs.Refusals.{tells};
ghost use Rattle.sid.specs.Sid.{ticks, ticks_by};
ghost use Rattle.pack.specs.Pack.{refusal, over};
ghost use Rattle.run.specs.Answers.{pack_ran};
ghost use Rattle.run.specs.Render.{clocks_in, rendered_by, pack_rendered};
ghost use Rattle.run.specs.Loop.{stored_by};

use floating::FloatingBus;
use noise::NoiseGenerator;
use oscillator::Oscillator;
use refusals::Refused;
use sid::{Mos6581, Voice};
use wiring::Wiring;

// What a run, or a rendering, over a pack gives: where it is refused, the chip as it was. No Result: the caller gets
// its chip back then too.
#[derive(Clone, Copy, PartialEq, Eq, Debug)]
pub struct PackRan {
    pub chip: Mos6581,
    pub answer: Result<(), Refused>,
}

pub fn run(chip: Mos6581, n: u64) -> Mos6581
    ensures { result ≡ ticks n chip }
{
    let none = [0u16; 0];
    run_over(chip, n, &none)
}

pub fn run_packed(chip: Mos6581, n: u64, pack: &[u16]) -> PackRan
    ensures { (result.chip ≡ pack_ran pack.now n chip) × (tells result.answer ≡ refusal (length pack.now)) }
{
    if let Err(refused) = pack::check(pack) {
        return PackRan {
            chip,
            answer: Err(refused),
        };
    }
    PackRan {
        chip: run_over(chip, n, pack),
        answer: Ok(()),
    }
}

// Over a pack of any length: where it lacks the entry of a code, the code is settled afresh.
pub fn run_over(chip: Mos6581, n: u64, pack: &[u16]) -> Mos6581
    ensures { result ≡ ticks_by (over pack.now) n chip }
{
    let mut none = [0u16; 0];
    run_into(chip, n, pack, &mut none)
}

// As many clocks as `out` has room for, six numbers each: the three codes, then the three levels.
pub fn render(chip: Mos6581, pack: &[u16], out: &mut [u16]) -> PackRan
    ensures { (result.chip ≡ pack_ran pack.now (clocks_in out.old) chip) × (tells result.answer ≡ refusal (length pack.now)) × (out.new ≡ pack_rendered pack.now chip out.old) }
{
    if let Err(refused) = pack::check(pack) {
        return PackRan {
            chip,
            answer: Err(refused),
        };
    }
    PackRan {
        chip: render_over(chip, pack, out),
        answer: Ok(()),
    }
}

// The same over a pack of any length.
pub fn render_over(chip: Mos6581, pack: &[u16], out: &mut [u16]) -> Mos6581
    ensures { (result ≡ ticks_by (over pack.now) (clocks_in out.old) chip) × (out.new ≡ rendered_by (over pack.now) chip out.old) }
{
    let n = (out.len() / 6) as u64;
    run_into(chip, n, pack, out)
}

fn store(out: &mut [u16], at: usize, heard: [u16; 6])
    requires { at + 6 ≤ length out.old }
    ensures { out.new ≡ sets out.old at heard }
{
    out[at..at + 6].copy_from_slice(&heard);
}

// n clocks, of which the first are stored, as many as `out` has room for.
// Three voices written out, each part in a local: a loop or a call over them was slower (docs/PERFORMANCE.md).
fn run_into(chip: Mos6581, n: u64, pack: &[u16], out: &mut [u16]) -> Mos6581
    ensures { (result ≡ ticks_by (over pack.now) n chip) × (out.new ≡ stored_by (over pack.now) n chip out.old) }
{
    let mut data_bus = chip.data_bus;
    let mut cycle = chip.cycle;
    let control_0 = chip.voice_0.oscillator.control;
    let mut tone_0 = chip.voice_0.oscillator.tone;
    let mut noise_0 = chip.voice_0.oscillator.noise.numbers;
    let mut captured_0 = chip.voice_0.oscillator.noise.captured_charge;
    let mut charge_0 = chip.voice_0.oscillator.noise.charge;
    let mut floating_0 = chip.voice_0.oscillator.bus.numbers;
    let mut lines_0 = chip.voice_0.oscillator.bus.charge;
    let mut envelope_0 = chip.voice_0.envelope;
    let control_1 = chip.voice_1.oscillator.control;
    let mut tone_1 = chip.voice_1.oscillator.tone;
    let mut noise_1 = chip.voice_1.oscillator.noise.numbers;
    let mut captured_1 = chip.voice_1.oscillator.noise.captured_charge;
    let mut charge_1 = chip.voice_1.oscillator.noise.charge;
    let mut floating_1 = chip.voice_1.oscillator.bus.numbers;
    let mut lines_1 = chip.voice_1.oscillator.bus.charge;
    let mut envelope_1 = chip.voice_1.envelope;
    let control_2 = chip.voice_2.oscillator.control;
    let mut tone_2 = chip.voice_2.oscillator.tone;
    let mut noise_2 = chip.voice_2.oscillator.noise.numbers;
    let mut captured_2 = chip.voice_2.oscillator.noise.captured_charge;
    let mut charge_2 = chip.voice_2.oscillator.noise.charge;
    let mut floating_2 = chip.voice_2.oscillator.bus.numbers;
    let mut lines_2 = chip.voice_2.oscillator.bus.charge;
    let mut envelope_2 = chip.voice_2.envelope;
    let wiring_0 = Wiring::of(control_0);
    let wiring_1 = Wiring::of(control_1);
    let wiring_2 = Wiring::of(control_2);
    let syncs = control_0.sync_enabled | control_1.sync_enabled | control_2.sync_enabled;
    let mut quiet_0 = envelope_0.quiescent();
    let mut quiet_1 = envelope_1.quiescent();
    let mut quiet_2 = envelope_2.quiescent();
    let room = (out.len() / 6) as u64;
    for i in 0..n {
        // the bus
        if data_bus.value != 0 {
            data_bus = bus::lent_clock(data_bus);
        }
        // the cycle
        cycle = std::num::wrapping_add_u64(cycle, 1);
        // three phases, with the noise registers that they clock
        let old_0 = tone_0.accumulator;
        tone_0 = tone_0.clocked(control_0);
        let rising_0 = oscillator::rising(old_0, tone_0.accumulator);
        if noise_0.step_due(control_0.test_enabled, rising_0, cycle) {
            noise_0 = noise_0.step_once_lent(
                control_0.test_enabled,
                rising_0,
                cycle,
                &mut captured_0,
                &mut charge_0,
            );
        }
        let old_1 = tone_1.accumulator;
        tone_1 = tone_1.clocked(control_1);
        let rising_1 = oscillator::rising(old_1, tone_1.accumulator);
        if noise_1.step_due(control_1.test_enabled, rising_1, cycle) {
            noise_1 = noise_1.step_once_lent(
                control_1.test_enabled,
                rising_1,
                cycle,
                &mut captured_1,
                &mut charge_1,
            );
        }
        let old_2 = tone_2.accumulator;
        tone_2 = tone_2.clocked(control_2);
        let rising_2 = oscillator::rising(old_2, tone_2.accumulator);
        if noise_2.step_due(control_2.test_enabled, rising_2, cycle) {
            noise_2 = noise_2.step_once_lent(
                control_2.test_enabled,
                rising_2,
                cycle,
                &mut captured_2,
                &mut charge_2,
            );
        }
        // three envelopes
        if quiet_0 {
            envelope_0 = envelope_0.clock_quiet();
            quiet_0 = !envelope_0.matched_rate;
        } else {
            envelope_0 = envelope_0.clock();
            quiet_0 = envelope_0.quiescent();
        }
        if quiet_1 {
            envelope_1 = envelope_1.clock_quiet();
            quiet_1 = !envelope_1.matched_rate;
        } else {
            envelope_1 = envelope_1.clock();
            quiet_1 = envelope_1.quiescent();
        }
        if quiet_2 {
            envelope_2 = envelope_2.clock_quiet();
            quiet_2 = !envelope_2.matched_rate;
        } else {
            envelope_2 = envelope_2.clock();
            quiet_2 = envelope_2.quiescent();
        }
        // the voices in ring order: code, feedback, latch
        if wiring_0.off {
            if floating_0.leaks(cycle) {
                floating_0 = floating_0.sample_once_lent(cycle, &mut lines_0);
            }
            tone_0 = tone_0.compared(control_0).latched(floating_0.value % 4096);
        } else {
            let mut code_0 = wiring_0.code(tone_0, noise_0.visible, tone_2.accumulator);
            tone_0 = tone_0.compared(control_0);
            if wiring_0.combined {
                code_0 = wiring_0.loaded(pack, code_0);
                tone_0 = wiring_0.fed_back(tone_0, code_0);
                if wiring_0.couples {
                    noise::couple(&mut charge_0, code_0);
                }
                if wiring_0.pulls_down(noise_0, cycle) {
                    noise_0 = noise_0.pull_down_lent(code_0, cycle, &mut captured_0, &mut charge_0);
                }
            }
            tone_0 = tone_0.latched(code_0);
        }
        if wiring_1.off {
            if floating_1.leaks(cycle) {
                floating_1 = floating_1.sample_once_lent(cycle, &mut lines_1);
            }
            tone_1 = tone_1.compared(control_1).latched(floating_1.value % 4096);
        } else {
            let mut code_1 = wiring_1.code(tone_1, noise_1.visible, tone_0.accumulator);
            tone_1 = tone_1.compared(control_1);
            if wiring_1.combined {
                code_1 = wiring_1.loaded(pack, code_1);
                tone_1 = wiring_1.fed_back(tone_1, code_1);
                if wiring_1.couples {
                    noise::couple(&mut charge_1, code_1);
                }
                if wiring_1.pulls_down(noise_1, cycle) {
                    noise_1 = noise_1.pull_down_lent(code_1, cycle, &mut captured_1, &mut charge_1);
                }
            }
            tone_1 = tone_1.latched(code_1);
        }
        if wiring_2.off {
            if floating_2.leaks(cycle) {
                floating_2 = floating_2.sample_once_lent(cycle, &mut lines_2);
            }
            tone_2 = tone_2.compared(control_2).latched(floating_2.value % 4096);
        } else {
            let mut code_2 = wiring_2.code(tone_2, noise_2.visible, tone_1.accumulator);
            tone_2 = tone_2.compared(control_2);
            if wiring_2.combined {
                code_2 = wiring_2.loaded(pack, code_2);
                tone_2 = wiring_2.fed_back(tone_2, code_2);
                if wiring_2.couples {
                    noise::couple(&mut charge_2, code_2);
                }
                if wiring_2.pulls_down(noise_2, cycle) {
                    noise_2 = noise_2.pull_down_lent(code_2, cycle, &mut captured_2, &mut charge_2);
                }
            }
            tone_2 = tone_2.latched(code_2);
        }
        // synchronisation
        if syncs {
            let next_1 = sid::synced(tone_1, control_1, tone_0, control_0, tone_2);
            let next_2 = sid::synced(tone_2, control_2, tone_1, control_1, tone_0);
            tone_0 = sid::synced(tone_0, control_0, tone_2, control_2, tone_1);
            tone_1 = next_1;
            tone_2 = next_2;
        }
        // what is heard
        if i < room {
            let heard = [
                tone_0.last_sample,
                tone_1.last_sample,
                tone_2.last_sample,
                envelope_0.volume as u16,
                envelope_1.volume as u16,
                envelope_2.volume as u16,
            ];
            store(out, (i as usize) * 6, heard);
        }
    }
    Mos6581 {
        voice_0: Voice {
            oscillator: Oscillator {
                control: control_0,
                noise: NoiseGenerator {
                    numbers: noise_0,
                    captured_charge: captured_0,
                    charge: charge_0,
                },
                bus: FloatingBus {
                    numbers: floating_0,
                    charge: lines_0,
                },
                tone: tone_0,
            },
            envelope: envelope_0,
        },
        voice_1: Voice {
            oscillator: Oscillator {
                control: control_1,
                noise: NoiseGenerator {
                    numbers: noise_1,
                    captured_charge: captured_1,
                    charge: charge_1,
                },
                bus: FloatingBus {
                    numbers: floating_1,
                    charge: lines_1,
                },
                tone: tone_1,
            },
            envelope: envelope_1,
        },
        voice_2: Voice {
            oscillator: Oscillator {
                control: control_2,
                noise: NoiseGenerator {
                    numbers: noise_2,
                    captured_charge: captured_2,
                    charge: charge_2,
                },
                bus: FloatingBus {
                    numbers: floating_2,
                    charge: lines_2,
                },
                tone: tone_2,
            },
            envelope: envelope_2,
        },
        data_bus,
        pot_x: chip.pot_x,
        pot_y: chip.pot_y,
        cycle,
    }
}

// One clock of the chip (document 01; the Rust's `tick`), with one leak step where one is due (document 02, request 12).
// What is due is tested outside its call, so that a quiet clock touches no array.
#![tactic(auto)]

ghost use Rattle.std.specs.Prelude.{◌≡◌, length};
ghost use Rattle.bus.specs.Bus.{lost};
ghost use Rattle.refusals.specs.Refusals.{tells};
ghost use Rattle.sid.specs.Sid.{ticked, ticked_by};
ghost use Rattle.pack.specs.Pack.{refusal, over};
ghost use Rattle.tick.specs.Outputs.{outputs, pack_ticked};

use floating::FloatingBus;
use noise::NoiseGenerator;
use oscillator::Oscillator;
use refusals::{Refusal, Refused};
use sid::{Mos6581, Voice};

// What a tick gives: the chip after it, the codes and the levels of its voices, and the bits that its data bus lost.
// Six numbers by their names: a caller takes one or another of them, and nothing takes the six apart from the chip.
#[derive(Clone, Copy, PartialEq, Eq, Debug)]
pub struct Ticked {
    pub chip: Mos6581,
    pub code_0: u16,
    pub code_1: u16,
    pub code_2: u16,
    pub level_0: u8,
    pub level_1: u8,
    pub level_2: u8,
    pub lost: u8,
}

// What a tick over a pack gives: where it is refused, the chip as it was. No Result: the caller gets its
// chip back then too.
#[derive(Clone, Copy, PartialEq, Eq, Debug)]
pub struct PackTicked {
    pub ticked: Ticked,
    pub answer: Result<(), Refused>,
}

pub fn tick(chip: Mos6581) -> Ticked
    ensures { result ≡ outputs (lost chip.data_bus) (ticked chip) }
{
    let none = [0u16; 0];
    tick_over(chip, &none)
}

pub fn tick_packed(chip: Mos6581, pack: &[u16]) -> PackTicked
    ensures { (result.ticked ≡ pack_ticked pack.now chip) × (tells result.answer ≡ refusal (length pack.now)) }
{
    // Not by `pack::check` nor by a function that reads the chip: a clock would copy the chip once more.
    if pack.len() != pack::LENGTH {
        let ticked = Ticked {
            chip,
            code_0: chip.voice_0.oscillator.tone.last_sample,
            code_1: chip.voice_1.oscillator.tone.last_sample,
            code_2: chip.voice_2.oscillator.tone.last_sample,
            level_0: chip.voice_0.envelope.volume,
            level_1: chip.voice_1.envelope.volume,
            level_2: chip.voice_2.envelope.volume,
            lost: 0,
        };
        return PackTicked {
            ticked,
            answer: Err(Refusal::PackLength.at(0)),
        };
    }
    PackTicked {
        ticked: tick_over(chip, pack),
        answer: Ok(()),
    }
}

// Over a pack of any length: where it lacks the entry of a code, the code is settled afresh.
// Three voices written out, each part in a local: a loop or a call over them was slower (docs/PERFORMANCE.md).
pub fn tick_over(chip: Mos6581, pack: &[u16]) -> Ticked
    ensures { result ≡ outputs (lost chip.data_bus) (ticked_by (over pack.now) chip) }
{
    let mut data_bus = chip.data_bus;
    let control_0 = chip.voice_0.oscillator.control;
    let mut tone_0 = chip.voice_0.oscillator.tone;
    let mut noise_0 = chip.voice_0.oscillator.noise.numbers;
    let mut captured_0 = chip.voice_0.oscillator.noise.captured_charge;
    let mut charge_0 = chip.voice_0.oscillator.noise.charge;
    let mut floating_0 = chip.voice_0.oscillator.bus.numbers;
    let mut lines_0 = chip.voice_0.oscillator.bus.charge;
    let mut envelope_0 = chip.voice_0.envelope;
    let control_1 = chip.voice_1.oscillator.control;
    let mut tone_1 = chip.voice_1.oscillator.tone;
    let mut noise_1 = chip.voice_1.oscillator.noise.numbers;
    let mut captured_1 = chip.voice_1.oscillator.noise.captured_charge;
    let mut charge_1 = chip.voice_1.oscillator.noise.charge;
    let mut floating_1 = chip.voice_1.oscillator.bus.numbers;
    let mut lines_1 = chip.voice_1.oscillator.bus.charge;
    let mut envelope_1 = chip.voice_1.envelope;
    let control_2 = chip.voice_2.oscillator.control;
    let mut tone_2 = chip.voice_2.oscillator.tone;
    let mut noise_2 = chip.voice_2.oscillator.noise.numbers;
    let mut captured_2 = chip.voice_2.oscillator.noise.captured_charge;
    let mut charge_2 = chip.voice_2.oscillator.noise.charge;
    let mut floating_2 = chip.voice_2.oscillator.bus.numbers;
    let mut lines_2 = chip.voice_2.oscillator.bus.charge;
    let mut envelope_2 = chip.voice_2.envelope;
    // the bus, and the bits that it loses: an empty one is not clocked, and its byte says none
    let mut lost = data_bus.value;
    if data_bus.value != 0 {
        data_bus = bus::lent_clock(data_bus);
        lost -= data_bus.value;
    }
    // the cycle
    let cycle = std::num::wrapping_add_u64(chip.cycle, 1);
    // three phases, with the noise registers that they clock
    let old_0 = tone_0.accumulator;
    tone_0 = tone_0.clocked(control_0);
    let rising_0 = oscillator::rising(old_0, tone_0.accumulator);
    if noise_0.step_due(control_0.test_enabled, rising_0, cycle) {
        noise_0 = noise_0.step_once_lent(
            control_0.test_enabled,
            rising_0,
            cycle,
            &mut captured_0,
            &mut charge_0,
        );
    }
    let old_1 = tone_1.accumulator;
    tone_1 = tone_1.clocked(control_1);
    let rising_1 = oscillator::rising(old_1, tone_1.accumulator);
    if noise_1.step_due(control_1.test_enabled, rising_1, cycle) {
        noise_1 = noise_1.step_once_lent(
            control_1.test_enabled,
            rising_1,
            cycle,
            &mut captured_1,
            &mut charge_1,
        );
    }
    let old_2 = tone_2.accumulator;
    tone_2 = tone_2.clocked(control_2);
    let rising_2 = oscillator::rising(old_2, tone_2.accumulator);
    if noise_2.step_due(control_2.test_enabled, rising_2, cycle) {
        noise_2 = noise_2.step_once_lent(
            control_2.test_enabled,
            rising_2,
            cycle,
            &mut captured_2,
            &mut charge_2,
        );
    }
    // three envelopes
    if envelope_0.quiescent() {
        envelope_0 = envelope_0.clock_quiet();
    } else {
        envelope_0 = envelope_0.clock();
    }
    if envelope_1.quiescent() {
        envelope_1 = envelope_1.clock_quiet();
    } else {
        envelope_1 = envelope_1.clock();
    }
    if envelope_2.quiescent() {
        envelope_2 = envelope_2.clock_quiet();
    } else {
        envelope_2 = envelope_2.clock();
    }
    // the voices in ring order: code, feedback, latch
    if control_0.sample_due(floating_0, cycle) {
        floating_0 = floating_0.sample_once_lent(cycle, &mut lines_0);
    }
    let mut code_0 = control_0.plain_code(
        tone_0,
        noise_0.visible,
        floating_0.value,
        tone_2.accumulator,
    );
    if control_0.loads_lines() {
        let at_0 = pack::entry(pack::base(control_0), code_0);
        if at_0 < pack.len() {
            code_0 = pack[at_0] % 4096;
        } else {
            code_0 = control_0.loaded_code(code_0);
        }
    }
    tone_0 = tone_0.sounded(control_0, code_0);
    if control_0.couples() {
        noise::couple(&mut charge_0, code_0);
    }
    if control_0.pulls_down(noise_0, cycle) {
        noise_0 = noise_0.pull_down_lent(code_0, cycle, &mut captured_0, &mut charge_0);
    }
    if control_1.sample_due(floating_1, cycle) {
        floating_1 = floating_1.sample_once_lent(cycle, &mut lines_1);
    }
    let mut code_1 = control_1.plain_code(
        tone_1,
        noise_1.visible,
        floating_1.value,
        tone_0.accumulator,
    );
    if control_1.loads_lines() {
        let at_1 = pack::entry(pack::base(control_1), code_1);
        if at_1 < pack.len() {
            code_1 = pack[at_1] % 4096;
        } else {
            code_1 = control_1.loaded_code(code_1);
        }
    }
    tone_1 = tone_1.sounded(control_1, code_1);
    if control_1.couples() {
        noise::couple(&mut charge_1, code_1);
    }
    if control_1.pulls_down(noise_1, cycle) {
        noise_1 = noise_1.pull_down_lent(code_1, cycle, &mut captured_1, &mut charge_1);
    }
    if control_2.sample_due(floating_2, cycle) {
        floating_2 = floating_2.sample_once_lent(cycle, &mut lines_2);
    }
    let mut code_2 = control_2.plain_code(
        tone_2,
        noise_2.visible,
        floating_2.value,
        tone_1.accumulator,
    );
    if control_2.loads_lines() {
        let at_2 = pack::entry(pack::base(control_2), code_2);
        if at_2 < pack.len() {
            code_2 = pack[at_2] % 4096;
        } else {
            code_2 = control_2.loaded_code(code_2);
        }
    }
    tone_2 = tone_2.sounded(control_2, code_2);
    if control_2.couples() {
        noise::couple(&mut charge_2, code_2);
    }
    if control_2.pulls_down(noise_2, cycle) {
        noise_2 = noise_2.pull_down_lent(code_2, cycle, &mut captured_2, &mut charge_2);
    }
    // synchronisation
    let next_1 = sid::synced(tone_1, control_1, tone_0, control_0, tone_2);
    let next_2 = sid::synced(tone_2, control_2, tone_1, control_1, tone_0);
    tone_0 = sid::synced(tone_0, control_0, tone_2, control_2, tone_1);
    tone_1 = next_1;
    tone_2 = next_2;
    let after = Mos6581 {
        voice_0: Voice {
            oscillator: Oscillator {
                control: control_0,
                noise: NoiseGenerator {
                    numbers: noise_0,
                    captured_charge: captured_0,
                    charge: charge_0,
                },
                bus: FloatingBus {
                    numbers: floating_0,
                    charge: lines_0,
                },
                tone: tone_0,
            },
            envelope: envelope_0,
        },
        voice_1: Voice {
            oscillator: Oscillator {
                control: control_1,
                noise: NoiseGenerator {
                    numbers: noise_1,
                    captured_charge: captured_1,
                    charge: charge_1,
                },
                bus: FloatingBus {
                    numbers: floating_1,
                    charge: lines_1,
                },
                tone: tone_1,
            },
            envelope: envelope_1,
        },
        voice_2: Voice {
            oscillator: Oscillator {
                control: control_2,
                noise: NoiseGenerator {
                    numbers: noise_2,
                    captured_charge: captured_2,
                    charge: charge_2,
                },
                bus: FloatingBus {
                    numbers: floating_2,
                    charge: lines_2,
                },
                tone: tone_2,
            },
            envelope: envelope_2,
        },
        data_bus,
        pot_x: chip.pot_x,
        pot_y: chip.pot_y,
        cycle,
    };
    Ticked {
        chip: after,
        code_0: tone_0.last_sample,
        code_1: tone_1.last_sample,
        code_2: tone_2.last_sample,
        level_0: envelope_0.volume,
        level_1: envelope_1.volume,
        level_2: envelope_2.volume,
        lost,
    }
}

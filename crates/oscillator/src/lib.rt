// The oscillator of one voice (document 01, 'Oscillator'; oscillator.rs): phase, pulse, noise register, floating lines.
// The Rust's fields stand in two structs of numbers, `Control` (what the registers say) and `Tone` (what a clock
// changes), beside the noise register and the floating lines. A caller's loop holds these apart and uses what `Control`
// and `Tone` have; `Oscillator` has the Rust's methods. The cycle is the caller's: a method that needs it takes the
// present one, but `clock_accumulator` the one after it.
#![tactic(auto)]

ghost use Rattle.std.specs.Prelude.{◌≡◌};
ghost use Rattle.oscillator.specs.Selection.{select, is_off, has, is_combined, joined, combined};
ghost use Rattle.oscillator.specs.Oscillator.{fresh, rising, clocked_tone, clocked, phase, rings, triangle_phase, pulse, compared_tone, ideal, waveform_at, code, loads_lines, loaded_code, sampled_bus, evaluated, feeds_back, fed_back_tone, fed_back, latched_tone, couples, noise_is_driven, pulls_down, coupled_noise, pulled_noise, latched_noise, latched_code, written_control, written_bus, exit_loaded, tested_noise, reset_phase, tested_tone, written, written_frequency_lo, written_frequency_hi, written_pulse_width_lo, written_pulse_width_hi, read_output, output_is_frozen, synchronised};
ghost use Rattle.oscillator.specs.Loop.{plain_code, sample_due};

use floating::{Floating, FloatingBus};
use noise::{Noise, NoiseGenerator};

#[derive(Clone, Copy, PartialEq, Eq, Debug)]
pub struct WaveformSelect {
    pub raw: u8,
}

#[derive(Clone, Copy, PartialEq, Eq, Debug)]
pub struct Control {
    pub frequency: u16,
    pub pulse_width: u16,
    pub waveform: u8,
    pub sync_enabled: bool,
    pub ring_enabled: bool,
    pub test_enabled: bool,
}

// These two are laid out for speed (docs/PERFORMANCE.md).
#[derive(Clone, Copy, PartialEq, Eq, Debug)]
pub struct Tone {
    pub accumulator: u32,
    pub msb_rising: bool,
    pub readback: u16,
    pub pulse_output: u16,
    pub last_sample: u16,
}

#[derive(Clone, Copy, PartialEq, Eq, Debug)]
pub struct Oscillator {
    pub control: Control,
    pub noise: NoiseGenerator,
    pub bus: FloatingBus,
    pub tone: Tone,
}

#[derive(Clone, Copy, PartialEq, Eq, Debug)]
pub struct Evaluated {
    pub code: u16,
    pub oscillator: Oscillator,
}

const PHASE_MASK: u32 = 0x00ff_ffff;

const PHASE_RESET_VALUE: u32 = 0x0055_5555;

const WAVEFORM_MASK: u16 = 0x0fff;

const WAVEFORM_PIPELINE_RESET_VALUE: u16 = 0x0000;

const SYNC_EVENT_MASK: u32 = 0x0080_0000;

const COMBINED_WAVEFORM_MSB_CLEAR_MASK: u32 = 0x007f_ffff;

const NOISE_PULSE_TRANSFER_RETAINED_LINES: u16 = 0x0f8f;

impl WaveformSelect {
    // No From: it drops the upper four bits.
    pub fn from_raw(raw: u8) -> WaveformSelect
        ensures { result ≡ select raw }
    {
        WaveformSelect { raw: raw & 0x0f }
    }

    pub fn is_off(self) -> bool
        ensures { result ≡ is_off self }
    {
        self.raw == 0
    }

    pub fn has(self, flag: u8) -> bool
        ensures { result ≡ has self flag }
    {
        self.raw & flag != 0
    }

    pub fn is_combined(self) -> bool
        ensures { result ≡ is_combined self }
    {
        waveforms::needs_line_loading(self.raw)
    }

    fn join(self, flag: u8, wave: u16, lines: u16) -> u16
        ensures { result ≡ joined self flag wave lines }
    {
        if self.has(flag) { lines & wave } else { lines }
    }

    pub fn combine(self, tri: u16, saw: u16, pulse: u16, noise: u16, open_bus: u16) -> u16
        ensures { result ≡ combined self tri saw pulse noise open_bus }
    {
        if self.is_off() {
            return open_bus;
        }
        let a = self.join(0x01, tri, WAVEFORM_MASK);
        let b = self.join(0x02, saw, a);
        let c = self.join(0x04, pulse, b);
        self.join(0x08, noise, c)
    }
}

// Two numbers and no struct: this is public, and `tick` and `run` call it on every clock with two locals.
pub fn rising(old_acc: u32, new_acc: u32) -> u32
    ensures { result ≡ rising old_acc new_acc }
{
    (!old_acc) & new_acc
}

impl Control {
    fn selected(self) -> WaveformSelect
        ensures { result ≡ select self.waveform }
    {
        WaveformSelect::from_raw(self.waveform)
    }

    // `waveform_at_phase`, in five parts.
    fn rings(self, modulator_acc: u32) -> bool
        ensures { result ≡ rings self modulator_acc }
    {
        let sel = self.selected();
        self.ring_enabled && sel.has(0x01) && !sel.has(0x02) && modulator_acc & SYNC_EVENT_MASK == 0
    }

    fn triangle_phase(self, phase: u16, modulator_acc: u32) -> u16
        ensures { result ≡ triangle_phase self phase modulator_acc }
    {
        if self.rings(modulator_acc) {
            return phase ^ 0x0800;
        }
        phase
    }

    fn pulse(self, tone: Tone) -> u16
        ensures { result ≡ pulse self tone }
    {
        if self.test_enabled {
            return WAVEFORM_MASK;
        }
        tone.pulse_output
    }

    fn ideal(self, tone: Tone, visible: u16, modulator_acc: u32) -> u16
        ensures { result ≡ ideal self tone visible modulator_acc }
    {
        let phase = tone.phase();
        let triangle = waveforms::triangle_from_phase(self.triangle_phase(phase, modulator_acc));
        self.selected().combine(triangle, phase, self.pulse(tone), visible, tone.last_sample)
    }

    fn waveform_at_phase(self, tone: Tone, visible: u16, modulator_acc: u32) -> u16
        ensures { result ≡ waveform_at self tone visible modulator_acc }
    {
        let ideal = self.ideal(tone, visible, modulator_acc);
        if self.loads_lines() {
            return self.loaded_code(ideal);
        }
        ideal & WAVEFORM_MASK
    }

    // The code that `evaluate_output` gives, with what noise and floating lines show.
    pub fn code(self, tone: Tone, visible: u16, floats: u16, modulator_acc: u32) -> u16
        ensures { result ≡ code self tone visible floats modulator_acc }
    {
        if self.selected().is_off() {
            return floats & WAVEFORM_MASK;
        }
        self.waveform_at_phase(tone, visible, modulator_acc)
    }

    // `code` in three: a caller's loop keeps the settling apart. The code before lines are loaded, whether they are,
    // and the code then.
    pub fn plain_code(self, tone: Tone, visible: u16, floats: u16, modulator_acc: u32) -> u16
        ensures { result ≡ plain_code self tone visible floats modulator_acc }
    {
        if self.selected().is_off() {
            return floats & WAVEFORM_MASK;
        }
        self.ideal(tone, visible, modulator_acc) & WAVEFORM_MASK
    }

    pub fn loads_lines(self) -> bool
        ensures { result ≡ loads_lines self }
    {
        let sel = self.selected();
        sel.raw != 0x09 && waveforms::needs_line_loading(sel.raw)
    }

    pub fn loaded_code(self, plain: u16) -> u16
        ensures { result ≡ loaded_code self plain }
    {
        waveforms::settled_code(self.selected().raw, plain) & WAVEFORM_MASK
    }

    // Whether `evaluate_output` leaks the floating lines.
    pub fn sample_due(self, floating: Floating, cycle: u64) -> bool
        ensures { result ≡ sample_due self floating cycle }
    {
        self.selected().is_off() && floating.leaks(cycle)
    }

    fn feeds_back(self, output: u16) -> bool
        ensures { result ≡ feeds_back self output }
    {
        let sel = self.selected();
        sel.has(0x02) && sel.is_combined() && output & 0x0800 == 0
    }

    // The tests of `latch_output`.
    pub fn couples(self) -> bool
        ensures { result ≡ couples self }
    {
        let sel = self.selected();
        self.test_enabled && sel.raw & 0x0c == 0x0c && sel.has(0x03)
    }

    pub fn noise_is_driven(self) -> bool
        ensures { result ≡ noise_is_driven self }
    {
        let sel = self.selected();
        sel.has(0x08) && sel.has(0x07) && !self.test_enabled
    }

    pub fn pulls_down(self, noise: Noise, cycle: u64) -> bool
        ensures { result ≡ pulls_down self noise cycle }
    {
        let sel = self.selected();
        self.noise_is_driven() && (sel.raw != 0x0c || noise.pulse_load_aperture(cycle))
    }

    // The four fields of `write_control`.
    fn written(self, value: u8) -> Control
        ensures { result ≡ written_control self value }
    {
        Control {
            waveform: value >> 4,
            sync_enabled: value & 0x02 != 0,
            ring_enabled: value & 0x04 != 0,
            test_enabled: value & 0x08 != 0,
            ..self
        }
    }
}

impl Tone {
    pub fn phase(self) -> u16
        ensures { result ≡ phase self }
    {
        ((self.accumulator >> 12) % 4096) as u16
    }

    pub fn reset_phase(self) -> Tone
        ensures { result ≡ reset_phase self }
    {
        Tone {
            accumulator: 0,
            msb_rising: false,
            ..self
        }
    }

    // The numbers after `clock_accumulator`.
    pub fn clocked(self, control: Control) -> Tone
        ensures { result ≡ clocked_tone self control }
    {
        if control.test_enabled {
            return self.reset_phase();
        }
        let old_acc = self.accumulator;
        let new_acc = old_acc.wrapping_add(control.frequency as u32) & PHASE_MASK;
        Tone {
            accumulator: new_acc,
            msb_rising: rising(old_acc, new_acc) & SYNC_EVENT_MASK != 0,
            ..self
        }
    }

    // The numbers after `evaluate_output`.
    pub fn compared(mut self, control: Control) -> Tone
        ensures { result ≡ compared_tone self control }
    {
        self.pulse_output = if self.phase() >= control.pulse_width {
            WAVEFORM_MASK
        } else {
            0
        };
        self
    }

    // The numbers after `apply_combined_feedback`.
    pub fn fed_back(mut self, control: Control, output: u16) -> Tone
        ensures { result ≡ fed_back_tone self control output }
    {
        if control.feeds_back(output) {
            self.accumulator &= COMBINED_WAVEFORM_MSB_CLEAR_MASK;
            self.msb_rising = false;
        }
        self
    }

    // The numbers after `latch_output`.
    pub fn latched(self, latched: u16) -> Tone
        ensures { result ≡ latched_tone self latched }
    {
        Tone {
            last_sample: latched,
            readback: latched,
            ..self
        }
    }

    // What a code leaves: the numbers after `evaluate_output`, `apply_combined_feedback` and `latch_output`.
    pub fn sounded(self, control: Control, code: u16) -> Tone
        ensures { result ≡ latched_tone (fed_back_tone (compared_tone self control) control code) code }
    {
        self.compared(control).fed_back(control, code).latched(code)
    }

    // The phase in `write_control`. Old and new stand apart here and below: each takes another of the control's fields.
    fn tested(self, old_test: bool, new_test: bool) -> Tone
        ensures { result ≡ tested_tone self old_test new_test }
    {
        if new_test && !old_test {
            self.reset_phase()
        } else {
            self
        }
    }
}

// The floating lines in `evaluate_output`.
fn sampled_bus(bus: FloatingBus, control: Control, cycle: u64) -> FloatingBus
    ensures { result ≡ sampled_bus bus control cycle }
{
    if control.selected().is_off() {
        bus.sample(cycle)
    } else {
        bus
    }
}

// The floating lines in `write_control`.
fn written_bus(bus: FloatingBus, old_wave: u8, new_wave: u8, last: u16, cycle: u64) -> FloatingBus
    ensures { result ≡ written_bus bus old_wave new_wave last cycle }
{
    if old_wave == new_wave {
        bus
    } else if new_wave == 0 {
        FloatingBus::capture(last, cycle)
    } else {
        FloatingBus::reset()
    }
}

// The noise register in `write_control`: the load as test is left, then entry or exit.
fn exit_loaded(
    noise: NoiseGenerator,
    old_wave: u8,
    continuous_drivers: u8,
    last: u16,
    cycle: u64,
) -> NoiseGenerator
    ensures { result ≡ exit_loaded noise old_wave continuous_drivers last cycle }
{
    if continuous_drivers & 8 == 0 {
        noise
    } else if continuous_drivers & 3 != 0 {
        noise.pull_down(last, cycle)
    } else if continuous_drivers & 4 != 0 && old_wave & 3 != 0 {
        noise.pull_down(last | NOISE_PULSE_TRANSFER_RETAINED_LINES, cycle)
    } else {
        noise
    }
}

fn tested_noise(
    noise: NoiseGenerator,
    old: Control,
    new: Control,
    last: u16,
    cycle: u64,
) -> NoiseGenerator
    ensures { result ≡ tested_noise noise old new last cycle }
{
    match (old.test_enabled, new.test_enabled) {
        (true, false) => {
            let drivers = old.waveform & new.waveform;
            exit_loaded(noise, old.waveform, drivers, last, cycle).leave_test(cycle)
        }
        (false, true) => noise.enter_test(cycle),
        _ => noise,
    }
}

// The noise register in `latch_output`: the coupling, then the pull-down.
fn coupled_noise(noise: NoiseGenerator, control: Control, latched: u16) -> NoiseGenerator
    ensures { result ≡ coupled_noise noise control latched }
{
    if control.couples() {
        noise.load_pulse_coupling(latched)
    } else {
        noise
    }
}

fn pulled_noise(noise: NoiseGenerator, control: Control, latched: u16, cycle: u64) -> NoiseGenerator
    ensures { result ≡ pulled_noise noise control latched cycle }
{
    if control.pulls_down(noise.numbers, cycle) {
        noise.pull_down(latched, cycle)
    } else {
        noise
    }
}

fn latched_noise(
    noise: NoiseGenerator,
    control: Control,
    latched: u16,
    cycle: u64,
) -> NoiseGenerator
    ensures { result ≡ latched_noise noise control latched cycle }
{
    pulled_noise(
        coupled_noise(noise, control, latched),
        control,
        latched,
        cycle,
    )
}

impl Oscillator {
    // `new`, but for the phase.
    fn at_phase(accumulator: u32) -> Oscillator
        ensures { result ≡ fresh accumulator }
    {
        Oscillator {
            control: Control {
                frequency: 0,
                pulse_width: 0,
                waveform: 0,
                sync_enabled: false,
                ring_enabled: false,
                test_enabled: false,
            },
            tone: Tone {
                accumulator,
                msb_rising: false,
                last_sample: WAVEFORM_PIPELINE_RESET_VALUE,
                pulse_output: WAVEFORM_MASK,
                readback: WAVEFORM_PIPELINE_RESET_VALUE,
            },
            noise: NoiseGenerator::new(),
            bus: FloatingBus::new(),
        }
    }

    pub fn new() -> Oscillator
        ensures { result ≡ fresh 0x555555 }
    {
        Oscillator::at_phase(PHASE_RESET_VALUE)
    }

    pub fn reset(self) -> Oscillator
        ensures { result ≡ fresh self.tone.accumulator }
    {
        Oscillator::at_phase(self.tone.accumulator)
    }

    pub fn write_frequency_lo(mut self, value: u8) -> Oscillator
        ensures { result ≡ written_frequency_lo self value }
    {
        self.control.frequency = (self.control.frequency & 0xff00) | value as u16;
        self
    }

    pub fn write_frequency_hi(mut self, value: u8) -> Oscillator
        ensures { result ≡ written_frequency_hi self value }
    {
        self.control.frequency = (self.control.frequency & 0x00ff) | ((value as u16) << 8);
        self
    }

    pub fn write_pulse_width_lo(mut self, value: u8) -> Oscillator
        ensures { result ≡ written_pulse_width_lo self value }
    {
        self.control.pulse_width = (self.control.pulse_width & 0x0f00) | value as u16;
        self
    }

    pub fn write_pulse_width_hi(mut self, value: u8) -> Oscillator
        ensures { result ≡ written_pulse_width_hi self value }
    {
        self.control.pulse_width = (self.control.pulse_width & 0x00ff)
            | (((value % 16) as u16) << 8);
        self
    }

    pub fn write_control(mut self, value: u8, cycle: u64) -> Oscillator
        ensures { result ≡ written self value cycle }
    {
        let old = self.control;
        let last = self.tone.last_sample;
        let control = old.written(value);
        self.control = control;
        self.bus = written_bus(self.bus, old.waveform, control.waveform, last, cycle);
        self.tone = self.tone.tested(old.test_enabled, control.test_enabled);
        self.noise = tested_noise(self.noise, old, control, last, cycle);
        self
    }

    // `cycle` is the one that this clock makes: the Rust's goes up inside.
    pub fn clock_accumulator(mut self, cycle: u64) -> Oscillator
        ensures { result ≡ clocked self cycle }
    {
        let old_acc = self.tone.accumulator;
        self.tone = self.tone.clocked(self.control);
        let rising = rising(old_acc, self.tone.accumulator);
        self.noise = self.noise.step(self.control.test_enabled, rising, cycle);
        self
    }

    // The modulator's phase is another voice's and the cycle the chip's: public, and in no struct below the chip.
    pub fn evaluate_output(mut self, modulator_acc: u32, cycle: u64) -> Evaluated
        ensures { result ≡ evaluated self modulator_acc cycle }
    {
        self.bus = sampled_bus(self.bus, self.control, cycle);
        let code = self.control.code(
            self.tone,
            self.noise.numbers.visible,
            self.bus.numbers.value,
            modulator_acc,
        );
        self.tone = self.tone.compared(self.control);
        Evaluated {
            code,
            oscillator: self,
        }
    }

    pub fn apply_combined_feedback(mut self, output: u16) -> Oscillator
        ensures { result ≡ fed_back self output }
    {
        self.tone = self.tone.fed_back(self.control, output);
        self
    }

    pub fn latch_output(mut self, output: u16, cycle: u64) -> Oscillator
        ensures { result ≡ latched_code self output cycle }
    {
        let latched = output & WAVEFORM_MASK;
        self.noise = latched_noise(self.noise, self.control, latched, cycle);
        self.tone = self.tone.latched(latched);
        self
    }

    pub fn synchronise(mut self) -> Oscillator
        ensures { result ≡ synchronised self }
    {
        self.tone = self.tone.reset_phase();
        self
    }

    pub fn read_output(self) -> u8
        ensures { result ≡ read_output self }
    {
        ((self.tone.readback >> 4) % 256) as u8
    }

    pub fn output_is_frozen(self) -> bool
        ensures { result ≡ output_is_frozen self }
    {
        self.control.test_enabled && self.control.waveform == 0x04
    }

    pub fn phase(self) -> u16
        ensures { result ≡ phase self.tone }
    {
        self.tone.phase()
    }
}

// What a voice's control register decides for as long as it is not written: worked out once, ahead of a loop, which then
// asks on every clock for these names and for nothing else of the register.
#![tactic(auto)]

ghost use Rattle.std.specs.Prelude.{◌≡◌};
ghost use Rattle.wiring.specs.Wiring.{high, wired, rings_of, feeds_of, pulse_of, joined_at, code_of, loaded_of, fed_back_of, pulls_down_of};

use noise::Noise;
use oscillator::{Control, Tone, WaveformSelect};

#[derive(Clone, Copy, PartialEq, Eq, Debug)]
pub struct Wiring {
    pub selection: u8,
    // no waveform is selected, or two and more are
    pub off: bool,
    pub combined: bool,
    // the modulator turns the triangle, lines are loaded, a code feeds back into the phase
    pub rings: bool,
    pub loads: bool,
    pub feeds: bool,
    // a code is coupled into the noise register, or drives it
    pub couples: bool,
    pub drives: bool,
    // by waveform, the lines that it can't pull down: all where it is not selected
    pub triangle: u16,
    pub saw: u16,
    pub pulse: u16,
    pub noise: u16,
    // where the voice's block of a pack begins
    pub base: u16,
}

fn high(selected: bool) -> u16
    ensures { result ≡ high selected }
{
    if selected { 0 } else { 0x0fff }
}

fn rings(control: Control, sel: WaveformSelect) -> bool
    ensures { result ≡ rings_of control sel }
{
    control.ring_enabled && !sel.has(0x02) && sel.has(0x01)
}

fn feeds(sel: WaveformSelect) -> bool
    ensures { result ≡ feeds_of sel }
{
    sel.has(0x02) && sel.is_combined()
}

fn pulse(control: Control, sel: WaveformSelect) -> u16
    ensures { result ≡ pulse_of control sel }
{
    if control.test_enabled {
        0x0fff
    } else {
        high(sel.has(0x04))
    }
}

impl Wiring {
    #[tactic(auto, unfolding(crate::specs::Wiring::wired))]
    pub fn of(control: Control) -> Wiring
        ensures { result ≡ wired control }
    {
        let sel = WaveformSelect::from_raw(control.waveform);
        Wiring {
            selection: sel.raw,
            off: sel.is_off(),
            combined: sel.is_combined(),
            rings: rings(control, sel),
            loads: control.loads_lines(),
            feeds: feeds(sel),
            couples: control.couples(),
            drives: control.noise_is_driven(),
            triangle: high(sel.has(0x01)),
            saw: high(sel.has(0x02)),
            pulse: pulse(control, sel),
            noise: high(sel.has(0x08)),
            base: pack::base(control),
        }
    }

    #[tactic(auto, unfolding(crate::specs::Wiring::joined_at))]
    fn joined(self, triangle_phase: u16, tone: Tone, visible: u16) -> u16
        ensures { result ≡ joined_at self triangle_phase tone visible }
    {
        0x0fff
            & (waveforms::triangle_from_phase(triangle_phase) | self.triangle)
            & (tone.phase() | self.saw)
            & (tone.pulse_output | self.pulse)
            & (visible | self.noise)
    }

    // The code of a voice with a waveform, before its lines are loaded. Who does not ring asks nothing of the modulator:
    // codes that feed back would else wait for each other. So by one `if` in the other: joined by `&&` the two tests are
    // compiled into one that reads the modulator on every clock, and rows of `pack run` are slower. So it is in the
    // calls below.
    pub fn code(self, tone: Tone, visible: u16, modulator_acc: u32) -> u16
        ensures { result ≡ code_of self tone visible modulator_acc }
    {
        let phase = tone.phase();
        if self.rings {
            if modulator_acc & 0x0080_0000 == 0 {
                return self.joined(phase ^ 0x0800, tone, visible);
            }
            return self.joined(phase, tone, visible);
        }
        self.joined(phase, tone, visible)
    }

    // The code with its lines loaded: by the pack's entry, or settled where the pack has none.
    #[tactic(auto, unfolding(crate::specs::Wiring::loaded_of))]
    pub fn loaded(self, pack: &[u16], code: u16) -> u16
        ensures { result ≡ loaded_of self pack.now code }
    {
        if self.loads {
            let at = pack::entry(self.base, code);
            if at < pack.len() {
                return pack[at] % 4096;
            }
            return waveforms::settled_code(self.selection, code) % 4096;
        }
        code
    }

    pub fn fed_back(self, mut tone: Tone, code: u16) -> Tone
        ensures { result ≡ fed_back_of self tone code }
    {
        if self.feeds {
            if code & 0x0800 == 0 {
                tone.accumulator %= 0x0080_0000;
                tone.msb_rising = false;
            }
        }
        tone
    }

    pub fn pulls_down(self, noise: Noise, cycle: u64) -> bool
        ensures { result ≡ pulls_down_of self noise cycle }
    {
        if self.drives {
            if self.selection == 0x0c {
                return noise.pulse_load_aperture(cycle);
            }
            return true;
        }
        false
    }
}

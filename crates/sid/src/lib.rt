// The chip without filter and converter (document 01; sid.rs): register decode, reads, resets, synchronisation. Crates
// `tick` and `run` tick it.
#![tactic(auto)]

ghost use Rattle.std.specs.Prelude.{◌≡◌, ◌<◌, ◌≤◌, cond, MatchResult};
ghost use Rattle.oscillator.specs.Oscillator.{reset_phase};
ghost use Rattle.refusals.specs.Refusals.{refused, tells};
ghost use Rattle.sid.specs.Sid.{fresh_voice, fresh, reset_voice, reset, written_oscillator, written_envelope, written_voice, written_to, written, read_driven, read_at, with_pot_x, with_pot_y, syncs, code_of, level_of, held_of, voice_of, named};

use bus::InternalDataBus;
use envelope::Envelope;
use oscillator::{Control, Oscillator, Tone};
use refusals::{Refusal, Refused};

#[derive(Clone, Copy, PartialEq, Eq, Debug)]
pub struct Voice {
    pub oscillator: Oscillator,
    pub envelope: Envelope,
}

#[derive(Clone, Copy, PartialEq, Eq, Debug)]
pub struct Mos6581 {
    pub voice_0: Voice,
    pub voice_1: Voice,
    pub voice_2: Voice,
    pub data_bus: InternalDataBus,
    pub pot_x: u8,
    pub pot_y: u8,
    pub cycle: u64,
}

#[derive(Clone, Copy, PartialEq, Eq, Debug)]
pub struct Read {
    pub chip: Mos6581,
    pub byte: u8,
}

const POT_RESET_VALUE: u8 = 0xff;

// The voices' arms of the Rust's `write`, with `write_voice_control`: what reaches the oscillator, and what the envelope.
#[tactic(auto, unfolding(crate::specs::Sid::written_oscillator))]
fn write_oscillator(o: Oscillator, register: u8, value: u8, cycle: u64) -> Oscillator
    ensures { result ≡ written_oscillator o register value cycle }
{
    match register {
        0 => o.write_frequency_lo(value),
        1 => o.write_frequency_hi(value),
        2 => o.write_pulse_width_lo(value),
        3 => o.write_pulse_width_hi(value),
        4 => o.write_control(value, cycle),
        _ => o,
    }
}

#[tactic(auto, unfolding(crate::specs::Sid::written_envelope))]
fn write_envelope(e: Envelope, register: u8, value: u8) -> Envelope
    ensures { result ≡ written_envelope e register value }
{
    match register {
        4 => e.set_gate(value % 2 != 0),
        5 => e.set_attack_decay(value),
        6 => e.set_sustain_release(value),
        _ => e,
    }
}

impl Voice {
    fn new() -> Voice
        ensures { result ≡ fresh_voice }
    {
        Voice {
            oscillator: Oscillator::new(),
            envelope: Envelope::new(),
        }
    }

    #[tactic(auto, unfolding(crate::specs::Sid::reset_voice))]
    fn reset(self) -> Voice
        ensures { result ≡ reset_voice self }
    {
        Voice {
            oscillator: self.oscillator.reset(),
            envelope: self.envelope.reset(),
        }
    }

    #[tactic(auto, unfolding(crate::specs::Sid::written_voice))]
    fn write(self, register: u8, value: u8, cycle: u64) -> Voice
        ensures { result ≡ written_voice self register value cycle }
    {
        Voice {
            oscillator: write_oscillator(self.oscillator, register, value, cycle),
            envelope: write_envelope(self.envelope, register, value),
        }
    }

    // Which voice the Rust's `write` reaches.
    #[tactic(auto, unfolding(crate::specs::Sid::written_to))]
    fn write_to(self, number: u8, register: u8, value: u8, cycle: u64) -> Voice
        ensures { result ≡ written_to number self register value cycle }
    {
        if register / 7 == number {
            self.write(register % 7, value, cycle)
        } else {
            self
        }
    }
}

// The conditions of the Rust's `tick`, with the voice's source and the source's source as they were before any
// synchronisation. One `if` in the other: as one condition joined by `&&` the row 'run, triangles, ring and sync' is slower.
pub fn synced(
    tone: Tone,
    control: Control,
    source: Tone,
    source_control: Control,
    before: Tone,
) -> Tone
    ensures { result ≡ cond (syncs source.msb_rising control.sync_enabled source_control.sync_enabled before.msb_rising) (reset_phase tone) tone }
{
    if source.msb_rising {
        if control.sync_enabled {
            if source_control.sync_enabled {
                if before.msb_rising {
                    return tone;
                }
                return tone.reset_phase();
            }
            return tone.reset_phase();
        }
        return tone;
    }
    tone
}

impl Mos6581 {
    #[tactic(auto, unfolding(crate::specs::Sid::fresh))]
    pub fn new() -> Mos6581
        ensures { result ≡ fresh }
    {
        let voice = Voice::new();
        Mos6581 {
            voice_0: voice,
            voice_1: voice,
            voice_2: voice,
            data_bus: InternalDataBus::new(),
            pot_x: POT_RESET_VALUE,
            pot_y: POT_RESET_VALUE,
            cycle: 0,
        }
    }

    #[tactic(auto, unfolding(crate::specs::Sid::reset))]
    pub fn reset(mut self) -> Mos6581
        ensures { result ≡ reset self }
    {
        self.voice_0 = self.voice_0.reset();
        self.voice_1 = self.voice_1.reset();
        self.voice_2 = self.voice_2.reset();
        self.data_bus.reset();
        self.cycle = 0;
        self
    }

    #[tactic(auto, unfolding(crate::specs::Sid::written))]
    pub fn write(mut self, address: u16, value: u8) -> Mos6581
        ensures { result ≡ written self address value }
    {
        let register = (address % 32) as u8;
        self.data_bus.drive(value);
        self.voice_0 = self.voice_0.write_to(0, register, value, self.cycle);
        self.voice_1 = self.voice_1.write_to(1, register, value, self.cycle);
        self.voice_2 = self.voice_2.write_to(2, register, value, self.cycle);
        self
    }

    // The Rust's `read` where `direct` is some value.
    #[tactic(auto, unfolding(crate::specs::Sid::read_driven))]
    fn read_driven(mut self, value: u8) -> Read
        ensures { result ≡ read_driven self value }
    {
        let byte = self.data_bus.read_driven(value);
        Read { chip: self, byte }
    }

    #[tactic(auto, unfolding(crate::specs::Sid::read_at))]
    pub fn read(self, address: u16) -> Read
        ensures { result ≡ read_at self address }
    {
        match address % 32 {
            0x19 => self.read_driven(self.pot_x),
            0x1a => self.read_driven(self.pot_y),
            0x1b => self.read_driven(self.voice_2.oscillator.read_output()),
            0x1c => self.read_driven(self.voice_2.envelope.read_level()),
            _ => Read {
                chip: self,
                byte: self.data_bus.read_floating(),
            },
        }
    }

    pub fn set_pot_x(mut self, value: u8) -> Mos6581
        ensures { result ≡ with_pot_x self value }
    {
        self.pot_x = value;
        self
    }

    pub fn set_pot_y(mut self, value: u8) -> Mos6581
        ensures { result ≡ with_pot_y self value }
    {
        self.pot_y = value;
        self
    }

    // The voice of a number, or the refusal of a number above 2.
    #[tactic(auto, unfolding(crate::specs::Sid::voice_of))]
    pub fn voice(self, number: u8) -> Result<Voice, Refused>
        ensures { MatchResult result (λ v. (number ≤ 2) × (v ≡ voice_of self number)) (λ r. (2 < number) × (r ≡ refused Refusal.VoiceNumber 0)) }
    {
        match number {
            0 => Ok(self.voice_0),
            1 => Ok(self.voice_1),
            2 => Ok(self.voice_2),
            _ => Err(Refusal::VoiceNumber.at(0)),
        }
    }

    // Its code, the last latched.
    #[tactic(auto, unfolding(crate::specs::Sid::named))]
    pub fn code(self, voice: u8) -> Result<u16, Refused>
        ensures { tells result ≡ named self voice code_of }
    {
        Ok(self.voice(voice)?.oscillator.tone.last_sample)
    }

    #[tactic(auto, unfolding(crate::specs::Sid::named))]
    pub fn level(self, voice: u8) -> Result<u8, Refused>
        ensures { tells result ≡ named self voice level_of }
    {
        Ok(self.voice(voice)?.envelope.level())
    }

    #[tactic(auto, unfolding(crate::specs::Sid::named))]
    pub fn held(self, voice: u8) -> Result<bool, Refused>
        ensures { tells result ≡ named self voice held_of }
    {
        Ok(self.voice(voice)?.envelope.held())
    }
}

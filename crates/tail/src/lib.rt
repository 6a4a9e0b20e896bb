// When a voice is free (document 02, request 9): a forecast for a settled release, and a run that stops when a voice is
// held at zero.
#![tactic(auto)]

ghost use Rattle.std.specs.Prelude.{◌≡◌};
ghost use Rattle.refusals.specs.Refusals.{tells};
ghost use Rattle.oscillator.specs.Ways.{stepwise};
ghost use Rattle.sid.specs.Sid.{voice_of};
ghost use Rattle.pack.specs.Pack.{over};
ghost use Rattle.tail.specs.Tail.{forecast_of, ran_answer, ran_chip};

use envelope::Envelope;
use refusals::{Refusal, Refused};
use sid::Mos6581;

// The clocks that were run, and whether the voice is held after them: whether that stopped it.
#[derive(Clone, Copy, PartialEq, Eq, Debug)]
pub struct Ran {
    pub clocks: u32,
    pub stopped: bool,
}

// Where the run is refused, the chip is as it was. No Result: the caller gets its chip back then too.
#[derive(Clone, Copy, PartialEq, Eq, Debug)]
pub struct HeldRun {
    pub chip: Mos6581,
    pub answer: Result<Ran, Refused>,
}

// The envelope alone, here and into the caller: by `Mos6581::voice` a whole voice is copied, and a chip with it where
// one forecast follows another (docs/DESIGN-PASS.md, 'Twins').
#[tactic(auto, unfolding(sid::specs::Sid::voice_of))]
fn envelope_of(chip: Mos6581, voice: u8) -> Envelope
    ensures { result ≡ (voice_of chip voice).envelope }
{
    match voice {
        0 => chip.voice_0.envelope,
        1 => chip.voice_1.envelope,
        _ => chip.voice_2.envelope,
    }
}

// The clocks until a voice in settled release is held at zero.
#[tactic(auto, unfolding(crate::specs::Tail::forecast_of))]
#[inline(always)]
pub fn forecast(chip: Mos6581, voice: u8) -> Result<u32, Refused>
    ensures { tells result ≡ forecast_of chip voice }
{
    if 2 < voice {
        return Err(Refusal::VoiceNumber.at(0));
    }
    planner::last_step(envelope_of(chip, voice)).ok_or(Refusal::Unsettled.at(0))
}

// At most n clocks. Nothing in a tick but an envelope itself moves it, so that the loop of a run need not ask.
pub fn run_to_held(chip: Mos6581, voice: u8, n: u32) -> HeldRun
    ensures { (result.chip ≡ ran_chip stepwise chip voice n) × (tells result.answer ≡ ran_answer stepwise chip voice n) }
{
    run_to_held_over(chip, voice, n, &[])
}

// Over a pack of any length: where it lacks the entry of a code, the code is settled afresh.
#[tactic(auto, unfolding(crate::specs::Tail::ran_chip, crate::specs::Tail::ran_answer))]
pub fn run_to_held_over(chip: Mos6581, voice: u8, n: u32, pack: &[u16]) -> HeldRun
    ensures { (result.chip ≡ ran_chip (over pack.now) chip voice n) × (tells result.answer ≡ ran_answer (over pack.now) chip voice n) }
{
    if 2 < voice {
        return HeldRun {
            chip,
            answer: Err(Refusal::VoiceNumber.at(0)),
        };
    }
    let clocks = planner::held_within(envelope_of(chip, voice), n);
    let chip = run::run_over(chip, clocks as u64, pack);
    let stopped = envelope_of(chip, voice).held();
    HeldRun {
        chip,
        answer: Ok(Ran { clocks, stopped }),
    }
}

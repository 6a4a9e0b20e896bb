// Triangle and line loading (document 01, 'Oscillator' and 'Line loading'; waveforms.rs).
#![tactic(auto)]

mod constants;
mod offsets;

ghost use Rattle.std.specs.Prelude.{◌≡◌, ◌+◌, ◌*◌, ◌<◌, get_or};
ghost use Rattle.std.specs.Float.{nan};
ghost use Rattle.laws.specs.Build.{build};
ghost use Rattle.waveforms.specs.Waveforms.{triangle, power, powi, coupled, coupling, load_if, static_load_of, array_of, drivers, interaction_scale, charge_at, pulled, discharge, drained, pass, retained, code, settled_by, needs_loading, loaded};
ghost use Rattle.waveforms.specs.Offsets.{by_offset_of};

use constants::{
    COMBINED_WAVEFORM_DIRECTIONAL_SKEW_BY_SELECTION, COMBINED_WAVEFORM_DISTANCE_DECAY_BY_SELECTION,
    COMBINED_WAVEFORM_INTERACTION_GAIN, COMBINED_WAVEFORM_LOADING_SCALE,
    COMBINED_WAVEFORM_NEIGHBOUR_COUPLING, COMBINED_WAVEFORM_NOISE_LOAD,
    COMBINED_WAVEFORM_PULSE_LOAD, COMBINED_WAVEFORM_RETENTION_THRESHOLD_BY_SELECTION,
    COMBINED_WAVEFORM_SAW_LOAD, COMBINED_WAVEFORM_TRIANGLE_LOAD,
};
use offsets::{OFFSET_COUPLINGS, OFFSET_COUPLINGS_OF_3, OFFSET_COUPLINGS_OF_5};

#[tactic(auto, unfolding(crate::specs::Waveforms::triangle))]
pub fn triangle_from_phase(phase: u16) -> u16
    ensures { result ≡ triangle phase }
{
    let line = phase % 4096;
    let folded = if 0x07ff < line { 0x0fff - line } else { line };
    folded * 2
}

fn power(acc: f32, square: f32, exponent: u32) -> f32
    ensures { result ≡ power exponent acc square exponent }
{
    if exponent == 0 {
        return acc;
    }
    let acc = if exponent % 2 == 1 { acc * square } else { acc };
    power(acc, square * square, exponent / 2)
}

fn powi(base: f32, exponent: u32) -> f32
    ensures { result ≡ powi base exponent }
{
    power(1.0, base, exponent)
}

// The coupling of a source and a destination stands at `source * 12 + destination`.
#[derive(Clone, Copy, PartialEq, Debug)]
pub struct LineArray {
    pub selection: u8,
    pub coupling: [f32; 144],
    pub static_load: f32,
}

// The parts of the Rust's `LineArray::new`.

fn coupled(selection: u8, direction: f32, distance: u32) -> f32
    requires { 0 < distance }
    ensures { result ≡ coupled selection direction distance }
{
    let at = (selection % 16) as usize;
    let distance_decay = COMBINED_WAVEFORM_DISTANCE_DECAY_BY_SELECTION[at];
    COMBINED_WAVEFORM_NEIGHBOUR_COUPLING
        * powi(distance_decay, distance - 1)
        * (1.0 + direction * COMBINED_WAVEFORM_DIRECTIONAL_SKEW_BY_SELECTION[at])
}

#[tactic(auto, using(crate::proofs::Literals::is_zero, crate::proofs::Literals::is_one), unfolding(crate::specs::Waveforms::coupling))]
fn coupling(selection: u8, destination: u32, source: u32) -> f32
    ensures { result ≡ coupling selection destination source }
{
    if destination == source {
        0.0
    } else if source < destination {
        coupled(selection, -1.0, destination - source)
    } else {
        coupled(selection, 1.0, source - destination)
    }
}

// A coupling turns only on how far the destination lies above the source, from -11 to 11.
fn offset_couplings(selection: u8) -> [f32; 23]
    ensures { result ≡ by_offset_of selection }
{
    std::array::from_fn(move |k| coupling(selection, k as u32, 11))
}

fn ready_offset_couplings(selection: u8) -> [f32; 23]
    ensures { result ≡ by_offset_of selection }
{
    match selection % 16 {
        3 => OFFSET_COUPLINGS_OF_3,
        5 => OFFSET_COUPLINGS_OF_5,
        _ => OFFSET_COUPLINGS,
    }
}

#[tactic(auto, using(crate::proofs::Literals::is_zero), unfolding(crate::specs::Waveforms::load_if))]
fn load_if(on: bool, load: f32) -> f32
    ensures { result ≡ load_if on load }
{
    if on { load } else { 0.0 }
}

fn static_load(selection: u8) -> f32
    ensures { result ≡ static_load_of selection }
{
    load_if(selection % 2 == 1, COMBINED_WAVEFORM_TRIANGLE_LOAD)
        + load_if(selection / 2 % 2 == 1, COMBINED_WAVEFORM_SAW_LOAD)
        + load_if(selection / 4 % 2 == 1, COMBINED_WAVEFORM_PULSE_LOAD)
        + load_if(selection / 8 % 2 == 1, COMBINED_WAVEFORM_NOISE_LOAD)
}

impl LineArray {
    fn spread(selection: u8, by_offset: [f32; 23]) -> Self
        requires { by_offset ≡ by_offset_of selection }
        ensures { result ≡ array_of selection }
    {
        let mut coupling = [0.0f32; 144];
        // Row by row: one `from_fn` over all entries takes three times the instructions.
        for source in 0..12usize {
            coupling[source * 12..source * 12 + 12].copy_from_slice(
                &by_offset[11 - source..23 - source],
            );
        }
        Self {
            selection,
            coupling,
            static_load: static_load(selection),
        }
    }

    pub fn new(selection: u8) -> Self
        ensures { result ≡ array_of selection }
    {
        LineArray::spread(selection, offset_couplings(selection))
    }

    // For the tick, which works out no powers.
    fn ready(selection: u8) -> Self
        ensures { result ≡ array_of selection }
    {
        LineArray::spread(selection, ready_offset_couplings(selection))
    }
}

// The parts of the Rust's `LineArray::settle`.

fn drivers(selection: u8) -> u8
    ensures { result ≡ drivers selection }
{
    (selection % 16).count_ones() as u8
}

fn interaction_scale(selection: u8) -> f32
    ensures { result ≡ interaction_scale selection }
{
    let source_excess = (drivers(selection) as f32 - 2.0).max(0.0);
    1.0 + COMBINED_WAVEFORM_INTERACTION_GAIN * source_excess * source_excess
}

fn charges(value: u16) -> [f32; 12]
    ensures { result ≡ build (charge_at value) 12 }
{
    std::array::from_fn(move |bit| ((value >> bit) % 2) as f32)
}

#[tactic(auto, using(crate::proofs::Literals::is_zero, crate::proofs::Literals::is_one), unfolding(crate::specs::Waveforms::drained))]
fn drained(interaction: f32, loading: f32, previous: f32, discharge: f32) -> f32
    ensures { result ≡ drained interaction loading previous discharge }
{
    // Ahead of the test, so that no jump hangs on it.
    let left = (previous - discharge * interaction * loading).clamp(0.0, 1.0);
    if previous <= 0.0 { previous } else { left }
}

impl LineArray {
    fn add_source(&self, source: usize, previous: f32, discharge: [f32; 12]) -> [f32; 12]
        requires { source < 12 }
        ensures { result ≡ build (λ d. pulled (get_or discharge d nan) previous (get_or self.now.coupling (source * 12 + d) nan)) 12 }
    {
        let coupling = &self.coupling;
        std::array::from_fn(move |line| {
            discharge[line] + (1.0 - previous) * coupling[source * 12 + line]
        })
    }

    // Source by source for all lines at once, which is faster: each line still adds its sources in the Rust's order.
    fn discharges(&self, previous: &[f32; 12]) -> [f32; 12]
        ensures { result ≡ build (λ d. discharge self.now.coupling self.now.static_load previous.now d 12) 12 }
    {
        let mut sum = [self.static_load; 12];
        for (source, charge) in previous.iter().enumerate() {
            // Of its own name, since no proof is made of an array that is lent and given a call's result.
            let next = self.add_source(source, *charge, sum);
            sum = next;
        }
        sum
    }

    // Inlined into the loop of `settle`, its own loops would run half as fast.
    #[inline(never)]
    fn pass(&self, interaction: f32, loading: f32, previous: [f32; 12]) -> [f32; 12]
        ensures { result ≡ pass self.now.coupling self.now.static_load interaction loading previous }
    {
        let discharge = self.discharges(&previous);
        std::array::from_fn(move |line| {
            drained(interaction, loading, previous[line], discharge[line])
        })
    }
}

#[tactic(auto, unfolding(crate::specs::Waveforms::retained))]
fn retained(threshold: f32, level: f32, bit: usize) -> u16
    requires { bit < 12 }
    ensures { result ≡ retained threshold level bit }
{
    if level >= threshold { 1 << bit } else { 0 }
}

fn code(threshold: f32, charge: &[f32; 12]) -> u16
    ensures { result ≡ code threshold charge.now 12 }
{
    let mut output = 0u16;
    for (bit, level) in charge.iter().enumerate() {
        output += retained(threshold, *level, bit);
    }
    output
}

impl LineArray {
    pub fn settle(self, value: u16) -> u16
        ensures { result ≡ settled_by self value }
    {
        let at = (self.selection % 16) as usize;
        let interaction = interaction_scale(self.selection);
        let loading = COMBINED_WAVEFORM_LOADING_SCALE[at];
        let mut charge = charges(value);
        for _ in 0..3u8 {
            // Of its own name, as in `discharges`.
            let next = self.pass(interaction, loading, charge);
            charge = next;
        }
        code(
            COMBINED_WAVEFORM_RETENTION_THRESHOLD_BY_SELECTION[at],
            &charge,
        )
    }
}

pub fn needs_line_loading(waveform: u8) -> bool
    ensures { result ≡ needs_loading waveform }
{
    1 < drivers(waveform)
}

// The Rust's `apply_line_loading`, with no table.
pub fn settled_code(selection: u8, value: u16) -> u16
    ensures { result ≡ loaded selection value }
{
    if needs_line_loading(selection) {
        return LineArray::ready(selection).settle(value);
    }
    value % 4096
}

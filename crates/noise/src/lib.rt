// The noise register (document 01, 'Oscillator'; NoiseGenerator of oscillator.rs): 23 stages, each with a charge.
// Its numbers stand apart from the two arrays of charges, so that a caller's loop need not touch an array on a clock on
// which nothing happens: `Noise` has what asks and moves the numbers alone, the functions on one array stand beside it,
// and `NoiseGenerator` has the Rust's methods.
#![tactic(auto)]

ghost use Rattle.std.specs.Prelude.{◌≡◌, ◌<◌};
ghost use Rattle.laws.specs.Times.{times};
ghost use Rattle.noise.specs.Noise.{shown, fresh, entered_test, sampled, left_test, captures, capture_numbers, clocked, come, transfers, feedback, shifted_state, incoming, shifted_charge, shifted_numbers, transferred, recovered, relaxed_stage, relax_step, relaxed_times, relaxed, relaxed_once, low, drained, coupled_to, coupled, discharged_to, cleared_to, affects_capture, pulled_numbers, pulled_down, stepped, stepped_once, pulse_load_aperture};
ghost use Rattle.noise.specs.Loop.{generator, step_due};

#[derive(Clone, Copy, PartialEq, Eq, Debug)]
pub struct Noise {
    pub state: u32,
    pub visible: u16,
    pub captured: u32,
    pub transfer_at: u64,
    pub normal_transfer_at: u64,
    pub next_leak: u64,
}

// The arrays are lent one by one: a caller's loop holds each by itself, and a quiet clock names none.
#[derive(Clone, Copy, PartialEq, Eq, Debug)]
pub struct NoiseGenerator {
    pub numbers: Noise,
    pub captured_charge: [u16; 23],
    pub charge: [u16; 23],
}

// What the loops of `relax` change. `changed` is no part of `state`, which counts whether a stage was marked or not.
#[derive(Clone, Copy, PartialEq, Eq, Debug)]
struct Stages {
    state: u32,
    changed: bool,
    charge: [u16; 23],
}

// A time that is not set: the original's number and no Option, since a time can come out at it (`never`,
// laws/specs/Cycle).
const NEVER: u64 = u64::MAX;

const NOISE_EVENT_MASK: u32 = 0x0008_0000;

const NOISE_MASK: u32 = 0x007f_ffff;

const NOISE_RESET_VALUE: u32 = 0x003f_ffff;

// For what goes line by line; `project` has the taps one by one.
const NOISE_OUTPUT_TAPS: [u8; 8] = [2, 4, 8, 11, 13, 17, 20, 22];

const NOISE_TEST_LEAK_INTERVAL_CYCLES: u64 = 65_536;

const NOISE_TEST_CHARGE_MAX: u16 = 65_535;

const NOISE_TEST_LOGIC_THRESHOLD: u16 = 32_768;

const NOISE_PULSE_CHARGE_DIVISOR: u16 = 14;

fn is_low(waveform: u16, line: usize) -> bool
    requires { line < 8 }
    ensures { result ≡ low waveform line }
{
    (waveform >> (11 - line)) % 2 == 0
}

// Asked on every clock: first what is nearly always so.
fn has_come(at: u64, cycle: u64) -> bool
    ensures { result ≡ come at cycle }
{
    cycle >= at && at != NEVER
}

// A term a tap: its stage and its line.
fn project(state: u32) -> u16
    ensures { result ≡ shown state }
{
    let lines = ((state >> 2) % 2) << 11
        | ((state >> 4) % 2) << 10
        | ((state >> 8) % 2) << 9
        | ((state >> 11) % 2) << 8
        | ((state >> 13) % 2) << 7
        | ((state >> 17) % 2) << 6
        | ((state >> 20) % 2) << 5
        | ((state >> 22) % 2) << 4;
    lines as u16
}

// The loop of `leave_test`.
fn sampled(charge: &[u16; 23]) -> u32
    ensures { result ≡ sampled charge.now }
{
    laws::high_of(charge, NOISE_TEST_LOGIC_THRESHOLD) & NOISE_MASK
}

fn feedback(captured: u32) -> u32
    ensures { result ≡ feedback captured }
{
    (captured % 2) ^ ((captured >> 5) % 2)
}

fn shifted_state(captured: u32) -> u32
    ensures { result ≡ shifted_state captured }
{
    ((captured >> 1) | (feedback(captured) << 22)) & NOISE_MASK
}

// The charges after `execute_transfer`.
// A loop: with `copy_from_slice` a shift was measured slower, at 87 instructions and not 41, in a loop of shifts alone.
fn shifted_charge(captured_charge: [u16; 23], incoming: u16) -> [u16; 23]
    ensures { result ≡ shifted_charge captured_charge incoming }
{
    let mut next_charge = captured_charge;
    for stage in 0..22usize {
        next_charge[stage] = captured_charge[stage + 1];
    }
    next_charge[22] = incoming;
    next_charge
}

// `load_pulse_coupling`, where the charges stand.
pub fn couple(charge: &mut [u16; 23], waveform: u16)
    ensures { charge.new ≡ coupled_to waveform charge.old 8 }
{
    for (line, tap) in NOISE_OUTPUT_TAPS.iter().enumerate() {
        if is_low(waveform, line) {
            let stage = *tap as usize;
            charge[stage] = drained(charge[stage]);
        }
    }
}

fn drained(q: u16) -> u16
    ensures { result ≡ drained q }
{
    laws::drained(q, q / NOISE_PULSE_CHARGE_DIVISOR)
}

// The charges, held or captured, in `pull_down`, where they stand. It differs from `couple` in what it stores: a loop
// over a closure that says what would be no shorter, and its contract longer than these two.
fn discharge(charge: &mut [u16; 23], waveform: u16)
    ensures { charge.new ≡ discharged_to waveform charge.old 8 }
{
    for (line, tap) in NOISE_OUTPUT_TAPS.iter().enumerate() {
        if is_low(waveform, line) {
            charge[*tap as usize] = 0;
        }
    }
}

// The stages, held or captured, after `pull_down`, before the mask.
fn cleared(mut state: u32, waveform: u16) -> u32
    ensures { result ≡ cleared_to waveform state 8 }
{
    for (line, tap) in NOISE_OUTPUT_TAPS.iter().enumerate() {
        if is_low(waveform, line) {
            state &= !(1u32 << *tap);
        }
    }
    state
}

fn recovered(charge: u16) -> u16
    ensures { result ≡ recovered charge }
{
    if charge < NOISE_TEST_CHARGE_MAX {
        let remaining = NOISE_TEST_CHARGE_MAX - charge;
        charge + (remaining / 23).max(1)
    } else {
        charge
    }
}

impl Stages {
    fn relax_stage(&mut self, stage: usize)
        requires { stage < 23 }
        ensures { self.new ≡ relaxed_stage self.old stage }
    {
        let charge = recovered(self.charge[stage]);
        self.charge[stage] = charge;
        if charge >= NOISE_TEST_LOGIC_THRESHOLD && (self.state >> stage) % 2 == 0 {
            self.state |= 1 << stage;
            self.changed = true;
        }
    }

    fn relax_step(&mut self)
        ensures { self.new ≡ relax_step self.old }
    {
        for stage in 0..23 {
            self.relax_stage(stage);
        }
    }

    fn relax_steps(&mut self, elapsed_steps: u64)
        ensures { self.new ≡ times elapsed_steps relax_step self.old }
    {
        for _ in 0..elapsed_steps {
            self.relax_step();
        }
    }
}

impl Noise {
    // Whether `clock` captures.
    fn captures(self, rising_bits: u32) -> bool
        ensures { result ≡ captures self rising_bits }
    {
        rising_bits & NOISE_EVENT_MASK != 0 && self.transfer_at == NEVER
    }

    // The numbers after a capture.
    fn capture(self, cycle: u64) -> Noise
        ensures { result ≡ capture_numbers self cycle }
    {
        let transfer_at = cycle.wrapping_add(2);
        Noise {
            captured: self.state,
            transfer_at,
            normal_transfer_at: transfer_at,
            ..self
        }
    }

    // Whether `execute_transfer` shifts.
    fn transfers(self, cycle: u64) -> bool
        ensures { result ≡ transfers self cycle }
    {
        has_come(self.transfer_at, cycle)
    }

    // The charge that a shift puts into stage 22.
    fn incoming(self) -> u16
        ensures { result ≡ incoming self }
    {
        if feedback(self.captured) == 0 {
            0
        } else {
            NOISE_TEST_CHARGE_MAX
        }
    }

    // The numbers after a shift.
    fn shift(self) -> Noise
        ensures { result ≡ shifted_numbers self }
    {
        let state = shifted_state(self.captured);
        Noise {
            state,
            visible: project(state),
            transfer_at: NEVER,
            ..self
        }
    }

    // Whether `pull_down` reaches what is captured.
    fn affects_capture(self, cycle: u64) -> bool
        ensures { result ≡ affects_capture self cycle }
    {
        has_come(self.transfer_at, cycle.wrapping_add(1))
    }

    // The numbers after `pull_down`.
    // Two returns: with `captured` chosen by an `if`, a pull-down was measured slower, by 8 instructions in 177.
    fn pull(self, waveform: u16, cycle: u64) -> Noise
        ensures { result ≡ pulled_numbers self waveform cycle }
    {
        let state = cleared(self.state, waveform) & NOISE_MASK;
        let visible = project(state);
        if self.affects_capture(cycle) {
            let captured = cleared(self.captured, waveform) & NOISE_MASK;
            return Noise {
                state,
                visible,
                captured,
                ..self
            };
        }
        Noise {
            state,
            visible,
            captured: self.captured & NOISE_MASK,
            ..self
        }
    }

    // Whether a clock changes anything.
    pub fn step_due(self, test: bool, rising_bits: u32, cycle: u64) -> bool
        ensures { result ≡ step_due self test rising_bits cycle }
    {
        if test {
            has_come(self.next_leak, cycle)
        } else {
            self.transfers(cycle) || self.captures(rising_bits)
        }
    }

    // The aperture of `latch_output`.
    pub fn pulse_load_aperture(self, cycle: u64) -> bool
        ensures { result ≡ pulse_load_aperture self cycle }
    {
        let at = self.normal_transfer_at;
        at != NEVER && cycle <= at && at <= cycle.wrapping_add(1)
    }
}

impl NoiseGenerator {
    pub fn new() -> NoiseGenerator
        ensures { result ≡ fresh }
    {
        let state = NOISE_RESET_VALUE & NOISE_MASK;
        let charge = laws::charges_of(state);
        NoiseGenerator {
            numbers: Noise {
                state,
                visible: project(state),
                captured: state,
                transfer_at: NEVER,
                normal_transfer_at: NEVER,
                next_leak: NEVER,
            },
            captured_charge: charge,
            charge,
        }
    }

    pub fn enter_test(mut self, cycle: u64) -> NoiseGenerator
        ensures { result ≡ entered_test self cycle }
    {
        self.numbers = Noise {
            captured: self.numbers.state,
            transfer_at: NEVER,
            normal_transfer_at: NEVER,
            next_leak: cycle.wrapping_add(NOISE_TEST_LEAK_INTERVAL_CYCLES),
            ..self.numbers
        };
        let charge = self.charge;
        self.captured_charge = charge;
        self
    }

    pub fn leave_test(mut self, cycle: u64) -> NoiseGenerator
        ensures { result ≡ left_test self cycle }
    {
        let state = sampled(&self.charge);
        self.numbers = Noise {
            state,
            visible: project(state),
            captured: state | 1,
            transfer_at: cycle.wrapping_add(1),
            next_leak: NEVER,
            ..self.numbers
        };
        let mut charge = self.charge;
        charge[0] = NOISE_TEST_CHARGE_MAX;
        self.captured_charge = charge;
        self
    }

    pub fn clock(mut self, rising_bits: u32, cycle: u64) -> NoiseGenerator
        ensures { result ≡ clocked self rising_bits cycle }
    {
        self.numbers = self.numbers.clock_lent(
            rising_bits,
            cycle,
            &mut self.captured_charge,
            &mut self.charge,
        );
        self
    }

    pub fn execute_transfer(mut self, cycle: u64) -> NoiseGenerator
        ensures { result ≡ transferred self cycle }
    {
        self.numbers = self
            .numbers
            .execute_transfer_lent(cycle, &mut self.captured_charge, &mut self.charge);
        self
    }

    pub fn relax(self, cycle: u64) -> NoiseGenerator
        ensures { result ≡ relaxed self cycle }
    {
        let next_leak = self.numbers.next_leak;
        if !has_come(next_leak, cycle) {
            return self;
        }
        self.relax_times((cycle - next_leak) / NOISE_TEST_LEAK_INTERVAL_CYCLES + 1)
    }

    // A chip's `relax`: one step where one is due or more.
    fn relax_once(self, cycle: u64) -> NoiseGenerator
        ensures { result ≡ relaxed_once self cycle }
    {
        if has_come(self.numbers.next_leak, cycle) {
            self.relax_times(1)
        } else {
            self
        }
    }

    // What `relax` does where so many steps have elapsed.
    fn relax_times(mut self, elapsed_steps: u64) -> NoiseGenerator
        ensures { result ≡ relaxed_times elapsed_steps self }
    {
        let charge = self.charge;
        let mut stages = Stages {
            state: self.numbers.state,
            changed: false,
            charge,
        };
        stages.relax_steps(elapsed_steps);
        let charge = stages.charge;
        self.charge = charge;
        self.numbers.state = stages.state;
        self.numbers.next_leak = self.numbers.next_leak.wrapping_add(elapsed_steps.wrapping_mul(
            NOISE_TEST_LEAK_INTERVAL_CYCLES,
        ));
        if stages.changed {
            self.numbers.visible = project(stages.state);
            if self.numbers.transfer_at == NEVER {
                self.numbers.captured = stages.state;
                self.captured_charge = charge;
            }
        }
        self
    }

    pub fn load_pulse_coupling(mut self, waveform: u16) -> NoiseGenerator
        ensures { result ≡ coupled self waveform }
    {
        couple(&mut self.charge, waveform);
        self
    }

    pub fn pull_down(mut self, waveform: u16, cycle: u64) -> NoiseGenerator
        ensures { result ≡ pulled_down self waveform cycle }
    {
        self.numbers = self.numbers.pull_down_lent(
            waveform,
            cycle,
            &mut self.captured_charge,
            &mut self.charge,
        );
        self
    }

    pub fn output(self) -> u16
        ensures { result ≡ self.numbers.visible }
    {
        self.numbers.visible
    }

    // What a clock of the phase does to the register.
    pub fn step(self, test: bool, rising_bits: u32, cycle: u64) -> NoiseGenerator
        ensures { result ≡ stepped self test rising_bits cycle }
    {
        if test {
            self.relax(cycle)
        } else {
            self.execute_transfer(cycle).clock(rising_bits, cycle)
        }
    }
}

// The register's methods on charges that are lent and changed where they stand, for a caller's loop.
impl Noise {
    fn relax_once_lent(
        self,
        cycle: u64,
        captured_charge: &mut [u16; 23],
        charge: &mut [u16; 23],
    ) -> Noise
        ensures { generator result captured_charge.new charge.new ≡ relaxed_once (generator self captured_charge.old charge.old) cycle }
    {
        let old_captured = *captured_charge;
        let old_charge = *charge;
        let after = NoiseGenerator {
            numbers: self,
            captured_charge: old_captured,
            charge: old_charge,
        }
        .relax_once(cycle);
        let new_captured = after.captured_charge;
        let new_charge = after.charge;
        *captured_charge = new_captured;
        *charge = new_charge;
        after.numbers
    }

    fn execute_transfer_lent(
        self,
        cycle: u64,
        captured_charge: &mut [u16; 23],
        charge: &mut [u16; 23],
    ) -> Noise
        ensures { generator result captured_charge.new charge.new ≡ transferred (generator self captured_charge.old charge.old) cycle }
    {
        if self.transfers(cycle) {
            *charge = shifted_charge(*captured_charge, self.incoming());
            return self.shift();
        }
        self
    }

    fn clock_lent(
        self,
        rising_bits: u32,
        cycle: u64,
        captured_charge: &mut [u16; 23],
        charge: &mut [u16; 23],
    ) -> Noise
        ensures { generator result captured_charge.new charge.new ≡ clocked (generator self captured_charge.old charge.old) rising_bits cycle }
    {
        if self.captures(rising_bits) {
            *captured_charge = *charge;
            return self.capture(cycle);
        }
        self
    }

    // A chip's `step`, which relaxes by one step where one is due or more.
    pub fn step_once_lent(
        self,
        test: bool,
        rising_bits: u32,
        cycle: u64,
        captured_charge: &mut [u16; 23],
        charge: &mut [u16; 23],
    ) -> Noise
        ensures { generator result captured_charge.new charge.new ≡ stepped_once (generator self captured_charge.old charge.old) test rising_bits cycle }
    {
        if test {
            return self.relax_once_lent(cycle, captured_charge, charge);
        }
        let shifted = self.execute_transfer_lent(cycle, captured_charge, charge);
        shifted.clock_lent(rising_bits, cycle, captured_charge, charge)
    }

    pub fn pull_down_lent(
        self,
        waveform: u16,
        cycle: u64,
        captured_charge: &mut [u16; 23],
        charge: &mut [u16; 23],
    ) -> Noise
        ensures { generator result captured_charge.new charge.new ≡ pulled_down (generator self captured_charge.old charge.old) waveform cycle }
    {
        discharge(charge, waveform);
        if self.affects_capture(cycle) {
            discharge(captured_charge, waveform);
        }
        self.pull(waveform, cycle)
    }
}

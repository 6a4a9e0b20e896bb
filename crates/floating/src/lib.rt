// The floating lines (document 01, 'Oscillator'; FloatingBus of oscillator.rs): twelve lines that keep a code once no
// waveform drives them.
// Their numbers stand apart from the array of charges, which is touched only where a leak is due.
#![tactic(auto)]

ghost use Rattle.std.specs.Prelude.{◌≡◌};
ghost use Rattle.laws.specs.Times.{times};
ghost use Rattle.floating.specs.Floating.{fresh, captured, lost, leak_step, leaks, retained, leaked_to, sampled, sampled_once};
ghost use Rattle.floating.specs.Loop.{lines};

#[derive(Clone, Copy, PartialEq, Eq, Debug)]
pub struct Floating {
    pub value: u16,
    pub hold_until: u64,
    pub next_leak: u64,
}

#[derive(Clone, Copy, PartialEq, Eq, Debug)]
pub struct FloatingBus {
    pub numbers: Floating,
    pub charge: [u16; 12],
}

// A time that is not set: the original's number and no Option, since a time can come out at it (`never`,
// laws/specs/Cycle).
const NEVER: u64 = u64::MAX;

const WAVEFORM_MASK: u16 = 0x0fff;

const WAVEFORM_FLOAT_HOLD_CYCLES: u64 = 1_137_140;

const WAVEFORM_FLOAT_LEAK_INTERVAL_CYCLES: u64 = 8_192;

const WAVEFORM_FLOAT_THRESHOLD: u16 = 18_000;

fn lost(charge: u16) -> u16
    ensures { result ≡ lost charge }
{
    laws::drained(charge, charge / 12)
}

// The loops of `sample`: one step, all that have elapsed, and the lines that are left.
fn leak_step(charge: &mut [u16; 12])
    ensures { charge.new ≡ leak_step charge.old }
{
    for q in charge.iter_mut() {
        *q = lost(*q);
    }
}

fn leak_steps(charge: &mut [u16; 12], elapsed_steps: u64)
    ensures { charge.new ≡ times elapsed_steps leak_step charge.old }
{
    for _ in 0..elapsed_steps {
        leak_step(charge);
    }
}

fn retained(charge: &[u16; 12]) -> u16
    ensures { result ≡ retained charge.now }
{
    (laws::high_of(charge, WAVEFORM_FLOAT_THRESHOLD) & WAVEFORM_MASK as u32) as u16
}

impl Floating {
    // Whether `sample` leaks. Asked on every clock: the next leak first, which is nearly always still to come.
    pub fn leaks(self, cycle: u64) -> bool
        ensures { result ≡ leaks self cycle }
    {
        cycle >= self.next_leak && self.value != 0 && cycle >= self.hold_until
    }

    // The end of `sample`: the numbers once the lines have leaked to these charges, with their next leak.
    fn leaked(self, charge: &[u16; 12], next_leak: u64) -> Floating
        ensures { lines result charge.now ≡ leaked_to self charge.now next_leak }
    {
        let value = retained(charge);
        Floating {
            value,
            next_leak: if value == 0 { NEVER } else { next_leak },
            ..self
        }
    }

    // A chip's `sample`, which makes one step where one is due or more, on charges that are lent and changed where they
    // stand.
    pub fn sample_once_lent(self, cycle: u64, charge: &mut [u16; 12]) -> Floating
        ensures { lines result charge.new ≡ sampled_once (lines self charge.old) cycle }
    {
        if self.leaks(cycle) {
            leak_step(charge);
            let at = self
                .next_leak
                .wrapping_add(WAVEFORM_FLOAT_LEAK_INTERVAL_CYCLES);
            return self.leaked(charge, at);
        }
        self
    }
}

impl FloatingBus {
    pub fn new() -> FloatingBus
        ensures { result ≡ fresh }
    {
        FloatingBus {
            numbers: Floating {
                value: 0,
                hold_until: NEVER,
                next_leak: NEVER,
            },
            charge: [0; 12],
        }
    }

    pub fn capture(value: u16, cycle: u64) -> FloatingBus
        ensures { result ≡ captured value cycle }
    {
        let value = value & WAVEFORM_MASK;
        let hold_until = cycle.wrapping_add(WAVEFORM_FLOAT_HOLD_CYCLES);
        FloatingBus {
            numbers: Floating {
                value,
                hold_until,
                next_leak: hold_until.wrapping_add(WAVEFORM_FLOAT_LEAK_INTERVAL_CYCLES),
            },
            charge: laws::charges_of(value as u32),
        }
    }

    pub fn reset() -> FloatingBus
        ensures { result ≡ fresh }
    {
        FloatingBus::new()
    }

    // What the Rust returns is the value after it.
    pub fn sample(self, cycle: u64) -> FloatingBus
        ensures { result ≡ sampled self cycle }
    {
        if !self.numbers.leaks(cycle) {
            return self;
        }
        let interval = WAVEFORM_FLOAT_LEAK_INTERVAL_CYCLES;
        let next_leak = self.numbers.next_leak;
        let elapsed_steps = (cycle - next_leak) / interval + 1;
        let mut charge = self.charge;
        leak_steps(&mut charge, elapsed_steps);
        let at = next_leak.wrapping_add(elapsed_steps.wrapping_mul(interval));
        let numbers = self.numbers.leaked(&charge, at);
        FloatingBus { numbers, charge }
    }
}

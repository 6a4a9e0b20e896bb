// The data bus (document 01, 'Data bus'; bus.rs): a byte whose bits fade, each after its own hold.
// First the core, by value; then the Rust's methods, thin over it, on a bus that is lent and changed where it stands.
#![tactic(auto)]

ghost use Rattle.std.specs.Prelude.{◌≡◌, ◌+◌, ◌-◌, ◌^◌, ◌<◌, min, max, get_or};
ghost use Rattle.bus.specs.Bus.{holds, kept, next_expiry_for, fresh, driven, clocked, lost, bus_clock, to_expiry};

#[derive(Clone, Copy, Debug, PartialEq, Eq)]
pub struct InternalDataBus {
    pub value: u8,
    pub age: u32,
    pub next_expiry: u32,
}

// What a clock gives: the bus after it, and the bits that it lost.
#[derive(Clone, Copy, Debug, PartialEq, Eq)]
pub struct BusClock {
    pub bus: InternalDataBus,
    pub lost: u8,
}

const DATA_BUS_HOLD_CYCLES: [u32; 8] = [12, 26624, 34816, 38912, 7680, 11264, 15360, 43008];

// The Rust's own, by which no age comes to it; `fresh` and `next_expiry_for` of the specs name the number.
const NO_EXPIRY: u32 = u32::MAX;

#[tactic(auto, using(crate::proofs::Kept::hold_positive), unfolding(crate::specs::Bus::holds))]
fn hold(bit: usize) -> u32
    requires { bit < 8 }
    ensures { result ≡ get_or holds bit 0 }
{
    DATA_BUS_HOLD_CYCLES[bit].max(1)
}

// The loop over the lines in the Rust's `clock`, from the highest down.
// Not inlined, nor is the next, so that a clock on which no bit goes saves no registers for them.
#[inline(never)]
#[tactic(auto, using(crate::proofs::Kept::kept_turns))]
fn retained(value: u8, age: u32) -> u8
    ensures { result ≡ kept holds value age }
{
    let mut out = 0;
    for bit in (0..8).rev() {
        out *= 2;
        if age < hold(bit) {
            out += (value >> bit) % 2;
        }
    }
    out
}

#[inline(never)]
#[tactic(auto, using(crate::proofs::Expiry::next_turns))]
fn next_expiry_for(value: u8, age: u32) -> u32
    ensures { result ≡ next_expiry_for holds value age }
{
    let mut next = NO_EXPIRY;
    for bit in (0..8).rev() {
        let expiry = hold(bit);
        if (value >> bit) % 2 == 1 && age < expiry {
            next = next.min(expiry);
        }
    }
    next
}

impl InternalDataBus {
    #[tactic(auto, unfolding(crate::specs::Bus::fresh))]
    pub fn new() -> Self
        ensures { result ≡ fresh }
    {
        Self {
            value: 0,
            age: 0,
            next_expiry: NO_EXPIRY,
        }
    }

    #[tactic(auto, unfolding(crate::specs::Bus::driven))]
    pub fn driven(value: u8) -> Self
        ensures { result ≡ driven value }
    {
        Self {
            value,
            age: 0,
            next_expiry: next_expiry_for(value, 0),
        }
    }

    #[tactic(auto, unfolding(crate::specs::Bus::clocked, crate::specs::Bus::aged))]
    pub fn clocked(mut self) -> Self
        ensures { result ≡ clocked self }
    {
        if self.value == 0 {
            return self;
        }
        self.age = self.age.saturating_add(1);
        if self.next_expiry <= self.age {
            self.value = retained(self.value, self.age);
            self.next_expiry = next_expiry_for(self.value, self.age);
        }
        self
    }

    #[tactic(auto, using(crate::proofs::Lost::clocked_le), unfolding(crate::specs::Bus::lost, crate::specs::Bus::bus_clock))]
    pub fn clock_lost(self) -> BusClock
        ensures { result ≡ bus_clock self }
    {
        let bus = self.clocked();
        BusClock {
            bus,
            lost: self.value - bus.value,
        }
    }

    // How many clocks on the next bits may go: none goes before.
    #[tactic(auto, unfolding(crate::specs::Bus::to_expiry))]
    pub fn to_expiry(self) -> u32
        ensures { result ≡ to_expiry self }
    {
        if self.value == 0 {
            return NO_EXPIRY;
        }
        self.next_expiry.saturating_sub(self.age).max(1)
    }
}

// The bus where it stands.
impl InternalDataBus {
    pub fn reset(&mut self)
        ensures { self.new ≡ fresh }
    {
        *self = Self::new();
    }

    pub fn drive(&mut self, value: u8)
        ensures { self.new ≡ driven value }
    {
        *self = Self::driven(value);
    }

    pub fn read_driven(&mut self, value: u8) -> u8
        ensures { (result ≡ value) × (self.new ≡ driven value) }
    {
        *self = Self::driven(value);
        value
    }

    pub fn read_floating(&self) -> u8
        ensures { result ≡ self.now.value }
    {
        self.value
    }

    #[tactic(auto, unfolding(crate::specs::Bus::bus_clock))]
    pub fn clock(&mut self) -> u8
        ensures { (result ≡ lost self.old) × (self.new ≡ clocked self.old) }
    {
        let BusClock { bus, lost } = self.clock_lost();
        *self = bus;
        lost
    }
}

// A bus by value, lent to its own method: for a caller whose bus is part of a larger state.
// `clocked` promises the same, but called in the loops of `run` and `tick` it makes rows of `make bench` 4 to 9 %
// slower.
pub fn lent_clock(mut b: InternalDataBus) -> InternalDataBus
    ensures { result ≡ clocked b }
{
    b.clock();
    b
}

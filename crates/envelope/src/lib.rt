// The envelope generator (document 01, 'Envelope'; envelope.rs), by value: a method gives the envelope as the Rust's
// leaves it.
#![tactic(auto)]

ghost use Rattle.std.specs.Prelude.{◌≡◌};
ghost use Rattle.envelope.specs.Envelope.{period_of, rising_rate_selected, rate_in_force, target_refreshed, divisor_committed, edge, advanced, gate_sampled, motion_taken, motion_committed, divisor_for, divisor_selected, stepped_up, stepped_down, stepped, amplitude_due, amplitude_clocked, curve_ended, curve_due, curve_clocked, curve_counted, match_used, match_consumed, level_read, rate_clocked, clocked, quiescent, fresh_gate, fresh, reset, attack_decay_set, sustain_release_set, gate_set};

#[derive(Clone, Copy, PartialEq, Eq, Debug)]
pub enum EnvelopeMotion {
    Rising,
    FallingToSustain,
    FallingToZero,
}

#[derive(Clone, Copy, PartialEq, Eq, Debug)]
pub struct GateHistory {
    pub input: bool,
    pub stage_a: bool,
    pub stage_b: bool,
}

#[derive(Clone, Copy, PartialEq, Eq, Debug)]
pub struct Envelope {
    pub volume: u8,
    pub rise_rate: u8,
    pub decay_rate: u8,
    pub hold_level: u8,
    pub fall_rate: u8,
    pub gate: GateHistory,
    pub motion: EnvelopeMotion,
    pub requested_motion: EnvelopeMotion,
    pub motion_delay: u8,
    pub rate_phase: u16,
    pub rate_target_phase: u16,
    pub matched_rate: bool,
    pub amplitude_delay: u8,
    pub curve_delay: u8,
    pub curve_count: u8,
    pub curve_divisor: u8,
    pub queued_curve_divisor: u8,
    pub floor_hold: bool,
    pub readback: u8,
}

const ENVELOPE_RATE_PERIODS: [u16; 16] = [
    9, 32, 63, 95, 149, 220, 267, 313, 392, 977, 1954, 3126, 3907, 11720, 19532, 31251,
];

#[tactic(auto, unfolding(crate::specs::Envelope::period_of, crate::specs::Envelope::periods))]
pub fn envelope_rate_period(rate: u8) -> u16
    ensures { result ≡ period_of rate }
{
    ENVELOPE_RATE_PERIODS[(rate % 16) as usize]
}

// The match in the Rust's `select_curve_divisor`; 0 is none, since the Rust's field `queued_curve_divisor` says so.
#[tactic(auto, unfolding(crate::specs::Envelope::divisor_for))]
fn divisor_for(volume: u8) -> u8
    ensures { result ≡ divisor_for volume }
{
    match volume {
        0xff | 0x00 => 1,
        0x5d => 2,
        0x36 => 4,
        0x1a => 8,
        0x0e => 16,
        0x06 => 30,
        _ => 0,
    }
}

impl GateHistory {
    fn new() -> Self
        ensures { result ≡ fresh_gate }
    {
        Self {
            input: false,
            stage_a: false,
            stage_b: false,
        }
    }

    // The Rust's `advance` in two, since it goes by value: what it gives, and what it leaves.
    fn edge(self) -> Option<bool>
        ensures { result ≡ edge self }
    {
        if self.stage_a == self.stage_b {
            None
        } else {
            Some(self.stage_a)
        }
    }

    fn advance(self) -> Self
        ensures { result ≡ advanced self }
    {
        Self {
            stage_a: self.input,
            stage_b: self.stage_a,
            ..self
        }
    }
}

impl Envelope {
    #[tactic(auto, using(crate::proofs::Periods::period_some), unfolding(crate::specs::Envelope::fresh))]
    pub fn new() -> Self
        ensures { result ≡ fresh }
    {
        Self {
            volume: 0xaa,
            rise_rate: 0,
            decay_rate: 0,
            hold_level: 0,
            fall_rate: 0,
            gate: GateHistory::new(),
            motion: EnvelopeMotion::FallingToZero,
            requested_motion: EnvelopeMotion::FallingToZero,
            motion_delay: 0,
            rate_phase: 0,
            rate_target_phase: envelope_rate_period(0) - 1,
            matched_rate: false,
            amplitude_delay: 0,
            curve_delay: 0,
            curve_count: 0,
            curve_divisor: 1,
            queued_curve_divisor: 0,
            floor_hold: false,
            readback: 0xaa,
        }
    }

    #[tactic(auto, unfolding(crate::specs::Envelope::reset))]
    pub fn reset(self) -> Self
        ensures { result ≡ reset self }
    {
        Self {
            volume: self.volume,
            readback: self.volume,
            rate_phase: self.rate_phase,
            floor_hold: self.volume == 0,
            ..Self::new()
        }
    }

    #[tactic(auto, unfolding(crate::specs::Envelope::attack_decay_set))]
    pub fn set_attack_decay(mut self, value: u8) -> Self
        ensures { result ≡ attack_decay_set self value }
    {
        self.rise_rate = value / 16;
        self.decay_rate = value % 16;
        self.refresh_rate_target_phase()
    }

    #[tactic(auto, unfolding(crate::specs::Envelope::sustain_release_set))]
    pub fn set_sustain_release(mut self, value: u8) -> Self
        ensures { result ≡ sustain_release_set self value }
    {
        self.hold_level = value / 16 * 17;
        self.fall_rate = value % 16;
        self.refresh_rate_target_phase()
    }

    pub fn gate_is_high(self) -> bool
        ensures { result ≡ self.gate.input }
    {
        self.gate.input
    }

    #[tactic(auto, unfolding(crate::specs::Envelope::gate_set))]
    pub fn set_gate(mut self, gate: bool) -> Self
        ensures { result ≡ gate_set self gate }
    {
        if gate && !self.gate.input {
            self.floor_hold = false;
        }
        self.gate.input = gate;
        self.refresh_rate_target_phase()
    }

    #[tactic(auto, unfolding(crate::specs::Envelope::clocked))]
    pub fn clock(mut self) -> Self
        ensures { result ≡ clocked self }
    {
        self.readback = self.volume;
        if self.quiescent() {
            return self.clock_rate_sequence();
        }
        self.commit_curve_divisor()
            .sample_gate_transition()
            .commit_requested_motion()
            .clock_amplitude_path()
            .clock_curve_path()
            .consume_rate_match()
            .clock_rate_sequence()
    }

    // The test at the head of the Rust's `clock`.
    #[tactic(auto, unfolding(crate::specs::Envelope::quiescent))]
    pub fn quiescent(self) -> bool
        ensures { result ≡ quiescent self }
    {
        self.queued_curve_divisor == 0
            && self.gate.input == self.gate.stage_a
            && self.gate.stage_a == self.gate.stage_b
            && self.motion_delay == 0
            && self.amplitude_delay == 0
            && self.curve_delay == 0
            && !self.matched_rate
    }

    // `clock` where its first test holds, so that a loop calls only its long way.
    pub fn clock_quiet(mut self) -> Self
        ensures { result ≡ rate_clocked (level_read self) }
    {
        self.readback = self.volume;
        self.clock_rate_sequence()
    }

    #[tactic(auto, unfolding(crate::specs::Envelope::divisor_committed))]
    fn commit_curve_divisor(mut self) -> Self
        ensures { result ≡ divisor_committed self }
    {
        if self.queued_curve_divisor != 0 {
            self.curve_divisor = self.queued_curve_divisor;
            self.queued_curve_divisor = 0;
        }
        self
    }

    #[tactic(auto, unfolding(crate::specs::Envelope::gate_sampled, crate::specs::Envelope::requested_on))]
    fn sample_gate_transition(mut self) -> Self
        ensures { result ≡ gate_sampled self }
    {
        let edge = self.gate.edge();
        self.gate = self.gate.advance();
        match edge {
            Some(true) => {
                self.requested_motion = EnvelopeMotion::Rising;
                self.motion_delay = 2;
            }
            Some(false) => {
                self.requested_motion = EnvelopeMotion::FallingToZero;
                self.motion_delay = if self.motion == EnvelopeMotion::Rising {
                    2
                } else {
                    1
                };
            }
            None => {}
        }
        self
    }

    // The Rust's early return at delay 1 leaves what the way round it leaves.
    #[tactic(auto, unfolding(crate::specs::Envelope::motion_committed, crate::specs::Envelope::motion_taken))]
    fn commit_requested_motion(mut self) -> Self
        ensures { result ≡ motion_committed self }
    {
        if self.motion_delay == 0 {
            return self;
        }
        self.motion_delay -= 1;
        if self.motion_delay == 0 {
            self.motion = self.requested_motion;
        }
        self.refresh_rate_target_phase()
    }

    #[tactic(auto, unfolding(crate::specs::Envelope::amplitude_clocked, crate::specs::Envelope::amplitude_due))]
    fn clock_amplitude_path(mut self) -> Self
        ensures { result ≡ amplitude_clocked self }
    {
        if self.amplitude_delay == 0 {
            return self;
        }
        self.amplitude_delay -= 1;
        if self.amplitude_delay != 0 || self.floor_hold {
            return self;
        }
        self.step()
    }

    // This and the next two are of `clock_amplitude_path`.
    #[tactic(auto, unfolding(crate::specs::Envelope::stepped))]
    fn step(self) -> Self
        ensures { result ≡ stepped self.motion self }
    {
        match self.motion {
            EnvelopeMotion::Rising => self.step_up(),
            EnvelopeMotion::FallingToSustain if self.volume == self.hold_level => self,
            EnvelopeMotion::FallingToSustain | EnvelopeMotion::FallingToZero => self.step_down(),
        }
    }

    #[tactic(auto, unfolding(crate::specs::Envelope::stepped_up, crate::specs::Envelope::top_reached, crate::specs::Envelope::up))]
    fn step_up(mut self) -> Self
        ensures { result ≡ stepped_up self }
    {
        self.volume = self.volume.wrapping_add(1);
        if self.volume == 0xff {
            self.requested_motion = EnvelopeMotion::FallingToSustain;
            self.motion_delay = 3;
        }
        self.select_curve_divisor()
    }

    #[tactic(auto, unfolding(crate::specs::Envelope::stepped_down, crate::specs::Envelope::bottom_reached, crate::specs::Envelope::down))]
    fn step_down(mut self) -> Self
        ensures { result ≡ stepped_down self }
    {
        self.volume = self.volume.wrapping_sub(1);
        if self.volume == 0 {
            self.floor_hold = true;
        }
        self.select_curve_divisor()
    }

    #[tactic(auto, unfolding(crate::specs::Envelope::curve_clocked, crate::specs::Envelope::curve_due))]
    fn clock_curve_path(mut self) -> Self
        ensures { result ≡ curve_clocked self }
    {
        if self.curve_delay == 0 {
            return self;
        }
        self.curve_delay -= 1;
        if self.curve_delay != 0 {
            return self;
        }
        self.curve_count = 0;
        self.curve_end()
    }

    // Of `clock_curve_path`.
    #[tactic(auto, unfolding(crate::specs::Envelope::curve_ended))]
    fn curve_end(mut self) -> Self
        ensures { result ≡ curve_ended self }
    {
        let change_due = match self.motion {
            EnvelopeMotion::FallingToSustain => self.volume != self.hold_level,
            EnvelopeMotion::Rising | EnvelopeMotion::FallingToZero => true,
        };
        if change_due {
            self.amplitude_delay = 1;
        }
        self
    }

    #[tactic(auto, unfolding(crate::specs::Envelope::match_consumed))]
    fn consume_rate_match(mut self) -> Self
        ensures { result ≡ match_consumed self }
    {
        if !self.matched_rate {
            return self;
        }
        self.matched_rate = false;
        self.rate_phase = 0;
        self.use_match()
    }

    // This and the next are of `consume_rate_match`.
    #[tactic(auto, unfolding(crate::specs::Envelope::match_used))]
    fn use_match(mut self) -> Self
        ensures { result ≡ match_used self }
    {
        if self.rising_rate_selected() {
            self.curve_count = 0;
            self.amplitude_delay = 2;
            return self;
        }
        if self.floor_hold {
            return self;
        }
        self.curve_count = self.curve_count.wrapping_add(1);
        self.count_curve()
    }

    #[tactic(auto, unfolding(crate::specs::Envelope::curve_counted))]
    fn count_curve(mut self) -> Self
        ensures { result ≡ curve_counted self }
    {
        if self.curve_count == self.curve_divisor {
            self.curve_delay = if self.curve_divisor == 1 { 1 } else { 2 };
        }
        self
    }

    #[tactic(auto, unfolding(crate::specs::Envelope::rate_clocked, crate::specs::Envelope::phase_up))]
    pub fn clock_rate_sequence(mut self) -> Self
        ensures { result ≡ rate_clocked self }
    {
        if self.rate_phase == self.rate_target_phase {
            self.matched_rate = true;
            return self;
        }
        self.rate_phase = self.rate_phase.wrapping_add(1);
        if self.rate_phase == 32767 {
            self.rate_phase = 0;
        }
        self
    }

    #[tactic(auto, unfolding(crate::specs::Envelope::rising_rate_selected))]
    fn rising_rate_selected(self) -> bool
        ensures { result ≡ rising_rate_selected self }
    {
        let motion = if self.motion_delay == 1 {
            self.requested_motion
        } else {
            self.motion
        };
        motion == EnvelopeMotion::Rising
    }

    // The rate of the Rust's `refresh_rate_target_phase`.
    #[tactic(auto, unfolding(crate::specs::Envelope::rate_in_force))]
    fn rate_in_force(self) -> u8
        ensures { result ≡ rate_in_force self }
    {
        if self.rising_rate_selected() {
            self.rise_rate
        } else if self.gate.input {
            self.decay_rate
        } else {
            self.fall_rate
        }
    }

    #[tactic(auto, using(crate::proofs::Periods::period_some), unfolding(crate::specs::Envelope::target_refreshed))]
    fn refresh_rate_target_phase(mut self) -> Self
        ensures { result ≡ target_refreshed self }
    {
        self.rate_target_phase = envelope_rate_period(self.rate_in_force()) - 1;
        self
    }

    #[tactic(auto, unfolding(crate::specs::Envelope::divisor_selected))]
    fn select_curve_divisor(mut self) -> Self
        ensures { result ≡ divisor_selected self }
    {
        self.queued_curve_divisor = divisor_for(self.volume);
        self
    }

    pub fn read_level(self) -> u8
        ensures { result ≡ self.readback }
    {
        self.readback
    }

    // The Rust's field `volume`.
    pub fn level(self) -> u8
        ensures { result ≡ self.volume }
    {
        self.volume
    }

    // The Rust's field `floor_hold`: whether the level is held at zero.
    pub fn held(self) -> bool
        ensures { result ≡ self.floor_hold }
    {
        self.floor_hold
    }
}

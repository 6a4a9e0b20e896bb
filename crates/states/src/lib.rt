// An envelope's whole state in 18 bytes, as tools/oracle lays it out (src/lists/envelope.rs): what the programs share that
// replay lists with states. What is not there is 0.
#![tactic(auto)]

ghost use Rattle.std.specs.Prelude.{◌≡◌};
ghost use Rattle.states.specs.States.{motion_at, gate_of, state_of};

use envelope::{Envelope, EnvelopeMotion, GateHistory};

// This and `gate` are functions and no From, since the types of both sides are other crates'.
fn motion(place: u8) -> EnvelopeMotion
    ensures { result ≡ motion_at place }
{
    match place {
        0 => EnvelopeMotion::Rising,
        1 => EnvelopeMotion::FallingToSustain,
        _ => EnvelopeMotion::FallingToZero,
    }
}

fn gate(flags: u8) -> GateHistory
    ensures { result ≡ gate_of flags }
{
    GateHistory {
        input: flags % 2 == 1,
        stage_a: flags / 2 % 2 == 1,
        stage_b: flags / 4 % 2 == 1,
    }
}

pub fn state(bytes: &[u8]) -> Envelope
    ensures { result ≡ state_of bytes.now }
{
    let flags = words::u8_at(bytes, 5);
    let motions = words::u8_at(bytes, 6);
    Envelope {
        volume: words::u8_at(bytes, 0),
        rise_rate: words::u8_at(bytes, 1),
        decay_rate: words::u8_at(bytes, 2),
        hold_level: words::u8_at(bytes, 3),
        fall_rate: words::u8_at(bytes, 4),
        gate: gate(flags),
        motion: motion(motions % 4),
        requested_motion: motion(motions / 4),
        motion_delay: words::u8_at(bytes, 7),
        rate_phase: words::u16_at(bytes, 8),
        rate_target_phase: words::u16_at(bytes, 10),
        matched_rate: flags / 8 % 2 == 1,
        amplitude_delay: words::u8_at(bytes, 12),
        curve_delay: words::u8_at(bytes, 13),
        curve_count: words::u8_at(bytes, 14),
        curve_divisor: words::u8_at(bytes, 15),
        queued_curve_divisor: words::u8_at(bytes, 16),
        floor_hold: flags / 16 % 2 == 1,
        readback: words::u8_at(bytes, 17),
    }
}

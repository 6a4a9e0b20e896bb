// The settled release (document 01) and the settled rise (document 02): claims about the definitions of the crate
// envelope. Demand 3 is stated in specs/Release.antt and proved in proofs/Demand3.antt; the rise and the late start of a
// note in specs/Rise.antt, proofs/Rise.antt and proofs/Start.antt; 'Sustain 0xf0 holds at 0xff' in both Sustain.antt.
// The code runs an envelope for a while.
#![tactic(auto)]

ghost use Rattle.std.specs.Prelude.{◌≡◌};
ghost use Rattle.envelope.specs.Envelope.{clocks};

use envelope::Envelope;

#[tactic(auto, using(laws::proofs::Times::times_none, laws::proofs::Times::times_step))]
pub fn clock_times(mut e: Envelope, n: u32) -> Envelope
    ensures { result ≡ clocks n e }
{
    for _ in 0..n {
        e = e.clock();
    }
    e
}

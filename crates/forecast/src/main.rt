// Plays the score on standard input to its end, and prints when each voice is free; of a score that is refused, the
// refusal alone. One byte more than a score may have is enough to know that it is too long.
#![tactic(auto)]

use sid::Mos6581;

// By `io`, as a refusal is: a write that fails is not told.
fn print_voice(chip: Mos6581, voice: u8) {
    io::print_decimal(1, voice as u64);
    io::write_all(1, b" ");
    if let Ok(clocks) = tail::forecast(chip, voice) {
        io::print_decimal(1, clocks as u64);
        io::write_all(1, b"\n");
    } else if let Ok(held) = chip.held(voice) {
        let told: &[u8] = if held { b"held\n" } else { b"unsettled\n" };
        io::write_all(1, told);
    }
}

fn print_forecasts(s: &[u8]) {
    if let Err(r) = score::check_score(s) {
        return script::print_refused(1, r);
    }
    let mut pack = [0u16; pack::LENGTH];
    // A pack of `LENGTH` is not refused.
    let _ = pack::fill(&mut pack);
    let chip = player::panel_after(s, &pack).chip;
    for voice in 0..3 {
        print_voice(chip, voice);
    }
}

fn main() {
    let mut score = [0u8; 65537];
    let n = io::read_full(0, &mut score);
    print_forecasts(&score[..n]);
}

// Plays the score on standard input and prints its listing. One byte more than a score may have is enough to know that
// it is too long.
#![tactic(auto)]

fn main() {
    let mut score = [0u8; 65537];
    let n = io::read_full(0, &mut score);
    // A write that failed is not told.
    let _ = printer::replay(1, &score[..n]);
}

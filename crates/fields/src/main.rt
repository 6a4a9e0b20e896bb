// Prints the score on standard input as text, a line for each field; of a score that is refused, the refusal alone.
// One byte more than a score may have is enough to know that it is too long.
#![tactic(auto)]

use listing::TEXT;

// A write that fails ends the text. By `io`: the line is bytes, and `println!` prints text.
#[tactic(auto, using(score::proofs::Fields::stands))]
fn print_fields(s: &[u8]) {
    let mut line = [0u8; TEXT];
    let mut at: usize = 0;
    while let Ok((f, next)) = score::field_at(s, at) {
        let n = listing::field_line(&mut line, f);
        if !io::write_all(1, &line[..n]) || f.what.is_end() {
            return;
        }
        at = next;
    }
}

fn print_score(s: &[u8]) {
    match score::check_score(s) {
        Ok(_) => print_fields(s),
        Err(r) => script::print_refused(1, r),
    }
}

fn main() {
    let mut score = [0u8; 65537];
    let n = io::read_full(0, &mut score);
    print_score(&score[..n]);
}

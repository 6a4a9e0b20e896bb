// Replays data/scores: scores one after the other, each after its length in four bytes. Its file stdout has what the
// oracle says.
// The lists are made by tools/oracle: cargo run --release -- list replay_scores, and list replay_listings
#![tactic(auto)]

ghost use Rattle.io.specs.Counts.{IsPrefixLen};

use std::fs::File;

fn read_score(file: &mut File, length: usize, score: &mut [u8]) -> usize
    ensures { IsPrefixLen result score.new }
{
    if score.len() < length {
        return 0;
    }
    cases::read_full(file, &mut score[..length])
}

// By `io`, as the listing that follows it.
fn print_score(number: u64, score: &[u8], pack: &[u16]) {
    io::write_all(1, b"score ");
    io::print_decimal(1, number);
    io::write_all(1, b"\n");
    let _ = printer::print_listing(1, score, pack);
}

fn replay(file: &mut File, pack: &[u16]) {
    let mut head = [0u8; 4];
    let mut score = [0u8; 65537];
    for number in 0..65536 {
        if cases::read_full(file, &mut head) < 4 {
            return;
        }
        let n = read_score(file, words::u32_at(&head, 0) as usize, &mut score);
        print_score(number, &score[..n], pack);
    }
}

fn main(rt: HostRuntime) {
    let Some(mut file) = cases::open(&rt, b"scores") else {
        return;
    };
    let mut pack = [0u16; pack::LENGTH];
    // A pack of `LENGTH` is not refused.
    let _ = pack::fill(&mut pack);
    replay(&mut file, &pack);
}

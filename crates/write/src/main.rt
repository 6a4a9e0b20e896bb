// Makes the score of a text of fields, which stands on standard input: write [SIZE], SIZE being the length of the
// buffer that the writer is lent, 65,536 if none is given. What the first refused field is answered, or which line is
// no field, is told alone.
#![tactic(auto)]

use refusals::Refused;
use std::env;
use std::io::ErrorKind;
use writer::Writer;

// The most bytes that a score has: a longer buffer makes no other score.
const MOST: usize = 65536;

// Enough to judge any text: fields that are all taken have at most 24 bytes of text for 9 of the score, 174,763 in all.
// The line after them begins before that, and one that is cut here is too long for a field.
const MOST_TEXT: usize = 196608;

// Why a text makes no score.
#[derive(Clone, Copy, Debug)]
enum Failure {
    NoField { line: u64 },
    Refused(Refused),
}

// The length of the score that a text makes, which stands first in the buffer.
#[tactic(auto, using(script::proofs::Ends::end_bounds, writer::proofs::Answers::buffered_length))]
fn write_text(text: &[u8], out: &mut [u8]) -> Result<usize, Failure> {
    let mut w = Writer::new();
    let mut at: usize = 0;
    let mut line: u64 = 1;
    // a `while`: a line ends where `script::line_end` says, of which `line_there` speaks
    while at < text.len() {
        let end = script::line_end(text, at);
        let f = script::field_of(&text[at..end]).ok_or(Failure::NoField { line })?;
        w = w.append(f, out).map_err(Failure::Refused)?;
        at = end + 1;
        line += 1;
    }
    Ok(w.at)
}

// A write that fails is not told.
fn print_score(rt: &HostRuntime, text: &[u8], out: &mut [u8]) {
    match write_text(text, out) {
        Ok(n) => {
            if let Some(score) = out.get(..n) {
                io::write_all(1, score);
            }
        }
        Err(Failure::NoField { line }) => {
            let _ = println!(rt; "line {line} is no field");
        }
        Err(Failure::Refused(r)) => script::print_refused(1, r),
    }
}

// How long a buffer the words after the program's name ask for. Of words that are unclear, or no text, None.
fn arguments(rt: &HostRuntime) -> std::io::Result<Option<usize>> {
    let mut words = match env::args(rt) {
        Ok(words) => words,
        Err(error) => {
            if error.kind() == ErrorKind::InvalidData {
                return Ok(None);
            }
            return Err(error);
        }
    };
    let _name = words.next();
    let Some(word) = words.next() else {
        return Ok(Some(MOST));
    };
    match script::number_at(word.as_bytes(), 0, u32::MAX) {
        Some(size) if size.next == word.len() && words.next().is_none() => Ok(Some(
            size.value as usize,
        )),
        _ => Ok(None),
    }
}

fn main(rt: HostRuntime) -> std::io::Result<()> {
    let Some(room) = arguments(&rt)? else {
        let _ = eprintln!(rt; "usage: write [SIZE] < TEXT");
        return Ok(());
    };
    let mut text = [0u8; MOST_TEXT];
    let mut out = [0u8; MOST];
    let n = io::read_full(0, &mut text);
    print_score(&rt, &text[..n], &mut out[..room.min(MOST)]);
    Ok(())
}

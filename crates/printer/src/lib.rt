// Prints a score's listing through a buffer. The codes of combined waveforms come from a lent pack, as for the player.
#![tactic(auto)]

ghost use Rattle.oscillator.specs.Ways.{stepwise};
ghost use Rattle.pack.specs.Pack.{over};
ghost use Rattle.printer.specs.Fills.{Fills, Prints};

use listing::TEXT;
use player::Player;

// How far a buffer was filled: the player there, the steps left, and the bytes.
#[derive(Clone, Copy)]
struct Filled {
    player: Player,
    left: u32,
    len: usize,
}

// Whole lines at the start of a buffer, until nothing is left to do, no step is left, or a step's room is not left.
fn fill(from: Player, s: &[u8], pack: &[u16], steps: u32, out: &mut [u8]) -> Filled
    ensures { Fills (over pack.now) s.now from steps out.old result out.new }
{
    let mut filled = Filled {
        player: from,
        left: steps,
        len: 0,
    };
    let mut line = [0u8; TEXT];
    // A `while`, and not the player's loop: it also stops for want of room, and `Filling` goes by the steps left.
    while 0 < filled.left && !filled.player.rest.is_nothing() && TEXT <= out.len() - filled.len {
        let next = filled.player.step(s, pack, &mut line);
        listing::copy_into(out, filled.len, &line[..next.len]);
        filled = Filled {
            player: next.player,
            left: filled.left - 1,
            len: filled.len + next.len,
        };
    }
    filled
}

// A write failed: the bytes handed on before its part.
#[derive(Clone, Copy, Debug, PartialEq, Eq)]
pub struct Stopped {
    pub len: usize,
}

const ROOM: usize = 65536;

// The bytes handed on, all of the listing's; a write that fails ends it.
pub fn print_listing(to: i32, s: &[u8], pack: &[u16]) -> Result<usize, Stopped>
    ensures { Prints (over pack.now) s.now result }
{
    let mut out = [0u8; ROOM];
    let mut p = Player::start(s);
    let mut left: u32 = player::STEPS;
    let mut done: usize = 0;
    // A `while`: how many parts there are turns on how many lines fit in each, so that no iterator counts them.
    while 0 < left && !p.rest.is_nothing() {
        let part = fill(p, s, pack, left, &mut out);
        if !io::write_all(to, &out[..part.len]) {
            return Err(Stopped { len: done });
        }
        p = part.player;
        left = part.left;
        done += part.len;
    }
    Ok(done)
}

// All that `replay` does with a score: it fills a pack, once, and prints the listing through it.
pub fn replay(to: i32, s: &[u8]) -> Result<usize, Stopped>
    ensures { Prints stepwise s.now result }
{
    let mut pack = [0u16; pack::LENGTH];
    // A pack of `LENGTH` is not refused.
    let _ = pack::fill(&mut pack);
    print_listing(to, s, &pack)
}

// The player of scores (document 01, 'Score and program'; document 02, request 5): one field a step, with the bits that
// fade on the way to it, and the whole listing in a lent buffer.
// The codes of combined waveforms come from a lent pack of settled codes. An entry that the pack lacks is settled
// afresh, so an empty pack serves as well.
#![tactic(auto)]

ghost use Rattle.std.specs.Prelude.{◌≡◌, cond, ◌+◌, ◌≤◌, eqb, length};
ghost use Rattle.listing.specs.Text.{Put, text_room, fade_room};
ghost use Rattle.pack.specs.Pack.{over};
ghost use Rattle.player.specs.Into.{into_answer, into_buffer};
ghost use Rattle.score.specs.Scores.{score_of};
ghost use Rattle.player.specs.Listing.{fade_of, listing_by, panel_of_by};
ghost use Rattle.player.specs.Steps.{start_of, is_nothing, on_field, on_stamp, on_refusal, turn, Does, DoesLine, Runs, PlaysScore};

use listing::TEXT;
use panel::Panel;
use refusals::{Refusal, Refused};
use score::{Field, What};

// What a player has still to do: the fields from a place on, or to tell a refusal.
#[derive(Clone, Copy, Debug, PartialEq, Eq)]
pub enum Rest {
    Fields { at: usize },
    Refusal(Refused),
    Nothing,
}

impl Rest {
    pub fn is_nothing(self) -> bool
        ensures { result ≡ is_nothing self }
    {
        matches!(self, Rest::Nothing)
    }
}

#[derive(Clone, Copy, PartialEq, Eq, Debug)]
pub struct Player {
    pub panel: Panel,
    pub rest: Rest,
}

// The player after a step, and the length of its line.
#[derive(Clone, Copy, PartialEq, Eq, Debug)]
pub struct Stepped {
    pub player: Player,
    pub len: usize,
}

// The panel at a stamp, and the length of the lines of bits that fade on the way.
#[derive(Clone, Copy, PartialEq, Eq, Debug)]
struct Ran {
    panel: Panel,
    len: usize,
}

fn refuse(panel: Panel, r: Refused, line: &mut [u8; TEXT]) -> Stepped
    ensures { Does (on_refusal panel r) line.old result line.new }
{
    Stepped {
        player: Player {
            panel,
            rest: Rest::Nothing,
        },
        len: listing::refused_line(line, r),
    }
}

// The line of a clock at a place in the text, if it loses bits.
fn put_fade(text: &mut [u8; TEXT], at: usize, clock: u32, lost: u8) -> usize
    requires { at + fade_room ≤ text_room }
    ensures { Put text.old at (fade_of clock lost) result text.new × (result ≤ at + cond (eqb lost 0) 0 fade_room) }
{
    if lost == 0 {
        return at;
    }
    let mut line = [0u8; TEXT];
    let len = listing::fade_line(&mut line, clock, lost);
    listing::copy_into(text, at, &line[..len]);
    at + len
}

// From loss to loss, where the bus is watched: nothing but its own clock moves it, so that no clock is looked at that
// loses nothing.
fn run_to(panel: Panel, stamp: u32, pack: &[u16], text: &mut [u8; TEXT]) -> Ran
    ensures { Runs (over pack.now) stamp panel text.old result text.new }
{
    if !panel.watched {
        return Ran {
            panel: panel.run_to(stamp, pack),
            len: 0,
        };
    }
    let mut ran = Ran { panel, len: 0 };
    // A `while`: how many leaps there are turns on what the bus loses, so that no iterator counts them.
    while ran.panel.clock < stamp {
        let leapt = ran.panel.leap_to(stamp, pack);
        ran.panel = leapt.panel;
        ran.len = put_fade(text, ran.len, leapt.panel.clock, leapt.lost);
    }
    ran
}

// A field on the panel at its stamp.
fn do_field(there: Panel, f: Field, next: usize, line: &mut [u8; TEXT]) -> Stepped
    ensures { DoesLine (on_stamp there f next) line.old result line.new }
{
    let mut done = Stepped {
        player: Player {
            panel: there,
            rest: Rest::Fields { at: next },
        },
        len: 0,
    };
    match f.what {
        What::Write { address, value } => done.player.panel = there.write(address, value),
        What::Read { address } => {
            let read = there.read(address);
            done.player.panel = read.panel;
            done.len = listing::read_line(line, f.stamp, address, read.byte);
        }
        What::Levels => {
            let display = there.levels();
            done.len = listing::levels_line(
                line,
                f.stamp,
                display.voice_0.code,
                display.voice_0.level,
                display.voice_1.code,
                display.voice_1.level,
                display.voice_2.code,
                display.voice_2.level,
            );
        }
        What::Watch => done.player.panel = there.watch(),
        What::End => {
            done.player.rest = Rest::Nothing;
            done.len = listing::end_line(line, there.clock);
        }
    }
    done
}

fn play_field(panel: Panel, f: Field, next: usize, pack: &[u16], text: &mut [u8; TEXT]) -> Stepped
    ensures { Does (on_field (over pack.now) panel f next) text.old result text.new }
{
    let ran = run_to(panel, f.stamp, pack, text);
    let mut line = [0u8; TEXT];
    let done = do_field(ran.panel, f, next, &mut line);
    listing::copy_into(text, ran.len, &line[..done.len]);
    Stepped {
        player: done.player,
        len: ran.len + done.len,
    }
}

// Score and pack come apart: `step`, `panel_after`, `listing_len` and `listing_into` are public and take them so.
impl Player {
    // The whole score is checked here, before the first clock.
    #[tactic(auto, unfolding(crate::specs::Steps::start_of))]
    pub fn start(s: &[u8]) -> Player
        ensures { result ≡ start_of s.now }
    {
        let rest = match score::check_score(s) {
            Ok(_) => Rest::Fields { at: 0 },
            Err(r) => Rest::Refusal(r),
        };
        Player {
            panel: Panel::new(),
            rest,
        }
    }

    pub fn step(self, s: &[u8], pack: &[u16], line: &mut [u8; TEXT]) -> Stepped
        ensures { Does (turn (over pack.now) s.now self) line.old result line.new }
    {
        let r = match self.rest {
            Rest::Fields { at } => match reader::read_field(s, at) {
                Ok((f, next)) => return play_field(self.panel, f, next, pack, line),
                Err(r) => r,
            },
            Rest::Refusal(r) => r,
            Rest::Nothing => {
                return Stepped {
                    player: self,
                    len: 0,
                };
            }
        };
        refuse(self.panel, r, line)
    }
}

// As many steps as any score takes (`most_steps`).
pub const STEPS: u32 = 9362;

// All steps of a score: the player after them and the length of the listing, which is put where there is room for it.
// A buffer, and no closure for each text: what a closure did with its captures is not known after the calls.
fn play(s: &[u8], pack: &[u16], out: &mut [u8]) -> Stepped
    ensures { PlaysScore (over pack.now) s.now out.old result out.new }
{
    let mut player = Player::start(s);
    let mut len = 0;
    let mut line = [0u8; TEXT];
    for _ in 0..STEPS {
        if player.rest.is_nothing() {
            break;
        }
        let next = player.step(s, pack, &mut line);
        listing::copy_into(out, len, &line[..next.len]);
        player = next.player;
        len += next.len;
    }
    Stepped { player, len }
}

// The panel at a score's end, for a host that goes on from there; one that is refused runs no clock.
pub fn panel_after(s: &[u8], pack: &[u16]) -> Panel
    ensures { result ≡ panel_of_by (over pack.now) (score_of s.now) }
{
    play(s, pack, &mut []).player.panel
}

pub fn listing_len(s: &[u8], pack: &[u16]) -> usize
    ensures { result ≡ length (listing_by (over pack.now) s.now) }
{
    play(s, pack, &mut []).len
}

// A score's listing at the start of a lent buffer; or 13 at 0 and the buffer as it was, where the listing is longer.
pub fn listing_into(s: &[u8], pack: &[u16], out: &mut [u8]) -> Result<usize, Refused>
    ensures { (result ≡ into_answer (over pack.now) s.now (length out.old)) × (out.new ≡ into_buffer (over pack.now) s.now out.old) }
{
    if out.len() < listing_len(s, pack) {
        return Err(Refusal::NoRoom.at(0));
    }
    Ok(play(s, pack, out).len)
}

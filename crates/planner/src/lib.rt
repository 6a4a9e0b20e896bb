// When an envelope is held at zero (document 02, request 9): of a settled release worked out by a table, of any other
// counted.
#![tactic(auto)]

ghost use Rattle.std.specs.Prelude.{◌≡◌, true, cond, ◌-◌, ◌<◌, ◌≤◌, eqb};
ghost use Rattle.release.specs.Release.{is_divisor, steps, matches, last_step};
ghost use Rattle.release.specs.StepClocks.{lag};
ghost use Rattle.planner.specs.Planner.{release_period, is_settled, last_step_of, to_zero, adds, turn, held_within};
ghost use Rattle.planner.specs.Skips.{is_waiting, Leads};

use envelope::{Envelope, EnvelopeMotion};

// The rate matches from a level to zero, on a fall from 0xff.
pub fn matches_to_zero(level: u8) -> u16
    ensures { result ≡ to_zero level }
{
    table()[level as usize]
}

// The next level on the way down that queues a divisor: 0xff of an unheld zero.
// Test by test, as are `last_lag`, `is_divisor` and `is_settled`: so a list of forecasts is compiled with the numbers
// known, at half the instructions (docs/DESIGN-PASS.md, 'Buffers, parallel arrays').
fn turn(level: u8) -> u8
    ensures { result ≡ turn level }
{
    if level == 0 {
        return 0xff;
    }
    if 0x5d < level {
        return 0x5d;
    }
    if 0x36 < level {
        return 0x36;
    }
    if 0x1a < level {
        return 0x1a;
    }
    if 0x0e < level {
        return 0x0e;
    }
    if 0x06 < level {
        return 0x06;
    }
    0
}

// The steps down that the divisor in force counts for.
#[tactic(auto, using(crate::proofs::Falls::turn_below, release::proofs::Steps::steps_closed), unfolding(crate::specs::Planner::turn, release::specs::Release::steps))]
fn steps_to_turn(level: u8) -> u32
    ensures { (result ≡ steps level - turn level) × (1 ≤ result) × (result ≤ 256) }
{
    if level == 0 {
        return 1;
    }
    (level - turn(level)) as u32
}

// The rate matches that are left of a release.
fn matches_left(e: Envelope) -> u32
    requires { (e.curve_count < e.curve_divisor) × (e.curve_divisor ≤ 30) }
    ensures { (result ≡ matches e (steps e.volume)) × (1 ≤ result) × (result ≤ 73215) }
{
    let left_over = steps_to_turn(e.volume) * e.curve_divisor as u32;
    let from_turn = matches_to_zero(turn(e.volume)) as u32;
    left_over + from_turn - e.curve_count as u32
}

// The clocks by which the last step lags its match.
#[tactic(auto, unfolding(release::specs::StepClocks::lag))]
fn last_lag(level: u8, divisor: u8) -> u32
    ensures { (result ≡ lag (cond (eqb (turn level) 0) divisor 30)) × (result ≤ 3) }
{
    if turn(level) != 0 {
        return 3;
    }
    if divisor == 1 {
        return 2;
    }
    3
}

fn is_divisor(divisor: u8) -> bool
    ensures { result ≡ is_divisor divisor }
{
    match divisor {
        1 => true,
        2 => true,
        4 => true,
        8 => true,
        16 => true,
        30 => true,
        _ => false,
    }
}

#[tactic(auto, using(envelope::proofs::Periods::period_some), unfolding(crate::specs::Planner::is_settled))]
fn is_settled(e: Envelope) -> bool
    ensures { result ≡ is_settled e }
{
    if e.gate.input {
        return false;
    }
    if e.motion != EnvelopeMotion::FallingToZero {
        return false;
    }
    if e.floor_hold {
        return false;
    }
    if !e.quiescent() {
        return false;
    }
    if e.rate_target_phase != envelope::envelope_rate_period(e.fall_rate) - 1 {
        return false;
    }
    if 32767 <= e.rate_phase {
        return false;
    }
    if !is_divisor(e.curve_divisor) {
        return false;
    }
    e.curve_count < e.curve_divisor
}

#[tactic(auto, using(envelope::proofs::Periods::period_some))]
fn settled_clock(e: Envelope) -> u32
    requires { is_settled e ≡ true }
    ensures { result ≡ last_step e (release_period e) }
{
    let period = envelope::envelope_rate_period(e.fall_rate) as u32;
    let wait = (period - 1 + 32767 - e.rate_phase as u32) % 32767;
    wait + 2 + (matches_left(e) - 1) * period + last_lag(e.volume, e.curve_divisor)
}

// The clock of the last step of a settled release, the first clock being 1; of any other envelope none.
#[tactic(auto, unfolding(crate::specs::Planner::last_step_of))]
pub fn last_step(e: Envelope) -> Option<u32>
    ensures { result ≡ last_step_of e }
{
    if is_settled(e) {
        Some(settled_clock(e))
    } else {
        None
    }
}

// Nothing moves but the rate counter, up to its match.
#[tactic(auto, unfolding(crate::specs::Skips::is_waiting))]
fn is_waiting(e: Envelope) -> bool
    ensures { result ≡ is_waiting e }
{
    e.quiescent() && 8 <= e.rate_target_phase && e.rate_target_phase < 32767 && e.rate_phase < 32767
}

// An envelope, and the clocks that it has made.
#[derive(Clone, Copy, PartialEq, Eq, Debug)]
struct Onward {
    e: Envelope,
    clocks: u32,
}

// The match of an envelope that waits for it; of any other the next clock.
#[tactic(auto, using(crate::proofs::Counts::waiting_low))]
fn go_on(mut e: Envelope) -> Onward
    ensures { Leads e result }
{
    if is_waiting(e) {
        let clocks = (e.rate_target_phase as u32 + 32767 - e.rate_phase as u32) % 32767 + 1;
        e.readback = e.volume;
        e.rate_phase = e.rate_target_phase;
        e.matched_rate = true;
        return Onward { e, clocks };
    }
    Onward {
        e: e.clock(),
        clocks: 1,
    }
}

// The first clock after which the level is held at zero, or n where none of n is: 0 where it is held already. It goes
// from match to match, and once the release is settled no further, so that few clocks have to be made.
pub fn held_within(mut e: Envelope, n: u32) -> u32
    ensures { result ≡ held_within n e }
{
    let mut i = 0;
    // `while`, since a step is as many clocks as it is to the next match
    while i < n {
        if e.held() {
            return i;
        }
        if is_settled(e) {
            return i + settled_clock(e).min(n - i);
        }
        let next = go_on(e);
        if n - i < next.clocks {
            return n;
        }
        e = next.e;
        i += next.clocks;
    }
    n
}

// Each entry is the one below plus the divisor in force.
#[tactic(auto, unfolding(crate::specs::Planner::adds, envelope::specs::Envelope::divisor_for, release::specs::Release::in_force))]
fn table() -> [u16; 256]
    ensures { adds result 0xff 1 ≡ true }
{
    [
        0, 30, 60, 90, 120, 150, 180, 196, 212, 228, 244, 260, 276, 292, 308, 316, 324, 332, 340,
        348, 356, 364, 372, 380, 388, 396, 404, 408, 412, 416, 420, 424, 428, 432, 436, 440, 444,
        448, 452, 456, 460, 464, 468, 472, 476, 480, 484, 488, 492, 496, 500, 504, 508, 512, 516,
        518, 520, 522, 524, 526, 528, 530, 532, 534, 536, 538, 540, 542, 544, 546, 548, 550, 552,
        554, 556, 558, 560, 562, 564, 566, 568, 570, 572, 574, 576, 578, 580, 582, 584, 586, 588,
        590, 592, 594, 595, 596, 597, 598, 599, 600, 601, 602, 603, 604, 605, 606, 607, 608, 609,
        610, 611, 612, 613, 614, 615, 616, 617, 618, 619, 620, 621, 622, 623, 624, 625, 626, 627,
        628, 629, 630, 631, 632, 633, 634, 635, 636, 637, 638, 639, 640, 641, 642, 643, 644, 645,
        646, 647, 648, 649, 650, 651, 652, 653, 654, 655, 656, 657, 658, 659, 660, 661, 662, 663,
        664, 665, 666, 667, 668, 669, 670, 671, 672, 673, 674, 675, 676, 677, 678, 679, 680, 681,
        682, 683, 684, 685, 686, 687, 688, 689, 690, 691, 692, 693, 694, 695, 696, 697, 698, 699,
        700, 701, 702, 703, 704, 705, 706, 707, 708, 709, 710, 711, 712, 713, 714, 715, 716, 717,
        718, 719, 720, 721, 722, 723, 724, 725, 726, 727, 728, 729, 730, 731, 732, 733, 734, 735,
        736, 737, 738, 739, 740, 741, 742, 743, 744, 745, 746, 747, 748, 749, 750, 751, 752, 753,
        754, 755, 756,
    ]
}

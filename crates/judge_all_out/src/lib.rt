// Whether all carts come out: the run alone, for requests to move, which ask for no times.
#![tactic(auto)]

ghost use Rattle.std.specs.Prelude.{◌≡◌, set};
ghost use Rattle.times.specs.Running.{is_out};
ghost use Rattle.crossing.specs.inner.Tables.{crossing_of, given_of};
ghost use Rattle.crossing.specs.inner.Sound.{Sound};
ghost use Rattle.judge_running.specs.inner.Rounds.{InsideSet};
ghost use Rattle.judge_all_out.specs.inner.Turns.{HaveMoved, CanGoOn, GoneOn, Turned};

use judge_entering::Ground;
use judge_one_move::{join, may_enter, may_go_in};
use judge_running::present;
use sets::carts;

// Cart c, which may enter the zone that it wants, moves on as far as it may; answers where it stands then.
fn go_on(ground: &Ground, at: &[u8; 16], left: &mut [u16; 24], c: usize) -> u8
    requires { CanGoOn (crossing_of ground.now.sheet.now ground.now.ahead.now) at.now left.old c }
    ensures { GoneOn (crossing_of ground.now.sheet.now ground.now.ahead.now) at.now (set at.now c result) left.new c }
{
    let from = at[c] as usize;
    // From the lane no zone is left.
    if 0 < from {
        join(left, ground.sheet.zone(8 * c + from - 1), c);
    }
    let k = ground.sheet.steps(c);
    for p in from + 1..k {
        let x = 8 * c + p;
        if !may_enter(ground.sheet, ground.ahead, left, x) {
            return p as u8;
        }
        join(left, ground.sheet.zone(x - 1), c);
    }
    join(left, ground.sheet.zone(8 * c + k - 1), c);
    (k + 1) as u8
}

// Every cart that is not out moves on in turn as far as it may; answers which are not out then, or none where no cart has moved.
fn turn_of(ground: &Ground, at: &mut [u8; 16], left: &mut [u16; 24], inside: u16) -> Option<u16>
    requires { HaveMoved (crossing_of ground.now.sheet.now ground.now.ahead.now) at.old left.old
        × InsideSet (crossing_of ground.now.sheet.now ground.now.ahead.now) at.old inside }
    ensures { Turned (crossing_of ground.now.sheet.now ground.now.ahead.now) at.old at.new left.new inside result }
{
    let mut turn = inside;
    let mut still = inside;
    let mut moved = false;
    while 0 < turn {
        let c = carts::lowest(turn);
        turn = carts::rest(turn);
        // A cart that is not out wants a zone: out of its last one it has gone at once.
        if may_go_in(ground, at, left, c) {
            at[c] = go_on(ground, at, left, c);
            moved = true;
            if ground.sheet.steps(c) < at[c] as usize {
                still = carts::without(still, c);
            }
        }
    }
    moved.then_some(still)
}

// Whether all carts come out when permitted moves are made until none is left; no times are worked out.
pub fn all_out(ground: &Ground) -> bool
    requires { Sound (crossing_of ground.now.sheet.now ground.now.ahead.now) (given_of ground.now.sheet.now) }
    ensures { result ≡ is_out (crossing_of ground.now.sheet.now ground.now.ahead.now) }
{
    let mut at = [0u8; 16];
    let mut left = [0u16; 24];
    let mut inside = present(ground.sheet);
    while let Some(still) = turn_of(ground, &mut at, &mut left, inside) {
        inside = still;
    }
    inside == 0
}

// Permitted moves made until none is left, with the entering times on the way: verdict and times, from one routine.
#![tactic(auto)]

ghost use Rattle.std.specs.Prelude.{◌≡◌, ◌≤◌, ◌<◌, get_or};
ghost use Rattle.moves.specs.System.{pos};
ghost use Rattle.moves.specs.Moves.{Permitted};
ghost use Rattle.routes.specs.Moves.{system};
ghost use Rattle.sheet_table.specs.inner.Parts.{steps};
ghost use Rattle.crossing.specs.inner.Tables.{crossing_of, given_of};
ghost use Rattle.crossing.specs.inner.Sound.{Sound};
ghost use Rattle.judge_entering.specs.inner.Lanes.{present_lanes, present_mates};
ghost use Rattle.judge_running.specs.inner.Rounds.{present_set, AskedSet, Underway, Started, Advanced, Swept};
ghost use Rattle.judge_running.specs.inner.Settled.{SettlesAs};

use judge_entering::{foremost, next_behind, present_lanes};
use judge_one_move::{Run, may_enter};
use sets::carts;
use sheet_table::Table;

// Cart c, which may move, makes its first move if it stands in its lane; answers who is next behind it, whom the lane holds no more then.
// `mates` are the carts on its lane. `Underway` stays a clause of the three: it is of a sheet and orders too, and does not hold between a move's stores.
fn start(sheet: &Table, ahead: &[u16; 128], mates: u16, run: &mut Run, c: usize) -> u16
    requires { Underway (crossing_of sheet.now ahead.now) (given_of sheet.now) run.old × (c < 16)
        × Permitted (system (crossing_of sheet.now ahead.now)) run.old.at c × (mates ≡ present_mates sheet.now c) }
    ensures { Started (crossing_of sheet.now ahead.now) (given_of sheet.now) run.old run.new c result }
{
    if 0 < run.at[c] {
        return 0;
    }
    run.move_in(sheet, ahead, mates, c);
    run.count_move(c);
    next_behind(mates, c)
}

// Cart c, which has started, moves on as far as it may; answers whether it is out. `mates` are the carts on its lane.
fn advance(sheet: &Table, ahead: &[u16; 128], mates: u16, run: &mut Run, c: usize) -> bool
    requires { Underway (crossing_of sheet.now ahead.now) (given_of sheet.now) run.old × (c < 16) × (0 < pos run.old.at c)
        × (pos run.old.at c ≤ get_or (steps sheet.now) c 0) × (mates ≡ present_mates sheet.now c) }
    ensures { Advanced (crossing_of sheet.now ahead.now) (given_of sheet.now) run.old run.new c result }
{
    let end = 8 * c + sheet.steps(c);
    for x in 8 * c + usize::from(run.at[c])..end {
        if !may_enter(sheet, ahead, &run.left, x) {
            return false;
        }
        run.move_on(sheet, ahead, mates, c, x);
        run.count_move(c);
    }
    run.move_out(sheet, c, end - 1);
    run.count_move(c);
    true
}

// The set of the carts that have steps.
pub fn present(sheet: &Table) -> u16
    ensures { result ≡ present_set (steps sheet.now) 16 }
{
    let mut set = 0;
    for c in 0..16 {
        if 0 < sheet.steps(c) {
            set = carts::with(set, c);
        }
    }
    set
}

// Every cart that is not out and that the lane does not hold moves on in turn as far as it may; answers who is asked in the next turn,
// nobody where no move was made. `on` has for each lane the carts on it.
fn sweep(sheet: &Table, on: &[u16; 16], ahead: &[u16; 128], run: &mut Run, asked: u16) -> u16
    requires { Underway (crossing_of sheet.now ahead.now) (given_of sheet.now) run.old
        × AskedSet (crossing_of sheet.now ahead.now) run.old.at asked × (on.now ≡ present_lanes sheet.now) }
    ensures { Swept (crossing_of sheet.now ahead.now) (given_of sheet.now) run.old run.new result }
{
    let before = run.made;
    let mut turn = asked;
    let mut still = asked;
    while 0 < turn {
        let c = carts::lowest(turn);
        turn = carts::rest(turn);
        // A cart that is asked wants a zone: out of its last one it has gone at once.
        if may_enter(sheet, ahead, &run.left, 8 * c + usize::from(run.at[c])) {
            let mates = on[sheet.lane(c)];
            let freed = start(sheet, ahead, mates, run, c);
            turn = carts::joined(turn, freed);
            still = carts::joined(still, freed);
            if advance(sheet, ahead, mates, run, c) {
                still = carts::without(still, c);
            }
        }
    }
    if run.made == before { 0 } else { still }
}

// Permitted moves are made from the start until none is left; the run tells them and the entering times.
pub fn settle(sheet: &Table, ahead: &[u16; 128], run: &mut Run)
    requires { Sound (crossing_of sheet.now ahead.now) (given_of sheet.now) }
    ensures { SettlesAs (crossing_of sheet.now ahead.now) (given_of sheet.now) run.new.at run.new.left run.new.enter run.new.order run.new.made }
{
    run.restart();
    let on = present_lanes(sheet);
    let mut going = foremost(&on);
    while 0 < going {
        going = sweep(sheet, &on, ahead, run, going);
    }
}

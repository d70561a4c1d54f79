// The judge's verdict of the orders present, over tables: locked or not, the times, and the order of moves; judging and planning ask it.
#![tactic(auto)]

ghost use Rattle.crossing.specs.inner.Tables.{crossing_of, given_of};
ghost use Rattle.crossing.specs.inner.Sound.{Sound};
ghost use Rattle.judge_verdict.specs.inner.Verdict.{Runs};

use judge_one_move::Run;
use judge_ring::lowest_stuck;
use judge_running::settle;
use sheet_table::Table;

// What the judge says of the orders present: the lowest cart that is stuck, none where all carts come out. Permitted moves are made until none is left,
// and the run tells them. Judging and planning ask this, and nothing else, whether orders are locked; requests, which need no times, ask all_out.
// `Sound` stays a clause: the planner changes `ahead` between two calls, so that a type which keeps it would be made anew for each.
pub fn verdict_of(sheet: &Table, ahead: &[u16; 128], run: &mut Run) -> Option<usize>
    requires { Sound (crossing_of sheet.now ahead.now) (given_of sheet.now) }
    ensures { Runs (crossing_of sheet.now ahead.now) (given_of sheet.now) run.new result }
{
    settle(sheet, ahead, run);
    lowest_stuck(sheet, &run.at)
}

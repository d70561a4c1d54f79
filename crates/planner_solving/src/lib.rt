// Groups of ranks solved over tables: a trial, or each half.
#![tactic(auto)]

ghost use Rattle.std.specs.Prelude.{ℕ, ◌≡◌};
ghost use Rattle.sheet.specs.Valid.{Valid};
ghost use Rattle.plan_lists.specs.inner.Sets.{who_visits};
ghost use Rattle.sheet_table.specs.inner.Parts.{steps, zone};
ghost use Rattle.sheet_filling.specs.inner.Filled.{sheet_in};
ghost use Rattle.removal.specs.Removal.{by_removal};
ghost use Rattle.planner_orders.specs.inner.Stands.{StandsBy};
ghost use Rattle.planner_trials.specs.inner.Trying.{Triable};
ghost use Rattle.planner_solving.specs.inner.Solving.{Solves};

use planner_groups::start_orders;
use planner_orders::Present;
use planner_ranks::ranks;
use planner_trials::{Known, try_group};
use planner_visiting::visit_places;
use sheet_table::Table;

// The group of the ranks from `low` on, below `high`, is solved: where its trial fails, each half is, lower ranks first.
// A group of one rank has no pair, so its trial does not fail: of 16 carts at most four levels have pairs.
fn solve(known: &Known, present: &mut Present, low: usize, high: usize)
    requires { Triable known.now.sheet.now known.now.ranks known.now.pairs known.now.visit low high present.old.ahead
        present.old.behind present.old.undecided }
    ensures { Solves known.now.sheet.now known.now.ranks known.now.pairs known.now.visit low high
        present.old.ahead present.old.behind present.old.undecided present.new.ahead present.new.behind
        present.new.undecided }
{
    if try_group(known, present, low, high) {
        return;
    }
    let mid = low + (high - low) / 2;
    solve(known, present, low, mid);
    solve(known, present, mid, high);
}

// A valid sheet's orders when the group of all ranks is solved: for each step the carts ahead. The sheet has m carts; `visitors` are the zones'.
pub fn solve_sheet(sheet: &Table, visitors: &[u16; 24], m: usize) -> [u16; 128]
    requires { ((n : ℕ) × Valid (sheet_in n m sheet.now)) × (visitors.now ≡ who_visits (steps sheet.now) (zone sheet.now)) }
    ensures { (n : ℕ) → Valid (sheet_in n m sheet.now) → StandsBy by_removal sheet.now n m result }
{
    let mut started = start_orders(sheet, visitors);
    let known = Known {
        sheet,
        ranks: ranks(sheet, m),
        pairs: started.1,
        visit: visit_places(sheet),
    };
    solve(&known, &mut started.0, 0, m);
    started.0.ahead
}

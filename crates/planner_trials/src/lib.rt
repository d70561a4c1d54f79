// The trial of a group of ranks: orders of its pairs are decided one by one, each kept only where all carts still come out.
#![tactic(auto)]

ghost use Rattle.std.specs.Prelude.{◌≡◌};
ghost use Rattle.planner_spare.specs.inner.Rears.{rears_of};
ghost use Rattle.planner_trials.specs.inner.Trying.{Triable, Tries};
ghost use Rattle.planner_trials.specs.inner.Turns.{Choosable, Chosen, Decidable, Decided, OnTrial, AllTried, OpenedTried};

use judge_finish::finish_of;
use judge_one_move::Run;
use judge_verdict::verdict_of;
use planner_costs::{Choice, CostFacts, largest_cost};
use planner_groups::open_group;
use planner_orders::Present;
use planner_spare::{SpareFacts, rears, spare_times};
use sheet_table::Table;

// What is worked out once for a sheet that is planned: each cart's rank, for each step the carts with which it is a pair,
// and where each cart's step in each zone stands.
#[derive(Clone, Copy)]
pub struct Known<'a> {
    pub sheet: &'a Table,
    pub ranks: [u8; 16],
    pub pairs: [u16; 128],
    pub visit: [u8; 384],
}

// The order of largest cost among the undecided pairs, by the times of the run; none where no pair is undecided.
// `rears` has for each cart the lane's next one behind it.
fn choose(
    known: &Known,
    rears: &[Option<usize>; 16],
    present: &Present,
    run: &Run,
) -> Option<Choice>
    requires { Choosable known.now.sheet.now known.now.ranks known.now.visit present.now.behind present.now.undecided run.now
        × (rears.now ≡ rears_of known.now.sheet.now) }
    ensures { Chosen known.now.sheet.now known.now.ranks known.now.visit present.now.behind
        present.now.undecided run.now result }
{
    let finish = finish_of(known.sheet, &run.enter);
    let mut spare = [0u32; 128];
    let facts = SpareFacts {
        sheet: known.sheet,
        rears,
        behind: &present.behind,
        visit: &known.visit,
        enter: &run.enter,
        finish,
    };
    spare_times(&facts, &run.order[..run.made], &mut spare);
    largest_cost(&CostFacts {
        sheet: known.sheet,
        rank: &known.ranks,
        visit: &known.visit,
        undecided: &present.undecided,
        enter: &run.enter,
        spare: &spare,
    })
}

// The opposite of the chosen order is decided; where carts are stuck then, this direction instead. Answers who is stuck at the end, if anybody is.
fn decide_either(
    known: &Known,
    present: &mut Present,
    run: &mut Run,
    choice: Choice,
) -> Option<usize>
    requires { Decidable known.now.sheet.now known.now.visit present.old.ahead present.old.behind present.old.undecided
        choice.step choice.first }
    ensures { Decided known.now.sheet.now known.now.visit present.old.ahead present.old.behind
        present.old.undecided choice.step choice.first present.new.ahead present.new.behind present.new.undecided run.new result }
{
    let step = choice.step;
    let other = known.visit[16 * known.sheet.zone(step) + choice.first] as usize;
    present.decide(other, step);
    let stuck = verdict_of(known.sheet, &present.ahead, run);
    if stuck.is_none() {
        return stuck;
    }
    present.turn_round(other, step);
    verdict_of(known.sheet, &present.ahead, run)
}

// While a pair is undecided an order is chosen and decided; tells whether all are decided, or neither direction of one came out.
fn try_pairs(known: &Known, present: &mut Present, run: &mut Run) -> bool
    requires { OnTrial known.now.sheet.now known.now.ranks known.now.visit present.old.ahead present.old.behind
        present.old.undecided run.old }
    ensures { AllTried known.now.sheet.now known.now.ranks known.now.visit present.old.ahead
        present.old.behind present.old.undecided present.new.ahead present.new.behind present.new.undecided result }
{
    let rears = rears(known.sheet);
    while let Some(choice) = choose(known, &rears, present, run) {
        if decide_either(known, present, run, choice).is_some() {
            return false;
        }
    }
    true
}

// The group of the ranks from `low` on, below `high`, is opened, and its pairs are tried.
fn try_opened(known: &Known, present: &mut Present, low: usize, high: usize) -> bool
    requires { Triable known.now.sheet.now known.now.ranks known.now.pairs known.now.visit low high present.old.ahead
        present.old.behind present.old.undecided }
    ensures { OpenedTried known.now.sheet.now known.now.ranks known.now.pairs known.now.visit low high
        present.old.ahead present.old.behind present.old.undecided present.new.ahead present.new.behind
        present.new.undecided result }
{
    open_group(&known.ranks, &known.pairs, present, low, high);
    let mut run = Run::start();
    verdict_of(known.sheet, &present.ahead, &mut run);
    try_pairs(known, present, &mut run)
}

// The trial of a group: the tables take its orders, or, where it fails, hold what they held.
// `Triable` stays a clause: it is of what is known, the orders present and the group together, and each call changes two of these.
pub fn try_group(known: &Known, present: &mut Present, low: usize, high: usize) -> bool
    requires { Triable known.now.sheet.now known.now.ranks known.now.pairs known.now.visit low high present.old.ahead
        present.old.behind present.old.undecided }
    ensures { Tries known.now.sheet.now known.now.ranks known.now.pairs known.now.visit low high
        present.old.ahead present.old.behind present.old.undecided present.new.ahead present.new.behind
        present.new.undecided result }
{
    let old = *present;
    if try_opened(known, present, low, high) {
        return true;
    }
    *present = old;
    false
}

// The candidates' costs over tables, and the order of largest cost.
#![tactic(auto)]

ghost use Rattle.std.specs.Prelude.{◌≡◌, ◌+◌, ◌≤◌, ◌<◌, IfSome};
ghost use Rattle.words.specs.inner.Limits.{latest_clear, most_taken_off};
ghost use Rattle.sheet_table.specs.inner.Parts.{zone};
ghost use Rattle.planner_costs.specs.inner.Tables.{InRange, CostIs, wins_tie};
ghost use Rattle.planner_costs.specs.inner.Choices.{tables_in, is_taken_at, Choosing, ChosenBelow};

use sets::carts;
use sheet_table::Table;

// What the costs of the candidates are made of: the sheet, the carts' ranks, where their steps stand, the undecided pairs, and the times of a run.
#[derive(Clone, Copy)]
pub struct CostFacts<'a> {
    pub sheet: &'a Table,
    pub rank: &'a [u8; 16],
    pub visit: &'a [u8; 384],
    pub undecided: &'a [u16; 128],
    pub enter: &'a [u32; 128],
    pub spare: &'a [u32; 128],
}

// The order that is taken: cart `first` before the cart of the step at `step`, in the step's zone.
#[derive(Clone, Copy)]
pub struct Choice {
    pub cost: i32,
    pub step: usize,
    pub first: usize,
}

// The cost of "A before B": A's entering + passing + gap, less B's entering and spare time. It may be negative.
fn cost_of(clear: u32, latest: u32) -> i32
    requires { (clear ≤ latest_clear) × (latest ≤ most_taken_off) }
    ensures { CostIs clear latest result }
{
    clear as i32 - latest as i32
}

// Whether a tie goes to cart a before the cart of the step at x, not to d before that of y: by zone, then by the rank of A, then of B.
fn wins_tie(facts: &CostFacts, x: usize, a: usize, y: usize, d: usize) -> bool
    requires { (x < 128) × (a < 16) × (y < 128) × (d < 16) }
    ensures { result ≡ wins_tie (zone facts.now.sheet.now) facts.now.rank.now x a y d }
{
    let key = |x: usize, a: usize| (facts.sheet.zone(x), facts.rank[a], facts.rank[x / 8]);
    key(x, a) < key(y, d)
}

// Whether cart a before the cart of the step at x, at this cost, is taken over the choice so far, if there is one.
fn is_taken(facts: &CostFacts, x: usize, a: usize, cost: i32, most: Option<Choice>) -> bool
    requires { (x < 128) × (a < 16) × IfSome most (λ r. (r.step < 128) × (r.first < 16)) }
    ensures { result ≡ is_taken_at (zone facts.now.sheet.now) facts.now.rank.now x a cost most }
{
    let Some(most) = most else {
        return true;
    };
    if cost < most.cost {
        return false;
    }
    most.cost < cost || wins_tie(facts, x, a, most.step, most.first)
}

// The choice among the candidates of the steps below x is `best`; answers the choice among these and those of the step at x.
fn largest_at(facts: &CostFacts, x: usize, best: Option<Choice>) -> Option<Choice>
    requires { Choosing (tables_in facts.now) x best }
    ensures { ChosenBelow (tables_in facts.now) (x + 1) result }
{
    let z = facts.sheet.zone(x);
    let gap = facts.sheet.cross(z);
    let latest = facts.enter[x] + facts.spare[x];
    let mut most = best;
    let mut others = facts.undecided[x];
    while 0 < others {
        let a = carts::lowest(others);
        others = carts::rest(others);
        let p = facts.visit[16 * z + a] as usize;
        let cost = cost_of(facts.enter[p] + facts.sheet.passing(p) + gap, latest);
        if is_taken(facts, x, a, cost, most) {
            most = Some(Choice {
                cost,
                step: x,
                first: a,
            });
        }
    }
    most
}

// The order of largest cost among all candidates; None where there is none.
pub fn largest_cost(facts: &CostFacts) -> Option<Choice>
    requires { InRange (tables_in facts.now) }
    ensures { ChosenBelow (tables_in facts.now) 128 result }
{
    let mut best = None;
    for x in 0..128 {
        if 0 < facts.undecided[x] {
            best = largest_at(facts, x, best);
        }
    }
    best
}

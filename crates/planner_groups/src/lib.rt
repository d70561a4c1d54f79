// A group of ranks opened in the tables of the orders present, and the tables at the start.
#![tactic(auto)]

ghost use Rattle.std.specs.Prelude.{◌≡◌, get_or, leb, ltb, ℕ, ◌<◌, replicate};
ghost use Rattle.sets.specs.Counting.{set_below};
ghost use Rattle.sets.specs.inner.Member.{has};
ghost use Rattle.plan_lists.specs.inner.Sets.{Routes};
ghost use Rattle.sheet_table.specs.inner.Parts.{steps, zone};
ghost use Rattle.planner_groups.specs.inner.Starting.{visiting_at, Lent, Starts};
ghost use Rattle.planner_groups.specs.inner.Opening.{Joined, Opens};

use judge_entering::{lanes, mates};
use planner_orders::Present;
use sets::carts;
use sheet_table::Table;

// The carts whose rank is `least` or more.
pub fn at_least(ranks: &[u8; 16], least: usize) -> u16
    ensures { result ≡ set_below 16 (λ c. leb least (get_or ranks.now c 0)) }
{
    let mut set = 0u16;
    for c in 0..16 {
        if least <= ranks[c] as usize {
            set = carts::with(set, c);
        }
    }
    set
}

// The set `old` and, where `on`, what `more` shares with `among`.
fn joined(old: u16, more: u16, among: u16, on: bool) -> u16
    ensures { Joined old more among on result }
{
    if on {
        return old | (more & among);
    }
    old
}

// The group of the ranks from `low` on, below `high`, is opened: its pairs are undecided, and carts above it go after those in it.
pub fn open_group(
    ranks: &[u8; 16],
    pairs: &[u16; 128],
    present: &mut Present,
    low: usize,
    high: usize,
)
    ensures { Opens low high ranks.now pairs.now present.old.ahead present.old.behind present.old.undecided
        present.new.ahead present.new.behind present.new.undecided }
{
    let above = at_least(ranks, high);
    let within = carts::less(at_least(ranks, low), above);
    for x in 0..128 {
        let inside = carts::has(within, x / 8);
        let over = carts::has(above, x / 8);
        present.ahead[x] = joined(present.ahead[x], pairs[x], within, over);
        present.behind[x] = joined(present.behind[x], pairs[x], above, inside);
        present.undecided[x] = joined(present.undecided[x], pairs[x], within, inside);
    }
}

// The carts with lower numbers than cart c.
fn lower(c: usize) -> u16
    requires { c < 16 }
    ensures { (d : ℕ) → has result d ≡ ltb d c }
{
    (1u16 << c) - 1
}

// The visitors of the zone of the step at x; none where no step stands there.
pub fn visiting(sheet: &Table, visitors: &[u16; 24], x: usize) -> u16
    requires { (x < 128) × Routes (steps sheet.now) (zone sheet.now) }
    ensures { result ≡ visiting_at sheet.now visitors.now x }
{
    if x % 8 < sheet.steps(x / 8) {
        return visitors[sheet.zone(x)];
    }
    0
}

// The tables before any group is opened: for each step the carts of its lane ahead and behind; and the carts with which it is a pair.
// Never inlined: its own tables would stay on the stack below every trial.
#[inline(never)]
pub fn start_orders(sheet: &Table, visitors: &[u16; 24]) -> (Present, [u16; 128])
    requires { Lent sheet.now visitors.now }
    ensures { Starts sheet.now result.0.ahead result.0.behind result.1 × (result.0.undecided ≡ replicate 128 0) }
{
    let lanes = lanes(sheet);
    let mut present = Present::none();
    let mut pairs = [0u16; 128];
    for x in 0..128 {
        let who = visiting(sheet, visitors, x);
        let apart = carts::less(who, mates(sheet, &lanes, x / 8));
        let own = carts::less(who, apart);
        let later = carts::less(own, lower(x / 8));
        pairs[x] = apart;
        present.ahead[x] = carts::less(own, later);
        present.behind[x] = carts::without(later, x / 8);
    }
    (present, pairs)
}

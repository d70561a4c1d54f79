// First come, first through, over a sheet's table: for each step the carts that go before it.
#![tactic(auto)]

ghost use Rattle.std.specs.Prelude.{ℕ, ◌+◌, ◌<◌, ◌≡◌};
ghost use Rattle.sheet.specs.Valid.{Valid};
ghost use Rattle.plan_lists.specs.inner.Sets.{Routes, who_visits};
ghost use Rattle.sheet_table.specs.inner.Parts.{steps, zone};
ghost use Rattle.sheet_filling.specs.inner.Filled.{sheet_in};
ghost use Rattle.removal.specs.FirstCome.{first_come};
ghost use Rattle.planner_orders.specs.inner.Stands.{StandsBy};
ghost use Rattle.planner_first_come.specs.inner.Putting.{PutTo};

use planner_groups::{at_least, visiting};
use planner_ranks::ranks;
use sets::carts;
use sheet_table::Table;

// The steps of cart c take the visitors of their zones, but for those whose rank is c's or higher. `Known` is no help: no group is tried here.
fn put_cart(sheet: &Table, visitors: &[u16; 24], ranks: &[u8; 16], ahead: &mut [u16; 128], c: usize)
    requires { (c < 16) × Routes (steps sheet.now) (zone sheet.now) × PutTo sheet.now visitors.now ranks.now c 0 ahead.old }
    ensures { PutTo sheet.now visitors.now ranks.now (c + 1) 0 ahead.new }
{
    let later = at_least(ranks, usize::from(ranks[c]));
    for j in 0..sheet.steps(c) {
        let x = 8 * c + j;
        ahead[x] = carts::less(visiting(sheet, visitors, x), later);
    }
}

// A valid sheet's orders by arrival, then number: for each step the carts ahead. The sheet has m carts; `visitors` are the zones'.
pub fn first_come_orders(sheet: &Table, visitors: &[u16; 24], m: usize) -> [u16; 128]
    requires { ((n : ℕ) × Valid (sheet_in n m sheet.now)) × (visitors.now ≡ who_visits (steps sheet.now) (zone sheet.now)) }
    ensures { (n : ℕ) → Valid (sheet_in n m sheet.now) → StandsBy first_come sheet.now n m result }
{
    let ranked = ranks(sheet, m);
    let mut ahead = [0u16; 128];
    for c in 0..m {
        put_cart(sheet, visitors, &ranked, &mut ahead, c);
    }
    ahead
}

// The passing lists read off a table of orders, once every pair is decided.
#![tactic(auto)]

ghost use Rattle.std.specs.Prelude.{◌≡◌, get_or};
ghost use Rattle.std.specs.Int.Count.{ones};
ghost use Rattle.words.specs.Lists.{entries};
ghost use Rattle.sheet_table.specs.inner.Parts.{steps, zone};
ghost use Rattle.planner_lists.specs.inner.Places.{Placeable, PlacedTo, Listed};

use plan::Orders;
use sets::carts;
use sheet_table::Table;
use std::array;

// For each zone the number of its visitors.
fn counts(visitors: &[u16; 24]) -> [u8; 24]
    ensures { result ≡ entries 24 0 (λ z. ones (get_or visitors.now z 0)) }
{
    array::from_fn(|z| carts::count(visitors[z]) as u8)
}

// Every cart at its place in the lists of the zones that it visits.
fn place_carts(sheet: &Table, visitors: &[u16; 24], ahead: &[u16; 128]) -> [u8; 384]
    requires { Placeable (steps sheet.now) (zone sheet.now) ahead.now visitors.now }
    ensures { PlacedTo (steps sheet.now) (zone sheet.now) ahead.now 128 result }
{
    let mut list = [0u8; 384];
    for c in 0..16 {
        for j in 0..sheet.steps(c) {
            let x = 8 * c + j;
            let place = carts::count(ahead[x]) as usize;
            list[16 * sheet.zone(x) + place] = c as u8;
        }
    }
    list
}

// The orders with their passing lists: a cart's place in a zone's list is the number of carts ahead of it there.
// Never inlined: its tables would stand on the stack beside the caller's run.
#[inline(never)]
pub fn passing_lists(sheet: &Table, visitors: &[u16; 24], ahead: &[u16; 128]) -> Orders
    requires { Placeable (steps sheet.now) (zone sheet.now) ahead.now visitors.now }
    ensures { Listed (steps sheet.now) (zone sheet.now) ahead.now visitors.now result }
{
    Orders {
        count: counts(visitors),
        list: place_carts(sheet, visitors, ahead),
        ahead: *ahead,
    }
}

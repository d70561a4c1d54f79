// A request to move a cart, by value: checks 1 to 26, and the cart's new position or how many are ahead of it.
#![tactic(auto)]

ghost use Rattle.std.specs.Prelude.{◌≡◌};
ghost use Rattle.sheet_table.specs.inner.Parts.{zone};
ghost use Rattle.crossing.specs.inner.Tables.{crossing_of};
ghost use Rattle.moving_asking.specs.inner.Tables.{WantsZone, not_gone, held_by, no_move};
ghost use Rattle.moving_asking.specs.Asking.{ask};
ghost use Rattle.moving_asking.specs.inner.Held.{Askable, TestedIn, AskedIn};

use judge_all_out::all_out;
use judge_entering::{Ground, lane_holds};
use judge_one_move::may_move;
use moving_record::{Record, test_record};
use plan::no_orders;
use plan_reader::read_tables;
use sets::carts;
use sheet_table::Table;
use words::{Outcome, done, refused};

// What a request is answered: done with the cart's new position and the new count, or a refusal with both 0.
// Only a cart that is held is told how many carts ahead have not left the zone that it wants, with one more if the lane holds it.
#[repr(C)]
#[derive(Clone, Copy)]
pub struct Asked {
    pub outcome: Outcome,
    pub position: u8,
    pub made: u32,
    pub ahead: u32,
}

// A refusal that tells how many carts are ahead; every other part is 0.
fn no_move(outcome: Outcome, ahead: u32) -> Asked
    ensures { result ≡ no_move outcome ahead }
{
    Asked {
        outcome,
        position: 0,
        made: 0,
        ahead,
    }
}

// How many carts ahead of cart c have not left the zone that it wants: the ones of a set.
fn not_gone(ground: &Ground, at: &[u8; 16], left: &[u16; 24], c: usize) -> u32
    requires { WantsZone (zone ground.now.sheet.now) at.now c }
    ensures { result ≡ not_gone (zone ground.now.sheet.now) ground.now.ahead.now at.now left.now c }
{
    let x = 8 * c + usize::from(at[c]);
    let z = ground.sheet.zone(x);
    carts::count(carts::less(ground.ahead[x], left[z]))
}

// The same, and one more if the lane holds the cart.
fn carts_ahead(ground: &Ground, at: &[u8; 16], left: &[u16; 24], c: usize) -> u32
    requires { WantsZone (zone ground.now.sheet.now) at.now c }
    ensures { result ≡ held_by (crossing_of ground.now.sheet.now ground.now.ahead.now) (zone ground.now.sheet.now) ground.now.ahead.now
        at.now left.now c }
{
    not_gone(ground, at, left, c) + u32::from(lane_holds(&ground.lanes, at, c))
}

// Under a readable plan of m carts: the plan is not locked (22), a run reaches the record (23), and the cart is on the sheet (24) and not out (25).
// Then for each zone the carts that have left it, or the first check that fails.
pub fn test_cart(ground: &Ground, m: usize, lent: Record, cart: usize) -> Result<[u16; 24], Outcome>
    requires { Askable ground.now.sheet.now ground.now.ahead.now m }
    ensures { TestedIn ground.now.sheet.now ground.now.ahead.now m lent cart result }
{
    if !all_out(ground) {
        return Err(refused(22, 0));
    }
    let Some(left) = test_record(ground, lent) else {
        return Err(refused(23, 0));
    };
    if m <= cart {
        return Err(refused(24, 0));
    }
    if ground.sheet.steps(cart) < usize::from(lent.position[cart]) {
        return Err(refused(25, 0));
    }
    Ok(left)
}

// A request under a readable plan, of m carts: the checks of the record and the cart, and the cart is not held (26).
fn ask_plan(ground: &Ground, m: usize, lent: Record, cart: usize) -> Asked
    requires { Askable ground.now.sheet.now ground.now.ahead.now m }
    ensures { AskedIn ground.now.sheet.now ground.now.ahead.now m lent cart result }
{
    let left = match test_cart(ground, m, lent, cart) {
        Ok(left) => left,
        Err(refusal) => return no_move(refusal, 0),
    };
    let at = lent.position;
    if !may_move(ground, &at, &left, cart) {
        return no_move(refused(26, 0), carts_ahead(ground, &at, &left, cart));
    }
    Asked {
        outcome: done(),
        position: at[cart] + 1,
        made: lent.made + 1,
        ahead: 0,
    }
}

// A request to move a cart, for every two byte strings, record and number:
// done with the cart's new position and the new count, or the first of checks 1 to 26 that fails.
pub fn ask(s: &[u8], p: &[u8], lent: Record, cart: usize) -> Asked
    ensures { result ≡ ask s.now p.now lent cart }
{
    let mut sheet = Table::blank();
    let mut orders = no_orders();
    match read_tables(s, p, &mut sheet, &mut orders) {
        Ok(read) => {
            let ground = Ground::of(&sheet, &orders.ahead);
            ask_plan(&ground, read.carts, lent, cart)
        }
        Err(refusal) => no_move(refusal, 0),
    }
}

// The crossing record, and whether a run of the plan reaches it.
#![tactic(auto)]

ghost use Rattle.std.specs.Prelude.{◌≡◌, ◌↔◌, true, ◌≤◌};
ghost use Rattle.sheet_table.specs.inner.Parts.{lane, steps, zone};
ghost use Rattle.crossing.specs.inner.Tables.{crossing_of};
ghost use Rattle.plan_lists.specs.inner.Sets.{Routes};
ghost use Rattle.judge_entering.specs.inner.Lanes.{front_at};
ghost use Rattle.moving_record.specs.inner.Tables.{NonePastOut, zones_left, InZones, InTurn, AllInTurn, FrontsKnown, AllInLine};
ghost use Rattle.moving_record.specs.inner.Tables.{Orderly, TestedAs};

use judge_entering::{Ground, Lanes, front_gone};
use judge_one_move::{may_enter, out_at};
use plan::sum_of;
use plan_lists::who_visits;
use sheet_table::Table;
use std::array;

// The crossing record: where each cart stands, 0 on the lane, k in its k-th zone, steps + 1 out, and how many moves were made. All zero is the start.
#[repr(C)]
#[derive(Clone, Copy)]
pub struct Record {
    pub position: [u8; 16],
    pub made: u32,
}

// Whether no cart stands past out.
fn none_past_out(sheet: &Table, at: &[u8; 16]) -> bool
    requires { Routes (steps sheet.now) (zone sheet.now) }
    ensures { (result ≡ true) ↔ NonePastOut (steps sheet.now) at.now }
{
    (0..16).all(|c| at[c] <= out_at(sheet.steps(c)))
}

// How many zones each cart has left.
fn zones_left(at: &[u8; 16]) -> [u8; 16]
    ensures { result ≡ zones_left at.now }
{
    array::from_fn(|c| at[c].saturating_sub(1))
}

// Whether all carts ahead of each of the first k steps of cart c have left the step's zone.
fn in_turn(sheet: &Table, ahead: &[u16; 128], left: &[u16; 24], c: usize, k: usize) -> bool
    requires { InZones (zone sheet.now) c k }
    ensures { (result ≡ true) ↔ InTurn (zone sheet.now) ahead.now left.now c k }
{
    for j in 0..k {
        if !may_enter(sheet, ahead, left, 8 * c + j) {
            return false;
        }
    }
    true
}

// The same of every step that a cart has entered. Positions and sets are a record's, of which no `Run` is known yet.
fn all_in_turn(sheet: &Table, ahead: &[u16; 128], at: &[u8; 16], left: &[u16; 24]) -> bool
    requires { Routes (steps sheet.now) (zone sheet.now) }
    ensures { (result ≡ true) ↔ AllInTurn (steps sheet.now) (zone sheet.now) ahead.now at.now
        left.now }
{
    (0..16).all(|c| {
        let entered = usize::from(at[c]).min(sheet.steps(c));
        in_turn(sheet, ahead, left, c, entered)
    })
}

// Whether no cart has made its first move before the cart in front of it on its lane has.
fn all_in_line(lanes: &Lanes, at: &[u8; 16]) -> bool
    requires { FrontsKnown (front_at lanes.now) }
    ensures { (result ≡ true) ↔ AllInLine (front_at lanes.now) at.now }
{
    (0..16).all(|c| at[c] == 0 || front_gone(lanes, at, c))
}

// Whether a run reaches the record: no cart is past out, the count is the sum of the positions, every step entered had all carts ahead gone,
// and every cart that has started had the cart in front of it gone. Then for each zone the carts that have left it; None where no run does.
pub fn test_record(ground: &Ground, lent: Record) -> Option<[u16; 24]>
    requires { Orderly (steps ground.now.sheet.now) (zone ground.now.sheet.now) (lane ground.now.sheet.now) ground.now.ahead.now }
    ensures { TestedAs (crossing_of ground.now.sheet.now ground.now.ahead.now) lent result }
{
    let at = lent.position;
    if !none_past_out(ground.sheet, &at) {
        return None;
    }
    if lent.made as usize != sum_of(&at, 16) {
        return None;
    }
    let left = who_visits(ground.sheet, &zones_left(&at));
    if !all_in_turn(ground.sheet, ground.ahead, &at, &left) {
        return None;
    }
    if !all_in_line(&ground.lanes, &at) {
        return None;
    }
    Some(left)
}

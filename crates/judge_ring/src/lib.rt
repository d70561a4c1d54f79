// The ring of a locked plan: who points to whom, followed from the lowest cart that is stuck.
#![tactic(auto)]

ghost use Rattle.std.specs.Prelude.{◌≡◌, ◌↔◌, true, ◌≤◌, ◌<◌, get_or};
ghost use Rattle.moves.specs.Rings.{follow, least_from};
ghost use Rattle.judge_ring.specs.Ring.{no_ring, ring_by};
ghost use Rattle.words.specs.Lists.{entries};
ghost use Rattle.sheet_table.specs.inner.Parts.{steps, zone};
ghost use Rattle.judge_ring.specs.inner.Tables.{NotOutIn, StuckIn, wanted_in, Wanting, point_of, first_not_left};
ghost use Rattle.judge_ring.specs.inner.Tables.{Listable, Pointable, ByTable, by_table};

use judge_entering::{Ground, front, lane_holds};
use plan::Orders;
use sets::carts;
use sheet_table::Table;
use std::array;

// The carts that wait for each other in a circle, begun at the lowest, each with the zone that it wants. Unused entries are 0.
#[repr(C)]
#[derive(Clone, Copy)]
pub struct Ring {
    pub length: usize,
    pub cart: [u8; 16],
    pub zone: [u8; 16],
}

// No ring: every part 0.
pub fn no_ring() -> Ring
    ensures { result ≡ no_ring }
{
    Ring {
        length: 0,
        cart: [0u8; 16],
        zone: [0u8; 16],
    }
}

// The zone that cart c wants at its position; 0 where it wants none, as a chain shows it to C.
pub fn wanted_zone(sheet: &Table, at: &[u8; 16], c: usize) -> usize
    requires { (c < 16) × (get_or (steps sheet.now) c 0 ≤ 8) × (wanted_in (steps sheet.now) (zone sheet.now) at.now c < 24) }
    ensures { result ≡ wanted_in (steps sheet.now) (zone sheet.now) at.now c }
{
    let p = at[c] as usize;
    if p < sheet.steps(c) {
        return sheet.zone(8 * c + p);
    }
    0
}

// The first cart in zone z's list which has not left it; 0, as `first_of` says, where all have. Count and list are as in C's struct.
fn first_not_left(orders: &Orders, left: &[u16; 24], z: usize) -> usize
    requires { (z < 24) × Listable orders.now.count orders.now.list z }
    ensures { (result ≡ first_not_left orders.now.count orders.now.list left.now z) × (result < 16) }
{
    let n = orders.count[z] as usize;
    for k in 0..n {
        let d = orders.list[16 * z + k] as usize;
        if !carts::has(left[z], d) {
            return d;
        }
    }
    0
}

// Where pointing leads from cart c in 16 steps: past every cart that does not repeat.
fn follow_on(to: &[u8; 16], c: usize) -> usize
    requires { (c < 16) × ByTable to.now }
    ensures { (result ≡ follow (by_table to.now) 16 c) × (result < 16) }
{
    let mut d = c;
    for _ in 0..to.len() {
        d = to[d] as usize;
    }
    d
}

// The lowest of cart c and the 16 carts that follow it.
fn least_from(to: &[u8; 16], c: usize) -> usize
    requires { (c < 16) × ByTable to.now }
    ensures { (result ≡ least_from (by_table to.now) 16 c) × (result < 16) }
{
    let mut least = c;
    let mut d = c;
    for _ in 0..to.len() {
        d = to[d] as usize;
        least = least.min(d);
    }
    least
}

// The zone that each cart wants.
pub fn wanted_zones(sheet: &Table, at: &[u8; 16]) -> [u8; 16]
    requires { Wanting (steps sheet.now) (zone sheet.now) at.now }
    ensures { result ≡ entries 16 0 (wanted_in (steps sheet.now) (zone sheet.now) at.now) }
{
    array::from_fn(|c| wanted_zone(sheet, at, c) as u8)
}

// The cart that cart c points to: the one in front where the lane holds it, else the first in the wanted zone's list which has not left it.
// `Pointable` stays a clause: it is of a sheet, orders and positions, which no one value has.
pub fn points_to(
    ground: &Ground,
    orders: &Orders,
    at: &[u8; 16],
    left: &[u16; 24],
    c: usize,
) -> usize
    requires { Pointable ground.now.sheet.now orders.now.count orders.now.list at.now × (c < 16) }
    ensures { (result ≡ point_of ground.now.sheet.now orders.now.count orders.now.list at.now left.now c)
        × (result < 16) }
{
    if lane_holds(&ground.lanes, at, c) {
        return front(&ground.lanes, c).unwrap();
    }
    first_not_left(orders, left, wanted_zone(ground.sheet, at, c))
}

// The cart that each cart points to.
fn pointing(ground: &Ground, orders: &Orders, at: &[u8; 16], left: &[u16; 24]) -> [u8; 16]
    requires { Pointable ground.now.sheet.now orders.now.count orders.now.list at.now }
    ensures { (result ≡ entries 16 0 (point_of ground.now.sheet.now orders.now.count orders.now.list at.now left.now))
        × ByTable result }
{
    array::from_fn(|c| points_to(ground, orders, at, left, c) as u8)
}

// The ring that pointing comes to from cart c: its lowest cart, then each that follows until the lowest comes again.
fn ring_by(to: &[u8; 16], wanted: &[u8; 16], c: usize) -> Ring
    requires { (c < 16) × ByTable to.now }
    ensures { result ≡ ring_by (by_table to.now) (by_table wanted.now) 16 c }
{
    let first = least_from(to, follow_on(to, c));
    let mut cart = [0u8; 16];
    let mut zone = [0u8; 16];
    cart[0] = first as u8;
    zone[0] = wanted[first];
    // How long the ring is shows only when its first cart comes again.
    let mut n = 1;
    let mut d = to[first] as usize;
    while d != first {
        cart[n] = d as u8;
        zone[n] = wanted[d];
        n += 1;
        d = to[d] as usize;
    }
    Ring {
        length: n,
        cart,
        zone,
    }
}

// The ring that pointing comes to from cart c, where the carts stand and have left zones as the tables say.
pub fn ring_of(ground: &Ground, orders: &Orders, at: &[u8; 16], left: &[u16; 24], c: usize) -> Ring
    requires { Pointable ground.now.sheet.now orders.now.count orders.now.list at.now × (c < 16) }
    ensures { result ≡ ring_by (point_of ground.now.sheet.now orders.now.count orders.now.list at.now left.now)
        (wanted_in (steps ground.now.sheet.now) (zone ground.now.sheet.now) at.now) 16 c }
{
    let wanted = wanted_zones(ground.sheet, at);
    let to = pointing(ground, orders, at, left);
    ring_by(&to, &wanted, c)
}

// Whether cart c is not out.
fn not_out(sheet: &Table, at: &[u8; 16], c: usize) -> bool
    requires { c < 16 }
    ensures { (result ≡ true) ↔ NotOutIn (steps sheet.now) at.now c }
{
    let k = sheet.steps(c);
    0 < k && at[c] as usize <= k
}

// The lowest cart that is not out; none where all are.
pub fn lowest_stuck(sheet: &Table, at: &[u8; 16]) -> Option<usize>
    ensures { StuckIn (steps sheet.now) at.now result }
{
    (0..16).find(|c| not_out(sheet, at, *c))
}

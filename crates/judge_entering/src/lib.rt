// When a cart enters a zone: as soon as it is ready and clear of every cart ahead.
#![tactic(auto)]

ghost use Rattle.std.specs.Prelude.{◌≡◌, ◌↔◌, true, List, ℕ, ◌≤◌, ◌<◌, get_or, set};
ghost use Rattle.words.specs.Limits.{most_time};
ghost use Rattle.words.specs.inner.Limits.{latest_leaving};
ghost use Rattle.sets.specs.inner.Member.{has};
ghost use Rattle.routes.specs.Lanes.{lane_holds};
ghost use Rattle.sheet_table.specs.inner.Parts.{lane, zone};
ghost use Rattle.crossing.specs.inner.Tables.{crossing_of, FrontGone};
ghost use Rattle.judge_entering.specs.inner.Lanes.{
  lanes_of,
  mates_of,
  front_at,
  cart_in_front,
  present_lanes,
  member_before,
  Foremost,
  NextBehind,
  front_time,
};
ghost use Rattle.judge_entering.specs.inner.Times.{clear_by, clear_of, latest, AtMost, Enterable};

use sets::carts;
use sheet_table::Table;

// For each lane the set of the carts on it; then, from 16 on, for each cart one more than the cart next in front of it, 0 where there is none.
// It stays a list of numbers: `front`, `front_gone` and `lane_holds` promise of any such list, and a type that keeps a fact would ask more.
pub type Lanes = [u16; 32];

// The lanes of a sheet, in one pass over its carts.
#[tactic(auto, using(crate::proofs::LaneLaws::lane_16))]
pub fn lanes(sheet: &Table) -> Lanes
    requires { AtMost 15 (lane sheet.now) }
    ensures { result ≡ lanes_of sheet.now }
{
    let mut lanes = [0u16; 32];
    let mut latest = [0u16; 16];
    for c in 0..16 {
        let l = sheet.lane(c);
        lanes[l] = carts::with(lanes[l], c);
        // An absent cart is on no lane.
        if 0 < sheet.steps(c) {
            lanes[16 + c] = latest[l];
            latest[l] = c as u16 + 1;
        }
    }
    lanes
}

// A sheet with the lanes worked out for it, and orders: the set of carts ahead of each step.
#[derive(Clone, Copy)]
pub struct Ground<'a> {
    pub sheet: &'a Table,
    pub ahead: &'a [u16; 128],
    pub lanes: Lanes,
    ghost lanes_are: { lanes ≡ lanes_of sheet.now },
}

impl<'a> Ground<'a> {
    // The ground of a sheet and the sets of carts ahead of its steps.
    pub fn of(sheet: &'a Table, ahead: &'a [u16; 128]) -> Ground<'a>
        requires { AtMost 15 (lane sheet.now) }
        ensures { (result.sheet.now ≡ sheet.now) × (result.ahead.now ≡ ahead.now) }
    {
        Ground {
            sheet,
            ahead,
            lanes: lanes(sheet),
        }
    }
}

// The set of the carts on cart c's lane.
#[tactic(auto, using(crate::proofs::LaneLaws::lane_16))]
pub fn mates(sheet: &Table, lanes: &Lanes, c: usize) -> u16
    requires { (c < 16) × AtMost 15 (lane sheet.now) × (lanes.now ≡ lanes_of sheet.now) }
    ensures { result ≡ mates_of sheet.now c }
{
    lanes[sheet.lane(c)]
}

// For each lane the set of the carts on it; an absent cart is on none.
#[tactic(auto, using(crate::proofs::LaneLaws::lane_16))]
pub fn present_lanes(sheet: &Table) -> [u16; 16]
    requires { AtMost 15 (lane sheet.now) }
    ensures { result ≡ present_lanes sheet.now }
{
    let mut on = [0u16; 16];
    for c in 0..16 {
        if 0 < sheet.steps(c) {
            let l = sheet.lane(c);
            on[l] = carts::with(on[l], c);
        }
    }
    on
}

// The set of the carts that have nobody in front of them on their lane.
pub fn foremost(on: &[u16; 16]) -> u16
    ensures { Foremost on.now 16 result }
{
    let mut set = 0;
    for &mates in on {
        set = carts::joined(set, carts::first(mates));
    }
    set
}

// The set of the cart next behind cart c, of the carts on its lane.
pub fn next_behind(mates: u16, c: usize) -> u16
    requires { (c < 16) × (has mates c ≡ true) }
    ensures { NextBehind mates c result }
{
    carts::first(carts::less(mates, carts::below(mates, c + 1)))
}

// The cart next in front of cart c on its lane, where there is one.
pub fn front(lanes: &Lanes, c: usize) -> Option<usize>
    requires { c < 16 }
    ensures { result ≡ cart_in_front (front_at lanes.now c) }
{
    usize::from(lanes[16 + c]).checked_sub(1)
}

// Whether whoever is next in front of cart c on its lane has made its first move.
pub fn front_gone(lanes: &Lanes, at: &[u8; 16], c: usize) -> bool
    requires { (c < 16) × (front_at lanes.now c ≤ 16) }
    ensures { (result ≡ true) ↔ FrontGone (front_at lanes.now c) at.now }
{
    front(lanes, c).is_none_or(|d| 0 < at[d])
}

// Whether the lane holds cart c, whatever the orders in the zones: neither it nor the cart in front of it has made its first move.
pub fn lane_holds(lanes: &Lanes, at: &[u8; 16], c: usize) -> bool
    requires { (c < 16) × (front_at lanes.now c ≤ 16) }
    ensures { (sheet : _) (ahead : List ℕ) → lanes.now ≡ lanes_of sheet → result ≡ lane_holds (crossing_of sheet ahead) at.now c }
{
    if 0 < at[c] {
        return false;
    }
    !front_gone(lanes, at, c)
}

// The first entering time of the cart next in front of cart c, of the carts on its lane; 0, the least of times, where there is none.
pub fn front_enters(mates: u16, enter: &[u32; 128], c: usize) -> u32
    requires { c < 16 }
    ensures { result ≡ front_time (member_before mates c) enter.now }
{
    let lower = carts::below(mates, c);
    if lower == 0 {
        return 0;
    }
    enter[8 * carts::highest(lower)]
}

// The latest of a time and the times at which the gap is over behind each cart of a set, all of which have left zone z.
fn latest_clear(leave: &[u32; 384], z: usize, gap: u32, members: u16, ready: u32) -> u32
    requires { (z < 24) × (gap ≤ most_time) × AtMost latest_leaving leave.now }
    ensures { result ≡ latest (clear_by leave.now z gap) members ready }
{
    let mut time = ready;
    let mut others = members;
    while 0 < others {
        let d = carts::lowest(others);
        others = carts::rest(others);
        time = time.max(leave[16 * z + d] + gap);
    }
    time
}

// Cart c enters the zone of its step at x as soon as it is ready and clear of every cart ahead; answers the time.
// `mates` are the carts on its lane; absent ones are never ahead. Its tables stay apart: who calls has two of them in a `Run`, which is made above.
pub fn enter_zone(
    sheet: &Table,
    ahead: &[u16; 128],
    mates: u16,
    leave: &[u32; 384],
    enter: &mut [u32; 128],
    x: usize,
    c: usize,
    ready: u32,
) -> u32
    requires { Enterable sheet.now ahead.now mates leave.now x c }
    ensures { (result ≡ latest (clear_of sheet.now leave.now (get_or (zone sheet.now) x 0) c)
        (get_or ahead.now x 0) ready) × (enter.new ≡ set enter.old x result) }
{
    let z = sheet.zone(x);
    let others = carts::less(ahead[x], mates);
    let follow = sheet.follow(z);
    let clear = latest_clear(leave, z, follow, carts::less(ahead[x], others), ready);
    let time = latest_clear(leave, z, sheet.cross(z), others, clear);
    enter[x] = time;
    time
}

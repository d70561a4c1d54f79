// One cart's lane, arrival and step count, and one step, read.
#![tactic(auto)]

ghost use Rattle.std.specs.Prelude.{◌≡◌, ◌≤◌, ◌<◌, leb};
ghost use Rattle.sets.specs.inner.Member.{has};
ghost use Rattle.sheet.specs.Checks.{most_travel};
ghost use Rattle.sheet_cart.specs.inner.Parts.{head_at, step_at};

use fields::{Cursor, four_bytes, one_byte, refused_at, two_bytes};
use sets::zones;
use words::{LATEST_ARRIVAL, MOST_TIME, Outcome};

// What a cart has before its steps, with the place of its arrival.
#[derive(Clone, Copy)]
pub struct CartHead {
    pub lane: u8,
    pub arrival: u32,
    pub place: usize,
    pub steps: u8,
}

#[derive(Clone, Copy)]
pub struct Step {
    pub zone: u8,
    pub passing: u16,
    pub travel: u16,
}

// Lane, arrival and step count of the cart at c, with the cursor after them.
#[tactic(auto, using(fields::proofs::TakingLaws::ways_on), unfolding(crate::specs::inner::Parts::head_at))]
pub fn read_head(s: &[u8], c: Cursor) -> Result<(CartHead, Cursor), Outcome>
    ensures { result ≡ head_at s.now c }
{
    let Some((lane, c2)) = one_byte(s, c) else {
        return Err(refused_at(1, c));
    };
    if 15 < lane {
        return Err(refused_at(7, c));
    }
    let Some((arrival, c3)) = four_bytes(s, c2) else {
        return Err(refused_at(1, c2));
    };
    if LATEST_ARRIVAL < arrival {
        return Err(refused_at(8, c2));
    }
    let Some((steps, c4)) = one_byte(s, c3) else {
        return Err(refused_at(1, c3));
    };
    if steps < 1 {
        return Err(refused_at(9, c3));
    }
    if 8 < steps {
        return Err(refused_at(9, c3));
    }
    let head = CartHead {
        lane: lane as u8,
        arrival,
        place: c2.at,
        steps: steps as u8,
    };
    Ok((head, c4))
}

// Whether t may be the travel time of step j of k.
fn is_travel(t: u32, j: usize, k: usize) -> bool
    requires { j < k }
    ensures { result ≡ leb t (most_travel j k) }
{
    if MOST_TIME < t {
        return false;
    }
    if j + 1 == k { t == 0 } else { true }
}

// Step j of k at c, with the cursor after it, of a route whose earlier steps name the zones seen; n zones.
#[tactic(auto, using(fields::proofs::TakingLaws::ways_on), unfolding(crate::specs::inner::Parts::step_at))]
pub fn read_step(
    s: &[u8],
    c: Cursor,
    n: usize,
    seen: u32,
    j: usize,
    k: usize,
) -> Result<(Step, Cursor), Outcome>
    requires { (j < k) × (n ≤ 24) }
    ensures { result ≡ step_at s.now n (has seen) j k c }
{
    let Some((z, c2)) = one_byte(s, c) else {
        return Err(refused_at(1, c));
    };
    if n <= z as usize {
        return Err(refused_at(10, c));
    }
    if zones::has(seen, z as usize) {
        return Err(refused_at(11, c));
    }
    let Some((p, c3)) = two_bytes(s, c2) else {
        return Err(refused_at(1, c2));
    };
    if MOST_TIME < p {
        return Err(refused_at(12, c2));
    }
    let Some((t, c4)) = two_bytes(s, c3) else {
        return Err(refused_at(1, c3));
    };
    if !is_travel(t, j, k) {
        return Err(refused_at(12, c3));
    }
    let step = Step {
        zone: z as u8,
        passing: p as u16,
        travel: t as u16,
    };
    Ok((step, c4))
}

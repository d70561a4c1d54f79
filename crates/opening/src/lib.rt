// What a sheet and a plan begin with, read: version, length, zone count.
#![tactic(auto)]

ghost use Rattle.std.specs.Prelude.{◌≡◌, ◌≤◌};
ghost use Rattle.opening.specs.inner.Opening.{opening_at};

use fields::{Cursor, one_byte, outside, refused_at, two_bytes};
use words::Outcome;

// What a sheet and a plan begin with: version, length and zone count, which is from least to most. Answers the zone count and the cursor after it.
// The numbers of the checks follow each other from that of a cut field on.
#[tactic(auto, using(fields::proofs::TakingLaws::ways_on), unfolding(crate::specs::inner::Opening::opening_by))]
pub fn read_opening(
    s: &[u8],
    first: u32,
    least: usize,
    most: usize,
) -> Result<(usize, Cursor), Outcome>
    requires { first ≤ 15 }
    ensures { result ≡ opening_at s.now first least most }
{
    let start = outside(0);
    let Some((version, c)) = one_byte(s, start) else {
        return Err(refused_at(first, start));
    };
    if version != 1 {
        return Err(refused_at(first + 1, start));
    }
    let Some((total, c2)) = two_bytes(s, c) else {
        return Err(refused_at(first, c));
    };
    if total as usize != s.len() {
        return Err(refused_at(first + 2, c));
    }
    let Some((count, c3)) = one_byte(s, c2) else {
        return Err(refused_at(first, c2));
    };
    let n = count as usize;
    if n < least {
        return Err(refused_at(first + 3, c2));
    }
    if most < n {
        return Err(refused_at(first + 3, c2));
    }
    Ok((n, c3))
}

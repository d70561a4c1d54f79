// The ranks of carts by arrival, then number.
#![tactic(auto)]

ghost use Rattle.std.specs.Prelude.{◌≡◌, ◌≤◌, ◌<◌};
ghost use Rattle.sheet_table.specs.inner.Parts.{arrival};
ghost use Rattle.planner_ranks.specs.inner.Ranks.{comes_before_in, rank_in, Ranks};

use sheet_table::Table;

// Whether cart d comes before cart c: by arrival, then number.
fn comes_before(sheet: &Table, d: usize, c: usize) -> bool
    requires { (d < 16) × (c < 16) }
    ensures { result ≡ comes_before_in (arrival sheet.now) d c }
{
    (sheet.arrival(d), d) < (sheet.arrival(c), c)
}

// How many of the m carts come before cart c.
fn rank_of(sheet: &Table, m: usize, c: usize) -> u8
    requires { (m ≤ 16) × (c < 16) }
    ensures { result ≡ rank_in (arrival sheet.now) m c }
{
    let mut rank = 0;
    for d in 0..m {
        rank += u8::from(comes_before(sheet, d, c));
    }
    rank
}

// The rank of each of the m carts.
pub fn ranks(sheet: &Table, m: usize) -> [u8; 16]
    requires { m ≤ 16 }
    ensures { Ranks (arrival sheet.now) m result }
{
    let mut ranks = [0u8; 16];
    for c in 0..m {
        ranks[c] = rank_of(sheet, m, c);
    }
    ranks
}

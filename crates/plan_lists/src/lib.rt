// The plan's lists read: nested loops, left at the first byte that breaks a rule; membership by sets.
#![tactic(auto)]

ghost use Rattle.std.specs.Prelude.{◌≡◌, ◌≤◌, Err};
ghost use Rattle.words.specs.inner.Checks.{Leaves};
ghost use Rattle.sheet_table.specs.inner.Parts.{zone, lane};
ghost use Rattle.plan_lists.specs.inner.Sets.{Routes, Lanes, Sets, who_visits, may_lead, first_late};
ghost use Rattle.plan_lists.specs.inner.Scan.{count_taken, cart_taken, no_lists, Blank, lists_from, read_to};

use fields::{Cursor, one_byte, outside, refused_at};
use plan::Orders;
use sets::carts;
use sheet_table::Table;
use words::Outcome;

// For each zone the carts that name it among the first steps of their routes, where so many of each cart's are counted.
pub fn who_visits(sheet: &Table, counts: &[u8; 16]) -> [u16; 24]
    requires { Routes counts.now (zone sheet.now) }
    ensures { result ≡ who_visits counts.now (zone sheet.now) }
{
    let mut who = [0u16; 24];
    for (i, &k) in counts.iter().enumerate() {
        for j in 0..usize::from(k) {
            let z = sheet.zone(8 * i + j);
            who[z] = carts::with(who[z], i);
        }
    }
    who
}

// For each cart the carts that may be ahead of it: all but the higher-numbered of its lane.
// From the last cart down, allowed holds for each lane the carts that may be ahead of its next cart.
pub fn may_lead(sheet: &Table) -> [u16; 16]
    requires { Lanes (lane sheet.now) }
    ensures { result ≡ may_lead (lane sheet.now) }
{
    let mut allowed = [u16::MAX; 16];
    let mut lead = [0u16; 16];
    for i in (0..16).rev() {
        let l = sheet.lane(i);
        lead[i] = allowed[l];
        allowed[l] = carts::without(allowed[l], i);
    }
    lead
}

// The count of a list at a place, which is that of the carts that visit the zone, with the cursor after it.
fn take_count(p: &[u8], at: usize, who: u16) -> Result<(u8, Cursor), Outcome>
    ensures { result ≡ count_taken p.now who at }
{
    let c = outside(at);
    let Some((k, next)) = one_byte(p, c) else {
        return Err(refused_at(15, c));
    };
    if k != carts::count(who) {
        return Err(refused_at(19, c));
    }
    Ok((k as u8, next))
}

// The cart at a place, which visits the zone and is not seen in its list before, with the cursor after it.
fn take_cart(p: &[u8], at: usize, who: u16, seen: u16) -> Result<(u8, Cursor), Outcome>
    ensures { result ≡ cart_taken p.now who seen at }
{
    let c = outside(at);
    let Some((i, next)) = one_byte(p, c) else {
        return Err(refused_at(15, c));
    };
    if 15 < i || !carts::has(carts::less(who, seen), i as usize) {
        return Err(refused_at(19, c));
    }
    Ok((i as u8, next))
}

// The first byte with a cart that has one ahead which may not be: late, or else at where seen is not all in lead.
fn first_late(late: Option<usize>, at: usize, seen: u16, lead: u16) -> Option<usize>
    ensures { result ≡ first_late late at seen lead }
{
    if carts::within(seen, lead) {
        late
    } else {
        late.or(Some(at))
    }
}

// Where the scan of the lists was left after the last list.
// late is the first byte with a cart that has a higher-numbered one of its lane ahead: 20 is tested before it.
#[derive(Clone, Copy)]
pub struct ListScan {
    pub at: usize,
    pub late: Option<usize>,
}

// The lists of n zones, read into blank orders: nested loops over zones and entries, left by the label at the first byte that breaks a rule.
// At 16 * z + i of before stand the carts ahead of cart i in zone z's list. `who` and `lead` are read, the other two filled: one struct would be taken apart at once.
pub fn scan_lists(
    p: &[u8],
    start: usize,
    n: usize,
    who: &[u16; 24],
    lead: &[u16; 16],
    orders: &mut Orders,
    before: &mut [u16; 384],
) -> Result<ListScan, Outcome>
    requires { (n ≤ 24) × Sets who.now × Blank orders.old before.old }
    ensures { (orders.new.ahead ≡ orders.old.ahead) × Leaves Err (lists_from p.now who.now lead.now n 0 no_lists start)
        (λ scan. read_to scan orders.new before.new) result }
{
    let mut late = None;
    let mut at = start;
    'scan: {
        for z in 0..n {
            let visitors = who[z];
            let (k, next) = match take_count(p, at, visitors) {
                Ok(taken) => taken,
                Err(refusal) => break 'scan Err(refusal),
            };
            orders.count[z] = k;
            at = next.at;
            let mut seen = 0u16;
            for e in 0..usize::from(k) {
                let (i, next) = match take_cart(p, at, visitors, seen) {
                    Ok(taken) => taken,
                    Err(refusal) => break 'scan Err(refusal),
                };
                let d = usize::from(i);
                orders.list[16 * z + e] = i;
                before[16 * z + d] = seen;
                late = first_late(late, at, seen, lead[d]);
                seen = carts::with(seen, d);
                at = next.at;
            }
        }
        Ok(ListScan { at, late })
    }
}

// One zone's passing list, as the very part of the plan lent.
#![tactic(auto)]

ghost use Rattle.std.specs.Prelude.{◌≡◌, MatchResult};
ghost use Rattle.plan_zone_list.specs.Finding.{not_found, FoundIs, PartIs};

use plan::{no_orders, sum_of};
use plan_reader::read_tables;
use sheet_table::Table;
use words::{Outcome, done, refused};

// Where a zone's passing list stands in the plan lent, or a refusal with both 0.
#[repr(C)]
#[derive(Clone, Copy)]
pub struct ListFound {
    pub outcome: Outcome,
    pub start: usize,
    pub length: usize,
}

fn not_found(outcome: Outcome) -> ListFound
    ensures { result ≡ not_found outcome }
{
    ListFound {
        outcome,
        start: 0,
        length: 0,
    }
}

// The plan read, and where the zone's list stands in it.
fn list_of(s: &[u8], p: &[u8], zone: usize) -> Result<ListFound, Outcome>
    ensures { MatchResult result (λ found. FoundIs s.now p.now zone found)
        (λ outcome. FoundIs s.now p.now zone (not_found outcome)) }
{
    let mut table = Table::blank();
    let mut orders = no_orders();
    let counts = read_tables(s, p, &mut table, &mut orders)?;
    if counts.zones <= zone {
        return Err(refused(27, 0));
    }
    let sum = sum_of(&orders.count, zone);
    Ok(ListFound {
        outcome: done(),
        start: 5 + zone + sum,
        length: usize::from(orders.count[zone]),
    })
}

// The number and place of the list operation, 1 to 21 and then 27, and where the list stands.
pub fn find_list(s: &[u8], p: &[u8], zone: usize) -> ListFound
    ensures { FoundIs s.now p.now zone result }
{
    list_of(s, p, zone).unwrap_or_else(not_found)
}

// A zone's passing list as the very part of the plan lent; the empty part on refusal, whose number and place `find_list` gives.
pub fn passing_list<'s, 'p>(s: &'s [u8], p: &'p [u8], zone: usize) -> &'p [u8]
    ensures { PartIs s.now p.entry zone result }
{
    let found = find_list(s, p, zone);
    let start = found.start;
    let end = start + found.length;
    &p[start..end]
}

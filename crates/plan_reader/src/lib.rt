// A plan for a sheet read, in one pass.
#![tactic(auto)]

ghost use Rattle.std.specs.Prelude.{◌≡◌, ◌<◌, replicate};
ghost use Rattle.sheet_table.specs.inner.Parts.{steps, zone, lane, blank_table};
ghost use Rattle.plan.specs.Reading.{no_orders, plan_refused, read_plan};
ghost use Rattle.plan_lists.specs.inner.Sets.{Routes};
ghost use Rattle.plan_reader.specs.inner.Scan.{TablesFit, ReadInto, BothRead, ahead_at, ahead_of, from_lists, scan};

use opening::read_opening;
use plan::{Orders, PlanRead, no_orders};
use plan_lists::{may_lead, scan_lists, who_visits};
use sheet::blank_sheet;
use sheet_filling::{sheet_of, step_counts};
use sheet_reader::{Counts, fill};
use sheet_table::Table;
use words::{Outcome, done, refused};

// The carts ahead at x, which is 8 * i + j for step j of cart i: those ahead of it in the list of the step's zone, none where there is no such step.
fn ahead_at(sheet: &Table, before: &[u16; 384], x: usize) -> u16
    requires { (x < 128) × Routes (steps sheet.now) (zone sheet.now) }
    ensures { result ≡ ahead_at (steps sheet.now) (zone sheet.now) before.now x }
{
    let i = x / 8;
    if x % 8 < sheet.steps(i) {
        let z = sheet.zone(x);
        before[16 * z + i]
    } else {
        0
    }
}

// The carts ahead at each step, put into a blank table where it stands: made apart and moved, it would be copied.
fn put_ahead(sheet: &Table, before: &[u16; 384], ahead: &mut [u16; 128])
    requires { Routes (steps sheet.now) (zone sheet.now) × (ahead.old ≡ no_orders.ahead) }
    ensures { ahead.new ≡ ahead_of (steps sheet.now) (zone sheet.now) before.now }
{
    for x in 0..128 {
        ahead[x] = ahead_at(sheet, before, x);
    }
}

// A refusal: every other part of the answer is 0.
fn plan_refused(outcome: Outcome) -> PlanRead
    ensures { result ≡ plan_refused outcome }
{
    PlanRead {
        outcome,
        sheet: blank_sheet(),
        orders: no_orders(),
    }
}

// The lists; then no byte may follow (20), and no listed cart has a higher-numbered one of its lane ahead (21).
fn read_lists(
    p: &[u8],
    start: usize,
    zones: usize,
    sheet: &Table,
    orders: &mut Orders,
) -> Result<(), Outcome>
    requires { TablesFit zones (steps sheet.now) (zone sheet.now) (lane sheet.now) × (orders.old ≡ no_orders) }
    ensures { ReadInto (from_lists p.now zones (steps sheet.now) (zone sheet.now) (lane sheet.now) start) orders.new result }
{
    let who = who_visits(sheet, &step_counts(sheet));
    let lead = may_lead(sheet);
    let mut before = [0u16; 384];
    let scan = scan_lists(p, start, zones, &who, &lead, orders, &mut before)?;
    if scan.at != p.len() {
        return Err(refused(20, scan.at));
    }
    if let Some(place) = scan.late {
        return Err(refused(21, place));
    }
    put_ahead(sheet, &before, &mut orders.ahead);
    Ok(())
}

// The orders of a plan for a sheet with these zones, routes and lanes, read into blank orders: version, length, zone count, and the lists.
pub fn read_orders(
    p: &[u8],
    zones: usize,
    sheet: &Table,
    orders: &mut Orders,
) -> Result<(), Outcome>
    requires { TablesFit zones (steps sheet.now) (zone sheet.now) (lane sheet.now) × (orders.old ≡ no_orders) }
    ensures { ReadInto (scan p.now zones (steps sheet.now) (zone sheet.now) (lane sheet.now)) orders.new result }
{
    let (_, c) = read_opening(p, 15, zones, zones)?;
    read_lists(p, c.at, zones, sheet, orders)
}

// A sheet and a plan for it read into blank tables, the sheet fully before the plan: the counts, or the first of checks 1 to 21 that fails.
// Reading a plan, judging and requests all begin so. That the orders are blank stays a clause: they are filled here.
pub fn read_tables(
    s: &[u8],
    p: &[u8],
    sheet: &mut Table,
    orders: &mut Orders,
) -> Result<Counts, Outcome>
    requires { (sheet.old ≡ blank_table) × (orders.old ≡ no_orders) }
    ensures { BothRead s.now p.now sheet.new orders.new result }
{
    let counts = fill(s, sheet)?;
    read_orders(p, counts.zones, sheet, orders)?;
    Ok(counts)
}

// A plan for a sheet, for every two byte strings: done with the sheet and the orders, or the first of checks 1 to 21 that fails.
pub fn read_plan(s: &[u8], p: &[u8]) -> PlanRead
    ensures { result ≡ read_plan s.now p.now }
{
    let mut table = Table::blank();
    let mut orders = no_orders();
    match read_tables(s, p, &mut table, &mut orders) {
        Ok(counts) => PlanRead {
            outcome: done(),
            sheet: sheet_of(counts.zones, counts.carts, &table),
            orders,
        },
        Err(refusal) => plan_refused(refusal),
    }
}

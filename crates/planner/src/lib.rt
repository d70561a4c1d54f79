// A sheet planned by one of three rules, and written into lent room: by removal, first come first through, and the better of the two.
#![tactic(auto)]

ghost use Rattle.std.specs.Prelude.{ℕ, ◌≡◌, length, ltb, MatchResult};
ghost use Rattle.words.specs.Lists.{pick};
ghost use Rattle.sheet.specs.Valid.{Valid};
ghost use Rattle.plan_lists.specs.inner.Sets.{who_visits};
ghost use Rattle.sheet_table.specs.inner.Parts.{steps, zone};
ghost use Rattle.sheet_filling.specs.inner.Filled.{sheet_in};
ghost use Rattle.planner.specs.Planning.{not_planned, plan_sheet, room_after};
ghost use Rattle.planner.specs.inner.Lists.{ByRule, ToList, ListsOf};

use judge_finish::finish_of;
use judge_one_move::Run;
use judge_verdict::verdict_of;
use plan::{Orders, sum_of};
use plan_lists::who_visits;
use plan_writer::write_plan;
use planner_first_come::first_come_orders;
use planner_lists::passing_lists;
use planner_solving::solve_sheet;
use sheet_filling::step_counts;
use sheet_reader::fill;
use sheet_table::Table;
use words::{Outcome, done, refused};

// By which rule a sheet is planned: document 01's removal, by arrival and then cart number, or the one of these two which finishes earlier.
#[derive(Clone, Copy)]
pub enum Rule {
    Removal,
    First,
    Better,
}

// The orders of a plan, and its finish.
#[derive(Clone, Copy)]
struct OrdersPlanned {
    pub orders: Orders,
    pub finish: u32,
}

// The orders of a table in lists, with their finish: for each step the table has the set of the carts ahead.
// Never inlined: its run would stay on the stack below the whole solving.
#[inline(never)]
fn lists_of(sheet: &Table, visitors: &[u16; 24], ahead: &[u16; 128]) -> OrdersPlanned
    requires { ToList sheet.now visitors.now ahead.now }
    ensures { ListsOf sheet.now ahead.now result }
{
    let mut run = Run::start();
    verdict_of(sheet, ahead, &mut run);
    OrdersPlanned {
        orders: passing_lists(sheet, visitors, ahead),
        finish: finish_of(sheet, &run.enter),
    }
}

// The one which finishes earlier, the removal plan if equal.
fn earlier(removal: OrdersPlanned, first: OrdersPlanned) -> OrdersPlanned
    ensures { result ≡ pick (ltb first.finish removal.finish) first removal }
{
    if first.finish < removal.finish {
        first
    } else {
        removal
    }
}

// The better of what the removal rule and first come give a valid sheet of m carts; `visitors` are the zones'.
// Never inlined: a rule alone needs no tables of two on the stack.
#[inline(never)]
fn better_orders(sheet: &Table, visitors: &[u16; 24], m: usize) -> OrdersPlanned
    requires { ((n : ℕ) × Valid (sheet_in n m sheet.now)) × (visitors.now ≡ who_visits (steps sheet.now) (zone sheet.now)) }
    ensures { (n : ℕ) → Valid (sheet_in n m sheet.now) → ByRule Rule.Better (sheet_in n m sheet.now) result }
{
    earlier(
        lists_of(sheet, visitors, &solve_sheet(sheet, visitors, m)),
        lists_of(sheet, visitors, &first_come_orders(sheet, visitors, m)),
    )
}

// The orders that a rule gives a valid sheet of m carts, and their finish; `visitors` are the zones'.
// Never inlined: what is refused before needs no orders on the stack.
#[inline(never)]
fn orders_by(rule: Rule, sheet: &Table, visitors: &[u16; 24], m: usize) -> OrdersPlanned
    requires { ((n : ℕ) × Valid (sheet_in n m sheet.now)) × (visitors.now ≡ who_visits (steps sheet.now) (zone sheet.now)) }
    ensures { (n : ℕ) → Valid (sheet_in n m sheet.now) → ByRule rule (sheet_in n m sheet.now) result }
{
    match rule {
        Rule::Removal => lists_of(sheet, visitors, &solve_sheet(sheet, visitors, m)),
        Rule::First => lists_of(sheet, visitors, &first_come_orders(sheet, visitors, m)),
        Rule::Better => better_orders(sheet, visitors, m),
    }
}

// What planning answers: done with the plan's length and finish, or a refusal with both 0.
#[repr(C)]
#[derive(Clone, Copy)]
pub struct Planned {
    pub outcome: Outcome,
    pub length: usize,
    pub finish: u32,
}

fn not_planned(outcome: Outcome) -> Planned
    ensures { result ≡ not_planned outcome }
{
    Planned {
        outcome,
        length: 0,
        finish: 0,
    }
}

// A sheet planned by a rule: 1 to 14, then 28, before anything is planned; the plan stands at the start of the room lent.
fn planned_by(rule: Rule, s: &[u8], room: &mut [u8]) -> Result<Planned, Outcome>
    ensures answer { MatchResult result (λ planned. planned ≡ plan_sheet rule s.now (length room.old))
        (λ outcome. not_planned outcome ≡ plan_sheet rule s.now (length room.old)) }
    ensures holds { room.new ≡ room_after rule s.now room.old }
{
    let mut sheet = Table::blank();
    let read = fill(s, &mut sheet)?;
    let counts = step_counts(&sheet);
    let length = 4 + read.zones + sum_of(&counts, 16);
    if room.len() < length {
        return Err(refused(28, 0));
    }
    let who = who_visits(&sheet, &counts);
    let planned = orders_by(rule, &sheet, &who, read.carts);
    write_plan(read.zones, length, &planned.orders, room);
    Ok(Planned {
        outcome: done(),
        length,
        finish: planned.finish,
    })
}

// The same, the refusal put in the answer.
fn plan_by(rule: Rule, s: &[u8], room: &mut [u8]) -> Planned
    ensures answer { result ≡ plan_sheet rule s.now (length room.old) }
    ensures holds { room.new ≡ room_after rule s.now room.old }
{
    planned_by(rule, s, room).unwrap_or_else(not_planned)
}

// A sheet planned by document 01's removal rule.
pub fn plan(s: &[u8], room: &mut [u8]) -> Planned
    ensures answer { result ≡ plan_sheet Rule.Removal s.now (length room.old) }
    ensures holds { room.new ≡ room_after Rule.Removal s.now room.old }
{
    plan_by(Rule::Removal, s, room)
}

// A sheet planned by arrival, then cart number.
pub fn plan_first(s: &[u8], room: &mut [u8]) -> Planned
    ensures answer { result ≡ plan_sheet Rule.First s.now (length room.old) }
    ensures holds { room.new ≡ room_after Rule.First s.now room.old }
{
    plan_by(Rule::First, s, room)
}

// A sheet planned by both rules: the plan which finishes earlier, the removal plan if equal.
pub fn plan_better(s: &[u8], room: &mut [u8]) -> Planned
    ensures answer { result ≡ plan_sheet Rule.Better s.now (length room.old) }
    ensures holds { room.new ≡ room_after Rule.Better s.now room.old }
{
    plan_by(Rule::Better, s, room)
}

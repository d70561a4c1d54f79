// Spare times over tables, worked back through a run.
#![tactic(auto)]

ghost use Rattle.std.specs.Prelude.{◌≡◌, ◌+◌, ◌*◌, ◌≤◌, ◌<◌, get_or, set};
ghost use Rattle.words.specs.Lists.{entries};
ghost use Rattle.sets.specs.inner.Member.{has};
ghost use Rattle.routes.specs.Moves.{moves_of};
ghost use Rattle.sheet_table.specs.inner.Parts.{lane, steps, zone, passing};
ghost use Rattle.judge_entering.specs.inner.Times.{AtMost};
ghost use Rattle.removal.specs.Spare.{least_of};
ghost use Rattle.planner_spare.specs.inner.Rears.{rears_of};
ghost use Rattle.planner_spare.specs.inner.Steps.{spare_in, alone_in, line_in};
ghost use Rattle.planner_spare.specs.inner.Facts.{StepOf, least_of_step, ReadyBy, TimesBy};

use judge_entering::{front, lanes};
use judge_one_move::out_at;
use sets::carts;
use sheet_table::Table;
use std::array::from_fn;

// What the spare times are made of: the sheet, for each cart the lane's next cart behind it, the carts behind each step, where steps stand,
// the entering times of a run, and its finish.
#[derive(Clone, Copy)]
pub struct SpareFacts<'a> {
    pub sheet: &'a Table,
    pub rears: &'a [Option<usize>; 16],
    pub behind: &'a [u16; 128],
    pub visit: &'a [u8; 384],
    pub enter: &'a [u32; 128],
    pub finish: u32,
}

// For each cart the lane's next cart behind it, if there is one.
pub fn rears(sheet: &Table) -> [Option<usize>; 16]
    requires { AtMost 15 (lane sheet.now) }
    ensures { result ≡ rears_of sheet.now }
{
    let lanes = lanes(sheet);
    let mut rears = [None; 16];
    for c in 0..16 {
        if let Some(f) = front(&lanes, c) {
            rears[f] = Some(c);
        }
    }
    rears
}

// The least of a time and the spare times, in the zone of the step at x, of the carts behind it.
fn least_behind(facts: &SpareFacts, spare: &[u32; 128], x: usize, time: u32) -> u32
    requires { (x < 128) × (get_or (zone facts.now.sheet.now) x 0 < 24) × AtMost 127 facts.now.visit.now }
    ensures { result ≡ least_of (has (get_or facts.now.behind.now x 0))
        (spare_in facts.now.visit.now spare.now (get_or (zone facts.now.sheet.now) x 0)) time 16 }
{
    let z = facts.sheet.zone(x);
    let mut least = time;
    let mut others = facts.behind[x];
    while 0 < others {
        let d = carts::lowest(others);
        others = carts::rest(others);
        least = least.min(spare[facts.visit[16 * z + d] as usize]);
    }
    least
}

// The spare time of the next step, or of a last step finish less its leaving time. `StepOf` stays a clause: it is of one step.
fn spare_alone(facts: &SpareFacts, spare: &[u32; 128], c: usize, j: usize) -> u32
    requires { StepOf facts.now c j }
    ensures { result ≡ alone_in (steps facts.now.sheet.now) (passing facts.now.sheet.now) facts.now.enter.now spare.now facts.now.finish c j }
{
    let x = 8 * c + j;
    if j + 1 < facts.sheet.steps(c) {
        spare[x + 1]
    } else {
        facts.finish - (facts.enter[x] + facts.sheet.passing(x))
    }
}

// The least of a time and, for a first step, the spare time of the first step of the lane's next cart behind.
fn least_in_line(facts: &SpareFacts, spare: &[u32; 128], c: usize, j: usize, time: u32) -> u32
    requires { StepOf facts.now c j }
    ensures { result ≡ line_in facts.now.rears.now spare.now c j time }
{
    match facts.rears[c] {
        Some(d) if j == 0 => time.min(spare[8 * d]),
        _ => time,
    }
}

// The spare time of step j of cart c is worked out from those of the steps after it.
fn put_spare(facts: &SpareFacts, spare: &mut [u32; 128], c: usize, j: usize)
    requires { StepOf facts.now c j }
    ensures { spare.new ≡ set spare.old (8 * c + j) (least_of_step facts.now spare.old c j) }
{
    let x = 8 * c + j;
    let alone = spare_alone(facts, spare, c, j);
    let least = least_in_line(facts, spare, c, j, alone);
    spare[x] = least_behind(facts, spare, x, least);
}

// Where the carts are when all are out.
fn out_positions(sheet: &Table) -> [u8; 16]
    requires { AtMost 8 (steps sheet.now) }
    ensures { result ≡ entries 16 0 (λ c. moves_of (get_or (steps sheet.now) c 0)) }
{
    from_fn(|c| out_at(sheet.steps(c)))
}

// The spare times of all steps, worked back through the run: `order` has the cart of each of its moves, `spare` is all 0 and takes them.
pub fn spare_times(facts: &SpareFacts, order: &[u8], spare: &mut [u32; 128])
    requires { ReadyBy facts.now order.now spare.old }
    ensures { TimesBy facts.now order.now spare.new }
{
    let mut at = out_positions(facts.sheet);
    for k in (0..order.len()).rev() {
        let c = usize::from(order[k]);
        at[c] -= 1;
        let j = usize::from(at[c]);
        if j < facts.sheet.steps(c) {
            put_spare(facts, spare, c, j);
        }
    }
}

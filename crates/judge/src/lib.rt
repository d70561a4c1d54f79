// The judge: a plan's verdict with its entering times, finish and moves, or its ring.
#![tactic(auto)]

ghost use Rattle.std.specs.Prelude.{◌≡◌, length};
ghost use Rattle.judge.specs.Judging.{not_judged, judge, words_after};
ghost use Rattle.judge.specs.inner.Held.{HeldIn, JudgedIn};

use judge_entering::Ground;
use judge_finish::finish_of;
use judge_one_move::Run;
use judge_ring::{Ring, no_ring, ring_of};
use judge_verdict::verdict_of;
use plan::{Orders, no_orders};
use plan_reader::read_tables;
use sheet_table::Table;
use words::{Outcome, done, refused};

// What judging answers: done with the finish and the number of moves, or a refusal with both 0. Only a locked plan has a ring.
#[repr(C)]
#[derive(Clone, Copy)]
pub struct Judged {
    pub outcome: Outcome,
    pub finish: u32,
    pub moves: u32,
    pub ring: Ring,
}

fn not_judged(outcome: Outcome, ring: Ring) -> Judged
    ensures { result ≡ not_judged outcome ring }
{
    Judged {
        outcome,
        finish: 0,
        moves: 0,
        ring,
    }
}

// A readable plan judged: 22 with the ring, 28, or its times in the words lent.
// Never inlined: what is refused before needs no run on the stack.
#[inline(never)]
fn judge_orders(sheet: &Table, orders: &Orders, words: &mut [u32]) -> Judged
    requires { HeldIn sheet.now orders.now }
    ensures { JudgedIn sheet.now orders.now words.old result words.new }
{
    let mut run = Run::start();
    if let Some(stuck) = verdict_of(sheet, &orders.ahead, &mut run) {
        let ground = Ground::of(sheet, &orders.ahead);
        let ring = ring_of(&ground, orders, &run.at, &run.left, stuck);
        return not_judged(refused(22, 0), ring);
    }
    if words.len() < 128 {
        return not_judged(refused(28, 0), no_ring());
    }
    words[..128].copy_from_slice(&run.enter);
    Judged {
        outcome: done(),
        finish: finish_of(sheet, &run.enter),
        moves: run.made as u32,
        ring: no_ring(),
    }
}

// A plan judged: 1 to 22, then 28.
pub fn judge(s: &[u8], p: &[u8], words: &mut [u32]) -> Judged
    ensures answer { result ≡ judge s.now p.now (length words.old) }
    ensures holds { words.new ≡ words_after s.now p.now words.old }
{
    let mut sheet = Table::blank();
    let mut orders = no_orders();
    match read_tables(s, p, &mut sheet, &mut orders) {
        Ok(_) => judge_orders(&sheet, &orders, words),
        Err(refusal) => not_judged(refusal, no_ring()),
    }
}

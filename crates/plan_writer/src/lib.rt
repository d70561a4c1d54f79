// Orders written as a plan into lent room, and a plan read and written again.
#![tactic(auto)]

ghost use Rattle.std.specs.Prelude.{◌≡◌, ◌+◌, ◌≤◌, ◌<◌, length, MatchResult};
ghost use Rattle.std.proofs.lemmas.List.Edits.{sets};
ghost use Rattle.plan.specs.Written.{count, list_bytes, written};
ghost use Rattle.plan_writer.specs.Writing.{not_written, write_again, room_after};
ghost use Rattle.plan_writer.specs.inner.Writing.{Writable, WritableList};

use plan::{Orders, no_orders, sum_of};
use plan_reader::read_tables;
use sheet_filling::step_counts;
use sheet_table::Table;
use words::{Outcome, done, refused};

// Zone z's list, written from a place on; answers the place after it.
fn write_list(orders: &Orders, z: usize, room: &mut [u8], at: usize) -> usize
    requires { (z < 24) × WritableList orders.now z × (at + 1 + count orders.now z ≤ length room.old) }
    ensures end { result ≡ at + 1 + count orders.now z }
    ensures bytes { room.new ≡ sets room.old at (list_bytes orders.now z) }
{
    room[at] = orders.count[z];
    let n = usize::from(orders.count[z]);
    let end = at + 1 + n;
    room[at + 1..end].copy_from_slice(&orders.list[16 * z..16 * z + n]);
    end
}

// The orders of n zones, written as a plan of total bytes at the start of the room; the bytes beyond are untouched.
pub fn write_plan(n: usize, total: usize, orders: &Orders, room: &mut [u8])
    requires { Writable n orders.now room.old × (total ≡ length (written n orders.now)) }
    ensures { room.new ≡ sets room.old 0 (written n orders.now) }
{
    let [high, low] = (total as u16).to_be_bytes();
    room[..4].copy_from_slice(&[1, high, low, n as u8]);
    let mut at = 4;
    for z in 0..n {
        at = write_list(orders, z, room, at);
    }
}

// What writing a plan answers: done with the plan's length, or a refusal with length 0.
#[repr(C)]
#[derive(Clone, Copy)]
pub struct PlanWritten {
    pub outcome: Outcome,
    pub length: usize,
}

fn not_written(outcome: Outcome) -> PlanWritten
    ensures { result ≡ not_written outcome }
{
    PlanWritten { outcome, length: 0 }
}

// The plan read, and its orders written into the room.
fn written_again(s: &[u8], p: &[u8], room: &mut [u8]) -> Result<PlanWritten, Outcome>
    ensures answer { MatchResult result (λ wrote. wrote ≡ write_again s.now p.now (length room.old))
        (λ outcome. not_written outcome ≡ write_again s.now p.now (length room.old)) }
    ensures holds { room.new ≡ room_after s.now p.now room.old }
{
    let mut table = Table::blank();
    let mut orders = no_orders();
    let n = read_tables(s, p, &mut table, &mut orders)?.zones;
    let total = 4 + n + sum_of(&step_counts(&table), 16);
    if room.len() < total {
        return Err(refused(28, 0));
    }
    write_plan(n, total, &orders, room);
    Ok(PlanWritten {
        outcome: done(),
        length: total,
    })
}

// A plan read and written again into lent room: 1 to 21, then 28.
pub fn write_again(s: &[u8], p: &[u8], room: &mut [u8]) -> PlanWritten
    ensures answer { result ≡ write_again s.now p.now (length room.old) }
    ensures holds { room.new ≡ room_after s.now p.now room.old }
{
    written_again(s, p, room).unwrap_or_else(not_written)
}

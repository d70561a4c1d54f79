// The functions of `oblakosh`, exported to C (include/oblakosh.h).
#![tactic(auto)]

ghost use Rattle.std.specs.Prelude.{◌≡◌, length};
ghost use Rattle.sheet.specs.Reading.{read_sheet};
ghost use Rattle.plan.specs.Reading.{read_plan};
ghost use Rattle.judge.specs.Judging.{judge, words_after};
ghost use Rattle.plan_writer.specs.Writing.{write_again, room_after};
ghost use Rattle.plan_zone_list.specs.Finding.{FoundIs};
ghost use Rattle.planner.specs.Planning as planning;
ghost use Rattle.planner.specs.declared.Rule.TheVariants.{Removal, First, Better};
ghost use Rattle.moving_asking.specs.Asking.{ask};
ghost use Rattle.moving_why.specs.Why.{why};
ghost use Rattle.net.specs.Netting.{NetRunIs, room_after as net_room_after};

use judge::Judged;
use moving_asking::Asked;
use moving_record::Record;
use moving_why::Chain;
use net::NetRun;
use plan::PlanRead;
use plan_writer::PlanWritten;
use plan_zone_list::ListFound;
use planner::Planned;
use sheet::SheetRead;

// Reading a sheet: 1 to 14.
#[unsafe(no_mangle)]
pub extern "C" fn oblakosh_read_sheet(s: &[u8]) -> SheetRead
    ensures { result ≡ read_sheet s.now }
{
    oblakosh::oblakosh_read_sheet(s)
}

// Reading a plan: 1 to 21.
#[unsafe(no_mangle)]
pub extern "C" fn oblakosh_read_plan(s: &[u8], p: &[u8]) -> PlanRead
    ensures { result ≡ read_plan s.now p.now }
{
    oblakosh::oblakosh_read_plan(s, p)
}

// Judging: 1 to 22, then 28.
#[unsafe(no_mangle)]
pub extern "C" fn oblakosh_judge(s: &[u8], p: &[u8], words: &mut [u32]) -> Judged
    ensures answer { result ≡ judge s.now p.now (length words.old) }
    ensures holds { words.new ≡ words_after s.now p.now words.old }
{
    oblakosh::oblakosh_judge(s, p, words)
}

// Writing a plan again: 1 to 21, then 28.
#[unsafe(no_mangle)]
pub extern "C" fn oblakosh_write_again(s: &[u8], p: &[u8], room: &mut [u8]) -> PlanWritten
    ensures answer { result ≡ write_again s.now p.now (length room.old) }
    ensures holds { room.new ≡ room_after s.now p.now room.old }
{
    oblakosh::oblakosh_write_again(s, p, room)
}

// One zone's list, as the part of the plan lent that starts there: 1 to 21, then 27.
#[unsafe(no_mangle)]
pub extern "C" fn oblakosh_find_list(s: &[u8], p: &[u8], zone: usize) -> ListFound
    ensures { FoundIs s.now p.now zone result }
{
    oblakosh::oblakosh_find_list(s, p, zone)
}

// Planning a sheet by the removal rule: 1 to 14, then 28.
#[unsafe(no_mangle)]
pub extern "C" fn oblakosh_plan(s: &[u8], room: &mut [u8]) -> Planned
    ensures answer { result ≡ planning.plan_sheet Removal s.now (length room.old) }
    ensures holds { room.new ≡ planning.room_after Removal s.now room.old }
{
    oblakosh::oblakosh_plan(s, room)
}

// Planning a sheet by arrival, then cart number: 1 to 14, then 28.
#[unsafe(no_mangle)]
pub extern "C" fn oblakosh_plan_first(s: &[u8], room: &mut [u8]) -> Planned
    ensures answer { result ≡ planning.plan_sheet First s.now (length room.old) }
    ensures holds { room.new ≡ planning.room_after First s.now room.old }
{
    oblakosh::oblakosh_plan_first(s, room)
}

// Planning a sheet both ways, and the plan which finishes earlier, the removal plan if equal: 1 to 14, then 28.
#[unsafe(no_mangle)]
pub extern "C" fn oblakosh_plan_better(s: &[u8], room: &mut [u8]) -> Planned
    ensures answer { result ≡ planning.plan_sheet Better s.now (length room.old) }
    ensures holds { room.new ≡ planning.room_after Better s.now room.old }
{
    oblakosh::oblakosh_plan_better(s, room)
}

// What moving a cart would answer, with the record by value: 1 to 26.
#[unsafe(no_mangle)]
pub extern "C" fn oblakosh_ask(s: &[u8], p: &[u8], lent: Record, cart: usize) -> Asked
    ensures { result ≡ ask s.now p.now lent cart }
{
    oblakosh::oblakosh_ask(s, p, lent, cart)
}

// Why a cart does not move: the chain from it down to one that may move now: 1 to 25.
#[unsafe(no_mangle)]
pub extern "C" fn oblakosh_why(s: &[u8], p: &[u8], lent: Record, cart: usize) -> Chain
    ensures { result ≡ why s.now p.now lent cart }
{
    oblakosh::oblakosh_why(s, p, lent, cart)
}

// The Petri net beside the judge, fired until no transition can fire and written as text: 1 to 21, then 28.
#[unsafe(no_mangle)]
pub extern "C" fn oblakosh_net(s: &[u8], p: &[u8], room: &mut [u8]) -> NetRun
    ensures answer { NetRunIs s.now p.now (length room.old) result }
    ensures holds { room.new ≡ net_room_after s.now p.now room.old }
{
    oblakosh::oblakosh_net(s, p, room)
}

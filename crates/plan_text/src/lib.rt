// What the plan operations say of a plan for a sheet, printed on standard output.
#![tactic(auto)]

ghost use Rattle.std.specs.Prelude.{◌≤◌};

use plan::PlanRead;
use plan_reader::read_plan;
use plan_writer::{PlanWritten, write_again};
use plan_zone_list::{find_list, passing_list};
use sheet::Sheet;
use sheet_text::show_refusal;
use std::io;
use words::Outcome;

// A step with the carts that are ahead there, in rising order.
fn show_step(rt: &impl Print, i: usize, j: usize, zone: u8, ahead: u16) -> io::Result<()> {
    print!(rt; "cart {i} step {j} zone {zone} ahead")?;
    for cart in 0..16u8 {
        if (ahead >> cart) % 2 == 1 {
            print!(rt; " {cart}")?;
        }
    }
    println!(rt)
}

// Who is ahead at each step: step j of cart i stands at 8 * i + j, and an absent cart has no steps.
// Where there is no step, nobody is ahead, and nothing is shown.
fn show_ahead(rt: &impl Print, sheet: &Sheet, ahead: &[u16; 128]) -> io::Result<()> {
    for (x, &set) in ahead.iter().enumerate() {
        let (i, j) = (x / 8, x % 8);
        if j < usize::from(sheet.steps[i]) || set != 0 {
            show_step(rt, i, j, sheet.zone[x], set)?;
        }
    }
    Ok(())
}

// What reading says. Answers the number of zones: a plan that is refused has none, nor any step.
fn show_reading(rt: &impl Print, s: &[u8], p: &[u8]) -> io::Result<usize> {
    let PlanRead {
        outcome,
        sheet,
        orders,
    } = read_plan(s, p);
    if outcome.number != 0 {
        show_refusal(rt, outcome)?;
    } else {
        println!(rt; "ok zones {}", sheet.zones)?;
    }
    show_ahead(rt, &sheet, &orders.ahead)?;
    Ok(sheet.zones)
}

// A zone's passing list; on refusal the length of the part that is handed back.
fn show_list(rt: &impl Print, s: &[u8], p: &[u8], zone: usize) -> io::Result<()> {
    let Outcome { number, place, .. } = find_list(s, p, zone).outcome;
    let list = passing_list(s, p, zone);
    print!(rt; "zone {zone}")?;
    if number != 0 {
        return println!(rt; " refused {number} at {place} length {}", list.len());
    }
    print!(rt; " list")?;
    for cart in list {
        print!(rt; " {cart}")?;
    }
    println!(rt)
}

// The list of each zone, and of the number after the last.
fn show_lists(rt: &impl Print, s: &[u8], p: &[u8], zones: usize) -> io::Result<()> {
    for zone in 0..=zones {
        show_list(rt, s, p, zone)?;
    }
    Ok(())
}

// The plan written again into a room, and what the room then holds.
fn show_room(rt: &impl Print, s: &[u8], p: &[u8], room: &mut [u8]) -> io::Result<()> {
    let PlanWritten { outcome, length } = write_again(s, p, room);
    let Outcome { number, place, .. } = outcome;
    print!(rt; "room {} ", room.len())?;
    if number != 0 {
        print!(rt; "refused {number} at {place} length {length} holds")?;
    } else {
        print!(rt; "written {length} holds")?;
    }
    for byte in room {
        print!(rt; " {byte:02x}")?;
    }
    println!(rt)
}

// A room of this many bytes, filled with one that no plan holds.
fn show_room_of(rt: &impl Print, s: &[u8], p: &[u8], size: usize) -> io::Result<()>
    requires { size ≤ 302 }
{
    let mut room = [0xEEu8; 302];
    show_room(rt, s, p, &mut room[..size])
}

// Rooms of a byte less than the plan, just as many, and two more. The plan's length is cut at 300: no plan of more than 156 bytes can be read.
fn show_rooms(rt: &impl Print, s: &[u8], p: &[u8]) -> io::Result<()> {
    let n = p.len().min(300);
    if n > 0 {
        show_room_of(rt, s, p, n - 1)?;
    }
    show_room_of(rt, s, p, n)?;
    show_room_of(rt, s, p, n + 2)
}

// Reads a plan for a sheet, lists each zone and writes the plan again, and prints what each operation says.
pub fn show_plan(rt: &impl Print, s: &[u8], p: &[u8]) -> io::Result<()> {
    let zones = show_reading(rt, s, p)?;
    show_lists(rt, s, p, zones)?;
    show_rooms(rt, s, p)
}

// What the reader says of a crossing sheet, printed: a line for each zone, cart and step; the line of a refusal, and the word that a program is given.
#![tactic(auto)]

ghost use Rattle.std.specs.Prelude.{◌<◌};

use sheet::{Sheet, SheetRead};
use std::env::{Env, FillError};
use std::{fmt, io};
use words::Outcome;

// A refusal as it is printed: with the cart and the step, where it stands inside a cart's part of the sheet.
#[derive(Drop)]
struct Refusal(Outcome);

impl fmt::Display for Refusal {
    fn fmt<W: fmt::Write>(&self, f: &mut fmt::Formatter<W>) -> fmt::Result {
        let Outcome {
            number,
            cart,
            step,
            place,
        } = self.0;
        write!(f, "refused {number} at {place}")?;
        if cart != 0 {
            write!(f, " cart {cart} step {step}")?;
        }
        Ok(())
    }
}

// The line of what is refused.
pub fn show_refusal(rt: &impl Print, outcome: Outcome) -> io::Result<()> {
    rt.println(Refusal(outcome))
}

// Never inlined, like the next two: each has a line of its own on the stack.
#[inline(never)]
fn show_zones(rt: &impl Print, sheet: &Sheet) -> io::Result<()> {
    for z in 0..sheet.zones.min(24) {
        let (follow, cross) = (sheet.follow[z], sheet.cross[z]);
        println!(rt; "zone {z} follow {follow} cross {cross}")?;
    }
    Ok(())
}

// The steps of cart i.
#[inline(never)]
fn show_steps(rt: &impl Print, sheet: &Sheet, i: usize) -> io::Result<()>
    requires { i < 16 }
{
    for j in 0..usize::from(sheet.steps[i]).min(8) {
        let x = 8 * i + j;
        println!(rt;
            "cart {i} step {j} zone {} passing {} travel {}",
            sheet.zone[x], sheet.passing[x], sheet.travel[x]
        )?;
    }
    Ok(())
}

#[inline(never)]
fn show_carts(rt: &impl Print, sheet: &Sheet) -> io::Result<()> {
    for i in 0..sheet.carts.min(16) {
        println!(rt;
            "cart {i} lane {} arrival {} steps {}",
            sheet.lane[i], sheet.arrival[i], sheet.steps[i]
        )?;
        show_steps(rt, sheet, i)?;
    }
    Ok(())
}

// Reads a crossing sheet and prints its values, or the number and the place of the refusal.
pub fn show_sheet(rt: &impl Print, s: &[u8]) -> io::Result<()> {
    let SheetRead { outcome, sheet } = sheet_reader::read_sheet(s);
    if outcome.number != 0 {
        return show_refusal(rt, outcome);
    }
    println!(rt; "ok zones {} carts {}", sheet.zones, sheet.carts)?;
    show_zones(rt, &sheet)?;
    show_carts(rt, &sheet)
}

// What a program's only word asks for: `without` where there is no word; nothing where there are two, or one that is too long or unknown.
pub fn asked_for<T: Drop, F: Fn(&[u8]) -> Option<T>>(
    rt: &impl Env,
    without: T,
    of_word: F,
) -> Option<T>
    requires { F.IsAlwaysCallable of_word }
{
    let mut word = [0u8; 4096];
    match (rt.arg(1, &mut word), rt.arg(2, &mut [])) {
        (Err(FillError::NotPresent), _) => Some(without),
        (Ok(n), Err(FillError::NotPresent)) => of_word(&word[..n]),
        _ => None,
    }
}

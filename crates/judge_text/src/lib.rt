// What the judge says of a sheet and a plan, printed as document 01 shows it.
#![tactic(auto)]

ghost use Rattle.std.specs.Prelude.{◌≡◌, ◌+◌, ◌-◌, ◌≤◌, ◌<◌, length, MatchOption};
ghost use Rattle.judge_text.specs.inner.Input.{sheet_length};

use fields::{outside, two_bytes};
use judge::{Judged, judge};
use judge_ring::Ring;
use sheet::Sheet;
use std::io;

// How many of the bytes are the sheet.
pub fn sheet_length(input: &[u8]) -> usize
    ensures { (result ≡ sheet_length input.now) × (result ≤ length input.now) }
{
    let Some((n, _)) = two_bytes(input, outside(1)) else {
        return input.len();
    };
    input.len().min(n as usize)
}

// The place after k in a ring of n carts: the first after the last.
fn next_of(k: usize, n: usize) -> usize
    requires { k < n }
    ensures { result < n }
{
    (k + 1) % n
}

pub fn show_wait(rt: &impl Print, cart: u8, zone: u8, next: u8) -> io::Result<()> {
    println!(rt; "cart {cart} waits at zone {zone} for cart {next}")
}

// The carts of the ring, each with the zone that it waits for and the next of the ring.
fn show_ring(rt: &impl Print, ring: &Ring) -> io::Result<()> {
    let n = ring.length.min(16);
    for k in 0..n {
        show_wait(rt, ring.cart[k], ring.zone[k], ring.cart[next_of(k, n)])?;
    }
    Ok(())
}

// When a cart leaves a zone: its next entering time less the travel time, or, on the last step, entering plus passing.
fn leaving(enter: u32, passing: u16, next: Option<u32>, travel: u16) -> u64
    ensures { MatchOption next (result ≡ enter + passing) (λ n. result ≡ n - travel) }
{
    match next {
        Some(n) => u64::from(n.saturating_sub(u32::from(travel))),
        None => u64::from(enter) + u64::from(passing),
    }
}

// The steps of cart c, with its entering times from the words.
fn show_steps(rt: &impl Print, sheet: &Sheet, words: &[u32; 128], c: usize) -> io::Result<()>
    requires { c < 16 }
{
    let k = usize::from(sheet.steps[c]).min(8);
    let times = &words[8 * c..8 * c + k];
    for (j, &enter) in times.iter().enumerate() {
        let x = 8 * c + j;
        let next = times.get(j + 1).copied();
        let zone = sheet.zone[x];
        let leave = leaving(enter, sheet.passing[x], next, sheet.travel[x]);
        println!(rt; "cart {c} zone {zone} enter {enter} leave {leave}")?;
    }
    Ok(())
}

// A line for each step of an accepted plan, by cart and then by step.
fn show_times(rt: &impl Print, s: &[u8], words: &[u32; 128]) -> io::Result<()> {
    let sheet = sheet_reader::read_sheet(s).sheet;
    for c in 0..16 {
        show_steps(rt, &sheet, words, c)?;
    }
    Ok(())
}

// Judges a plan for a sheet, and prints the verdict.
pub fn show_judged(rt: &impl Print, s: &[u8], p: &[u8]) -> io::Result<()> {
    let mut words = [0u32; 128];
    let Judged {
        outcome,
        finish,
        moves,
        ring,
    } = judge(s, p, &mut words);
    if outcome.number != 0 {
        sheet_text::show_refusal(rt, outcome)?;
        return show_ring(rt, &ring);
    }
    println!(rt; "ok moves {moves} finish {finish}")?;
    show_times(rt, s, &words)
}

// The same of a sheet and the plan after it.
pub fn show_verdict(rt: &impl Print, input: &[u8]) -> io::Result<()> {
    let (s, p) = input.split_at(sheet_length(input));
    show_judged(rt, s, p)
}

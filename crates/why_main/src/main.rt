// Reads the first 2,048 bytes of standard input and no more, a sheet, a plan and 21 bytes of record and cart, and prints why the cart does not move.
#![tactic(auto)]

use fields::{four_bytes, one_byte, outside};
use judge_text::{sheet_length, show_wait};
use moving_record::Record;
use moving_why::{Chain, why};
use std::io;
use std::io::Read;

// The sixteen positions, and the count of moves in 4 bytes after them; what is not there is 0.
fn record_in(bytes: &[u8]) -> Record {
    let mut position = [0u8; 16];
    let n = bytes.len().min(16);
    position[..n].copy_from_slice(&bytes[..n]);
    let Some((made, _)) = four_bytes(bytes, outside(16)) else {
        return Record { position, made: 0 };
    };
    Record { position, made }
}

// The last cart of a chain: the move that it may make now.
fn show_move(rt: &impl Print, cart: u8, zone: u8, out: u8) -> io::Result<()> {
    if out != 0 {
        return println!(rt; "cart {cart} may move out");
    }
    println!(rt; "cart {cart} may move into zone {zone}")
}

// A line for each cart of the chain: it waits for the next, or may move.
fn show_chain(rt: &impl Print, chain: &Chain) -> io::Result<()> {
    let n = chain.length.min(16);
    for k in 0..n {
        if k + 1 < n {
            show_wait(rt, chain.cart[k], chain.zone[k], chain.cart[k + 1])?;
        } else {
            show_move(rt, chain.cart[k], chain.zone[k], chain.out)?;
        }
    }
    Ok(())
}

// The cart after them; what is not there is 0, as in the record.
fn cart_in(bytes: &[u8]) -> usize {
    let Some((cart, _)) = one_byte(bytes, outside(20)) else {
        return 0;
    };
    cart as usize
}

// Why a cart does not move: the chain, or the refusal.
fn show_why(rt: &impl Print, s: &[u8], p: &[u8], lent: Record, cart: usize) -> io::Result<()> {
    let chain = why(s, p, lent, cart);
    if chain.outcome.number != 0 {
        return sheet_text::show_refusal(rt, chain.outcome);
    }
    show_chain(rt, &chain)
}

// The last 21 bytes are the record and the cart; the sheet and the plan stand before them.
fn show_asked(rt: &(impl Print + Eprint), input: &[u8]) -> io::Result<()> {
    let Some((bytes, asked)) = input.split_last_chunk::<21>() else {
        return eprintln!(rt;
            "oblakosh: why_main takes a sheet, a plan, and 21 bytes of record and cart"
        );
    };
    let (s, p) = bytes.split_at(sheet_length(bytes));
    show_why(rt, s, p, record_in(asked), cart_in(asked))
}

fn main(rt: HostRuntime) -> io::Result<()> {
    let mut input = Vec::new(rt.alloc());
    rt.reader().take(2048).read_to_end(&mut input)?;
    show_asked(&rt, &input)
}

// The routine of `moving`, exported to C (include/oblakosh.h).
#![tactic(auto)]

ghost use Rattle.moving.specs.Moving.{MovedAs};

use moving_asking::Asked;
use moving_record::Record;

// The record is lent for one request, and changed only by a permitted move: the cart's position and the count are stored. A refusal stores nothing.
#[unsafe(no_mangle)]
pub extern "C" fn oblakosh_move_cart(s: &[u8], p: &[u8], lent: &mut Record, cart: usize) -> Asked
    ensures { MovedAs s.now p.now lent.old cart lent.new result }
{
    moving::oblakosh_move_cart(s, p, lent, cart)
}

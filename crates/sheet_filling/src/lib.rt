// A sheet's table filled, and the sheet that it stands for as a struct.
#![tactic(auto, unfolding(sheet_table::specs::inner::Parts::follow, sheet_table::specs::inner::Parts::cross, sheet_table::specs::inner::Parts::lane, sheet_table::specs::inner::Parts::arrival, sheet_table::specs::inner::Parts::steps, sheet_table::specs::inner::Parts::zone, sheet_table::specs::inner::Parts::passing, sheet_table::specs::inner::Parts::travel))]

ghost use Rattle.std.specs.Prelude.{ℕ, ◌<◌, ◌≡◌};
ghost use Rattle.sheet.specs.Valid.{Valid};
ghost use Rattle.sheet_table.specs.inner.Parts.{steps};
ghost use Rattle.sheet_filling.specs.inner.Filled.{sheet_in, with_gaps, with_cart, with_step, Entries};

use sheet::Sheet;
use sheet_table::Table;
use std::array::from_fn;

// Zone z's gaps are stored.
pub fn put_gaps(sheet: &mut Table, z: usize, follow: u32, cross: u32)
    requires { z < 24 }
    ensures { (n m : ℕ) → sheet_in n m sheet.new ≡ with_gaps (sheet_in n m sheet.old) z follow cross }
{
    sheet.follow[z] = follow;
    sheet.cross[z] = cross;
}

// Cart c is stored.
pub fn put_cart(sheet: &mut Table, c: usize, lane: u8, arrival: u32, steps: u8)
    requires { c < 16 }
    ensures { (n m : ℕ) → sheet_in n m sheet.new ≡ with_cart (sheet_in n m sheet.old) c lane arrival steps }
{
    sheet.lane[c] = lane as u32;
    sheet.arrival[c] = arrival;
    sheet.steps[c] = steps as u32;
}

// The step at x is stored.
pub fn put_step(sheet: &mut Table, x: usize, zone: u8, passing: u16, travel: u16)
    requires { x < 128 }
    ensures { (n m : ℕ) → sheet_in n m sheet.new ≡ with_step (sheet_in n m sheet.old) x zone passing travel }
{
    sheet.zone[x] = zone as u32;
    sheet.passing[x] = passing as u32;
    sheet.travel[x] = travel as u32;
}

// The step counts, as bytes.
pub fn step_counts(sheet: &Table) -> [u8; 16]
    requires { Entries 16 255 (steps sheet.now) }
    ensures { result ≡ steps sheet.now }
{
    from_fn(|c| sheet.steps(c) as u8)
}

// The valid sheet that a table stands for, as a struct.
pub fn sheet_of(zones: usize, carts: usize, sheet: &Table) -> Sheet
    requires { Valid (sheet_in zones carts sheet.now) }
    ensures { result ≡ sheet_in zones carts sheet.now }
{
    Sheet {
        zones,
        follow: from_fn(|z| sheet.follow(z) as u16),
        cross: from_fn(|z| sheet.cross(z) as u16),
        carts,
        lane: from_fn(|c| sheet.lane(c) as u8),
        arrival: sheet.arrival,
        steps: step_counts(sheet),
        zone: from_fn(|x| sheet.zone(x) as u8),
        passing: from_fn(|x| sheet.passing(x) as u16),
        travel: from_fn(|x| sheet.travel(x) as u16),
    }
}

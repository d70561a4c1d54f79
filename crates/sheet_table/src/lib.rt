// A sheet's facts in one table, and how each is read.
#![tactic(auto, unfolding(crate::specs::inner::Parts::follow, crate::specs::inner::Parts::cross, crate::specs::inner::Parts::lane, crate::specs::inner::Parts::arrival, crate::specs::inner::Parts::steps, crate::specs::inner::Parts::zone, crate::specs::inner::Parts::passing, crate::specs::inner::Parts::travel))]

ghost use Rattle.std.specs.Prelude.{◌≡◌, ◌<◌, get_or};
ghost use Rattle.sheet_table.specs.inner.Parts.{blank_table, follow, cross, lane, arrival, steps, zone, passing, travel};

// A sheet's table, by parts in document 01's order. Carts, zones and steps count from 0; step j of cart c stands at 8 * c + j; unused entries are 0.
// It keeps no fact of a valid sheet: the reader fills it step by step, so `Valid`, routes and lanes in range stay clauses of who needs them.
#[repr(C)]
#[derive(Clone, Copy)]
pub struct Table {
    pub follow: [u32; 24],
    pub cross: [u32; 24],
    pub lane: [u32; 16],
    pub arrival: [u32; 16],
    pub steps: [u32; 16],
    pub zone: [u32; 128],
    pub passing: [u32; 128],
    pub travel: [u32; 128],
}

// A reader for each part, by its own name; one for all parts would be told by a number which it reads.
impl Table {
    // The table with every part 0: what a sheet is read into.
    pub fn blank() -> Table
        ensures { result ≡ blank_table }
    {
        Table {
            follow: [0u32; 24],
            cross: [0u32; 24],
            lane: [0u32; 16],
            arrival: [0u32; 16],
            steps: [0u32; 16],
            zone: [0u32; 128],
            passing: [0u32; 128],
            travel: [0u32; 128],
        }
    }

    // The follow gap of zone z.
    pub fn follow(&self, z: usize) -> u32
        requires { z < 24 }
        ensures { result ≡ get_or (follow self.now) z 0 }
    {
        self.follow[z]
    }

    // The cross gap of zone z.
    pub fn cross(&self, z: usize) -> u32
        requires { z < 24 }
        ensures { result ≡ get_or (cross self.now) z 0 }
    {
        self.cross[z]
    }

    // The lane of cart c.
    pub fn lane(&self, c: usize) -> usize
        requires { c < 16 }
        ensures { result ≡ get_or (lane self.now) c 0 }
    {
        self.lane[c] as usize
    }

    // The arrival of cart c.
    pub fn arrival(&self, c: usize) -> u32
        requires { c < 16 }
        ensures { result ≡ get_or (arrival self.now) c 0 }
    {
        self.arrival[c]
    }

    // The step count of cart c.
    pub fn steps(&self, c: usize) -> usize
        requires { c < 16 }
        ensures { result ≡ get_or (steps self.now) c 0 }
    {
        self.steps[c] as usize
    }

    // The zone of the step at x.
    pub fn zone(&self, x: usize) -> usize
        requires { x < 128 }
        ensures { result ≡ get_or (zone self.now) x 0 }
    {
        self.zone[x] as usize
    }

    // The passing time of the step at x.
    pub fn passing(&self, x: usize) -> u32
        requires { x < 128 }
        ensures { result ≡ get_or (passing self.now) x 0 }
    {
        self.passing[x]
    }

    // The travel time of the step at x to the next.
    pub fn travel(&self, x: usize) -> u32
        requires { x < 128 }
        ensures { result ≡ get_or (travel self.now) x 0 }
    {
        self.travel[x]
    }
}

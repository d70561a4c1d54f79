// One permitted move over tables, in parts: whether a zone may be entered, on into it, and out; what each makes of sets and times.
#![tactic(auto)]

ghost use Rattle.std.specs.Prelude.{◌≡◌, ◌↔◌, true, ◌≤◌, ◌<◌, ◌+◌, ◌*◌, length, get_or, set};
ghost use Rattle.sets.specs.inner.Member.{Within};
ghost use Rattle.moves.specs.System.{pos};
ghost use Rattle.moves.specs.Moves.{moved, Permitted};
ghost use Rattle.routes.specs.Moves.{moves_of, system};
ghost use Rattle.sheet_table.specs.inner.Parts.{steps, zone, passing};
ghost use Rattle.crossing.specs.inner.Tables.{crossing_of};
ghost use Rattle.judge_entering.specs.inner.Times.{Enterable};
ghost use Rattle.judge_one_move.specs.inner.Standing.{Standing};
ghost use Rattle.judge_one_move.specs.inner.Running.{no_moves, Joins, ZoneLeft, GoneIn, CanGoOn, GoneOn, CanGoOut};

use judge_entering::{Ground, enter_zone, front_enters, lane_holds};
use sets::carts;
use sheet_table::Table;

// The position at which a cart with so many steps is out; an absent cart is out at 0.
pub fn out_at(steps: usize) -> u8
    requires { steps ≤ 8 }
    ensures { result ≡ moves_of steps }
{
    if steps == 0 { 0 } else { (steps + 1) as u8 }
}

// Cart c joins the set of the carts that have left zone z.
pub fn join(left: &mut [u16; 24], z: usize, c: usize)
    requires { (z < 24) × (c < 16) × (length left.old ≡ 24) }
    ensures { Joins left.old left.new z c × (length left.new ≡ 24) }
{
    left[z] = carts::with(left[z], c);
}

// Whether all carts ahead of the step at x have left its zone.
pub fn may_enter(sheet: &Table, ahead: &[u16; 128], left: &[u16; 24], x: usize) -> bool
    requires { (x < 128) × (get_or (zone sheet.now) x 0 < 24) }
    ensures { (result ≡ true) ↔ Within (get_or ahead.now x 0) (get_or left.now (get_or (zone sheet.now) x 0) 0) }
{
    let z = sheet.zone(x);
    carts::within(ahead[x], left[z])
}

// Whether cart c may enter the zone that it wants: its lane does not hold it, and all carts ahead have left the zone.
pub fn may_go_in(ground: &Ground, at: &[u8; 16], left: &[u16; 24], c: usize) -> bool
    requires { Standing (crossing_of ground.now.sheet.now ground.now.ahead.now) at.now left.now × (c < 16)
        × (pos at.now c < get_or (steps ground.now.sheet.now) c 0) }
    ensures { (result ≡ true) ↔ Permitted (system (crossing_of ground.now.sheet.now ground.now.ahead.now)) at.now c }
{
    if lane_holds(&ground.lanes, at, c) {
        return false;
    }
    may_enter(ground.sheet, ground.ahead, left, 8 * c + usize::from(at[c]))
}

// Whether the next move of cart c is permitted: into the zone that it wants, or out.
pub fn may_move(ground: &Ground, at: &[u8; 16], left: &[u16; 24], c: usize) -> bool
    requires { Standing (crossing_of ground.now.sheet.now ground.now.ahead.now) at.now left.now × (c < 16) }
    ensures { (result ≡ true) ↔ Permitted (system (crossing_of ground.now.sheet.now ground.now.ahead.now)) at.now c }
{
    let k = ground.sheet.steps(c);
    let p = usize::from(at[c]);
    if p < k {
        return may_go_in(ground, at, left, c);
    }
    if k == 0 {
        return false;
    }
    p == k
}

// A run of permitted moves.
#[derive(Clone, Copy)]
pub struct Run {
    // How many moves each cart has made.
    pub at: [u8; 16],
    // For each zone the set of the carts that have left it.
    pub left: [u16; 24],
    // When cart c left zone z, at 16 * z + c.
    pub leave: [u32; 384],
    // The cart of each move, first to last.
    pub order: [u8; 144],
    // When cart c entered the zone of its step j, at 8 * c + j.
    pub enter: [u32; 128],
    // How many moves are made.
    pub made: usize,
}

impl Run {
    // All carts at the start.
    pub fn start() -> Run
        ensures { result ≡ no_moves }
    {
        Run {
            at: [0; 16],
            left: [0; 24],
            leave: [0; 384],
            order: [0; 144],
            enter: [0; 128],
            made: 0,
        }
    }

    // All carts go back to the start. The order stays as it is, for none of its moves is counted then.
    pub fn restart(&mut self)
        ensures restarted { self.new ≡ record no_moves { order = self.old.order } }
        ensures room { length self.new.order ≡ 144 }
    {
        self.at = [0; 16];
        self.left = [0; 24];
        self.leave = [0; 384];
        self.enter = [0; 128];
        self.made = 0;
    }

    // Cart c leaves zone z at a time.
    fn leave_zone(&mut self, z: usize, c: usize, time: u32)
        requires { (z < 24) × (c < 16) × (length self.old.left ≡ 24) }
        ensures gone { ZoneLeft self.old.left self.old.leave self.new.left self.new.leave z c time }
        ensures others { self.new ≡ record self.old { left = self.new.left; leave = self.new.leave } }
    {
        join(&mut self.left, z, c);
        self.leave[16 * z + c] = time;
    }

    // Cart c goes from its lane into the zone of its first step, no earlier than the cart in front; no zone is left. `mates` are the carts on its lane.
    pub fn move_in(&mut self, sheet: &Table, ahead: &[u16; 128], mates: u16, c: usize)
        requires { Enterable sheet.now ahead.now mates self.old.leave (8 * c) c }
        ensures gone { GoneIn sheet.now ahead.now mates self.old.leave self.old.enter self.new.enter c }
        ensures others { self.new ≡ record self.old { enter = self.new.enter } }
    {
        let line = front_enters(mates, &self.enter, c);
        let ready = sheet.arrival(c).max(line);
        enter_zone(
            sheet,
            ahead,
            mates,
            &self.leave,
            &mut self.enter,
            8 * c,
            c,
            ready,
        );
    }

    // Cart c goes from the zone of its step at x - 1 into that of its step at x.
    pub fn move_on(&mut self, sheet: &Table, ahead: &[u16; 128], mates: u16, c: usize, x: usize)
        requires { CanGoOn sheet.now ahead.now mates self.old.left self.old.leave self.old.enter c x }
        ensures gone { GoneOn sheet.now ahead.now self.old.left self.old.leave self.old.enter
            self.new.left self.new.leave self.new.enter c x }
        ensures others { self.new ≡ record self.old { left = self.new.left; leave = self.new.leave; enter = self.new.enter } }
    {
        let w = x - 1;
        let travel = sheet.travel(w);
        let ready = self.enter[w] + sheet.passing(w) + travel;
        let time = enter_zone(
            sheet,
            ahead,
            mates,
            &self.leave,
            &mut self.enter,
            x,
            c,
            ready,
        );
        self.leave_zone(sheet.zone(w), c, time - travel);
    }

    // Cart c goes out of the zone of its last step, at x.
    pub fn move_out(&mut self, sheet: &Table, c: usize, x: usize)
        requires { CanGoOut sheet.now self.old.left self.old.enter c x }
        ensures gone { ZoneLeft self.old.left self.old.leave self.new.left self.new.leave (get_or (zone sheet.now) x 0) c
            (get_or self.old.enter x 0 + get_or (passing sheet.now) x 0) }
        ensures others { self.new ≡ record self.old { left = self.new.left; leave = self.new.leave } }
    {
        let time = self.enter[x] + sheet.passing(x);
        self.leave_zone(sheet.zone(x), c, time);
    }

    // The move just made is cart c's: it stands one step further, and is the next in the order of moves.
    pub fn count_move(&mut self, c: usize)
        requires { (c < 16) × (pos self.old.at c ≤ 9) × (self.old.made < 144) }
        ensures { self.new ≡ record self.old { at = moved self.old.at c; order = set self.old.order self.old.made c; made = self.old.made + 1 } }
    {
        self.at[c] += 1;
        self.order[self.made] = c as u8;
        self.made += 1;
    }
}

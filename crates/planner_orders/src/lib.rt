// The orders present while carts are planned, as tables: for each step the carts ahead, the carts behind, and those with which it is an undecided pair.
#![tactic(auto)]

ghost use Rattle.std.specs.Prelude.{◌≡◌, ◌<◌, replicate};
ghost use Rattle.planner_orders.specs.inner.Deciding.{Decides, TurnsRound};

use sets::carts;

// The orders present: at 8 * c + j, for step j of cart c, the carts ahead of it in its zone, the carts behind, and those with which it is an undecided pair.
#[derive(Clone, Copy)]
pub struct Present {
    pub ahead: [u16; 128],
    pub behind: [u16; 128],
    pub undecided: [u16; 128],
}

impl Present {
    // No order, and no undecided pair.
    pub fn none() -> Present
        ensures { result ≡ record { ahead = replicate 128 0; behind = replicate 128 0; undecided = replicate 128 0 } }
    {
        Present {
            ahead: [0u16; 128],
            behind: [0u16; 128],
            undecided: [0u16; 128],
        }
    }

    // The order of an undecided pair is decided: the cart of the step at y goes before the cart of the step at x.
    pub fn decide(&mut self, x: usize, y: usize)
        requires { (x < 128) × (y < 128) }
        ensures { Decides x y self.old.ahead self.old.behind self.old.undecided self.new.ahead self.new.behind
            self.new.undecided }
    {
        let second = x / 8;
        let first = y / 8;
        self.ahead[x] = carts::with(self.ahead[x], first);
        self.behind[y] = carts::with(self.behind[y], second);
        self.undecided[x] = carts::without(self.undecided[x], first);
        self.undecided[y] = carts::without(self.undecided[y], second);
    }

    // The order decided last, the cart of the step at y before the cart of the step at x, is turned round.
    pub fn turn_round(&mut self, x: usize, y: usize)
        requires { (x < 128) × (y < 128) }
        ensures { TurnsRound x y self.old.ahead self.old.behind self.new.ahead self.new.behind
            × (self.new.undecided ≡ self.old.undecided) }
    {
        let second = x / 8;
        let first = y / 8;
        self.ahead[x] = carts::without(self.ahead[x], first);
        self.ahead[y] = carts::with(self.ahead[y], second);
        self.behind[y] = carts::without(self.behind[y], second);
        self.behind[x] = carts::with(self.behind[x], first);
    }
}

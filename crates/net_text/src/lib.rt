// The Petri net of a crossing as text, written into lent room.
#![tactic(auto)]

ghost use Rattle.std.specs.Prelude.{◌≡◌, [], ◌∷◌, ◌+◌, ◌≤◌, ◌<◌, length, leb, IfSome};
ghost use Rattle.std.proofs.lemmas.List.Edits.{sets};
ghost use Rattle.words.specs.Lists.{pick, each};
ghost use Rattle.crossing.specs.inner.Sound.{Sound};
ghost use Rattle.crossing.specs.inner.Tables.{crossing_of, given_of};
ghost use Rattle.net_firing.specs.inner.Net.{crossing_in};
ghost use Rattle.net_text.specs.Lines.{line_text, place_cart, move_lines, position_lines, cart_lines, net_lines, net_text, with_text};
ghost use Rattle.net_text.specs.inner.Writing.{shown, meant, InRange, Shows, most_lines, Wrote};
ghost use Rattle.net_text.specs.inner.Tables.{step_of, lane_in, pair_in, other_in, At};

use judge_entering::front;
use net_firing::Net;
use sets::carts;
use sheet_table::Table;

// A line, of cart c, its position p, the other cart d and that one's position q, as far as it has them.
#[derive(Clone, Copy)]
enum TextLine {
    // `c p`: the place of the cart at the position; its move from there; from the place to the move; from the move to the next place.
    PlaceCart(usize, usize),
    Transition(usize, usize),
    CartArc(usize, usize),
    ArcCart(usize, usize),
    // `c d`: the stop line's place between d, next in front, and c; from the first move of d to it; from it to that of c.
    PlaceLine(usize, usize),
    ArcLine(usize, usize),
    LineArc(usize, usize),
    // `c p d`: the pair's place between d, ahead in the zone that c enters from p, and c; from the move of d out of it, from q; to that of c.
    PlacePair(usize, usize, usize),
    ArcPair(usize, usize, usize, usize),
    PairArc(usize, usize, usize),
}

// A blank and two characters: a number's digits, or dashes.
fn put_number(n: Option<usize>, room: &mut [u8], at: usize)
    requires { IfSome n (λ n. n < 100) × (at + 3 ≤ length room.old) }
    ensures { room.new ≡ sets room.old at (32 ∷ shown n) }
{
    let text = match n {
        Some(n) => [b' ', b'0' + (n / 10) as u8, b'0' + (n % 10) as u8],
        None => *b" --",
    };
    room[at..at + 3].copy_from_slice(&text);
}

impl TextLine {
    // Its word, and its four numbers as far as it has them.
    #[tactic(auto, unfolding(crate::specs::Lines::line_text, crate::specs::Lines::bytes))]
    fn parts(self) -> (&'static [u8; 10], [Option<usize>; 4])
        ensures { Shows (meant self) result.0.now result.1 }
    {
        match self {
            TextLine::PlaceCart(c, p) => (b"place cart", [Some(c), Some(p), None, None]),
            TextLine::Transition(c, p) => (b"transition", [Some(c), Some(p), None, None]),
            TextLine::CartArc(c, p) => (b"arc cart >", [Some(c), Some(p), None, None]),
            TextLine::ArcCart(c, p) => (b"arc > cart", [Some(c), Some(p), None, None]),
            TextLine::PlaceLine(c, d) => (b"place line", [Some(c), Some(0), Some(d), None]),
            TextLine::ArcLine(c, d) => (b"arc > line", [Some(c), Some(0), Some(d), Some(0)]),
            TextLine::LineArc(c, d) => (b"arc line >", [Some(c), Some(0), Some(d), None]),
            TextLine::PlacePair(c, p, d) => (b"place pair", [Some(c), Some(p), Some(d), None]),
            TextLine::ArcPair(c, p, d, q) => (b"arc > pair", [Some(c), Some(p), Some(d), Some(q)]),
            TextLine::PairArc(c, p, d) => (b"arc pair >", [Some(c), Some(p), Some(d), None]),
        }
    }

    // Its bytes, from a place in the room on: a word of ten, four times a blank and two characters, and a line feed.
    fn put(self, room: &mut [u8], at: usize)
        requires { InRange (meant self) × (at + 23 ≤ length room.old) }
        ensures { room.new ≡ sets room.old at (line_text (meant self)) }
    {
        let (word, [c, p, d, q]) = self.parts();
        room[at..at + 10].copy_from_slice(word);
        put_number(c, room, at + 10);
        put_number(p, room, at + 13);
        put_number(d, room, at + 16);
        put_number(q, room, at + 19);
        room[at + 22] = b'\n';
    }
}

// The step of cart d in zone z; 0, as `step_of` says, where it has none there.
fn step_in(net: &Net, d: usize, z: usize) -> usize
    requires { d < 16 }
    ensures { (result ≡ step_of net.now.sheet.now d z) × (result < 8) }
{
    for j in 0..net.sheet.steps(d) {
        if net.sheet.zone(8 * d + j) == z {
            return j;
        }
    }
    0
}

// A room, and how many lines have been written into it, as far as it reaches.
#[derive(Drop)]
struct Writer<'a> {
    room: &'a mut [u8],
    lines: usize,
}

impl Writer<'_> {
    // One more line, if the room reaches to its end.
    fn put(&mut self, line: TextLine)
        requires { InRange (meant line) × (self.old.lines < most_lines) }
        ensures { Wrote (meant line ∷ []) self.old self.new }
    {
        let at = 23 * self.lines;
        if at + 23 <= self.room.len() {
            line.put(self.room, at);
        }
        self.lines += 1;
    }

    // Position p of cart c, with so many steps: its place, and the move from there with its two arcs, where it is not the last.
    fn put_own(&mut self, steps: usize, c: usize, p: usize)
        requires { (c < 100) × (p < 100) × (self.old.lines + 4 ≤ most_lines) }
        ensures { Wrote (place_cart c p ∷ pick (leb p steps) (move_lines c p) []) self.old self.new }
    {
        self.put(TextLine::PlaceCart(c, p));
        if p <= steps {
            self.put(TextLine::Transition(c, p));
            self.put(TextLine::CartArc(c, p));
            self.put(TextLine::ArcCart(c, p));
        }
    }

    // The stop line between cart d and cart c, where cart c is at it and cart d is next in front.
    fn put_lane(&mut self, front: Option<usize>, c: usize, p: usize, d: usize)
        requires { (c < 100) × (d < 100) × (self.old.lines + 3 ≤ most_lines) }
        ensures { Wrote (lane_in front c p d) self.old self.new }
    {
        if p == 0 && front == Some(d) {
            self.put(TextLine::PlaceLine(c, d));
            self.put(TextLine::ArcLine(c, d));
            self.put(TextLine::LineArc(c, d));
        }
    }

    // The pair of cart d and cart c in the zone that cart c enters from p, where cart d is in the set ahead of it there.
    fn put_pair(&mut self, net: &Net, ahead: u16, c: usize, p: usize, d: usize)
        requires { (c < 16) × (p < 8) × (d < 16) × (self.old.lines + 3 ≤ most_lines) }
        ensures { Wrote (pair_in net.now.sheet.now ahead c p d) self.old self.new }
    {
        if carts::has(ahead, d) {
            let z = net.sheet.zone(8 * c + p);
            let q = step_in(net, d, z) + 1;
            self.put(TextLine::PlacePair(c, p, d));
            self.put(TextLine::ArcPair(c, p, d, q));
            self.put(TextLine::PairArc(c, p, d));
        }
    }

    // What position p of cart c has with each other cart.
    fn put_others(&mut self, net: &Net, front: Option<usize>, ahead: u16, c: usize, p: usize)
        requires { (c < 16) × (p < 8) × (self.old.lines + 96 ≤ most_lines) }
        ensures { Wrote (each 16 0 (other_in net.now.sheet.now front ahead c p)) self.old self.new }
    {
        for d in 0..16 {
            self.put_lane(front, c, p, d);
            self.put_pair(net, ahead, c, p, d);
        }
    }

    // The lines of position p of cart c.
    fn put_position(&mut self, net: &Net, c: usize, p: usize)
        requires { At (crossing_in net.now) c p × (self.old.lines + 100 ≤ most_lines) }
        ensures { Wrote (position_lines (crossing_in net.now) c p) self.old self.new }
    {
        let steps = net.sheet.steps(c);
        self.put_own(steps, c, p);
        if p < steps {
            self.put_others(net, front(&net.lanes, c), net.ahead[8 * c + p], c, p);
        }
    }

    // The lines of cart c; none of an absent one.
    fn put_cart(&mut self, net: &Net, c: usize)
        requires { (c < 16) × (self.old.lines + 1000 ≤ most_lines) }
        ensures { Wrote (cart_lines (crossing_in net.now) c) self.old self.new }
    {
        let steps = net.sheet.steps(c);
        if 0 < steps {
            for p in 0..steps + 2 {
                self.put_position(net, c, p);
            }
        }
    }

    // The lines of the net.
    fn put_net(&mut self, net: &Net)
        requires { self.old.lines ≡ 0 }
        ensures few { self.new.lines ≤ most_lines }
        ensures wrote { Wrote (net_lines (crossing_in net.now)) self.old self.new }
    {
        for c in 0..16 {
            self.put_cart(net, c);
        }
    }
}

// How long the net's text is: the lines counted, in a room that reaches to none.
pub fn text_length(sheet: &Table, ahead: &[u16; 128]) -> usize
    requires { Sound (crossing_of sheet.now ahead.now) (given_of sheet.now) }
    ensures { result ≡ length (net_text (crossing_of sheet.now ahead.now)) }
{
    let mut out = Writer {
        room: &mut [],
        lines: 0,
    };
    out.put_net(&Net::of(sheet, ahead));
    23 * out.lines
}

// The net's text written at the start of the room; the bytes beyond are untouched.
pub fn write_text(sheet: &Table, ahead: &[u16; 128], room: &mut [u8])
    requires { Sound (crossing_of sheet.now ahead.now) (given_of sheet.now)
        × (length (net_text (crossing_of sheet.now ahead.now)) ≤ length room.old) }
    ensures { room.new ≡ with_text (net_text (crossing_of sheet.now ahead.now)) room.old }
{
    let mut out = Writer { room, lines: 0 };
    out.put_net(&Net::of(sheet, ahead));
}

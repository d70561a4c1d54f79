// Reads the first 2,048 bytes of standard input and no more, a sheet and then a plan, and writes their Petri net to standard output (docs/NET.md):
// as text, or with the word `dot` in Graphviz' language. What is refused writes nothing there, and its line to standard error; so do other words.
#![tactic(auto)]

ghost use Rattle.std.specs.Prelude.{◌+◌, ◌<◌, ◌≤◌};

use judge_text::sheet_length;
use net::net;
use sheet_text::{asked_for, show_refusal};
use std::io::Read;
use std::{fmt, io};

// What the net is written in.
#[derive(Clone, Copy)]
enum Form {
    Text,
    Dot,
}

// The form that a word asks for.
fn of_word(word: &[u8]) -> Option<Form> {
    match word {
        b"dot" => Some(Form::Dot),
        _ => None,
    }
}

// A node of the drawing: a cart at a position, its move from there, and the two places between carts, the first of which goes ahead.
#[derive(Clone, Copy)]
enum Node {
    At(u8, u8),
    From(u8, u8),
    Line(u8, u8),
    Pair(u8, u8, u8),
}

// A node's name, each number in two digits.
impl fmt::Display for Node {
    fn fmt<W: fmt::Write>(&self, f: &mut fmt::Formatter<W>) -> fmt::Result {
        match *self {
            Node::At(cart, position) => write!(f, "{cart:02} at {position:02}"),
            Node::From(cart, position) => write!(f, "{cart:02} from {position:02}"),
            Node::Line(first, second) => write!(f, "line {first:02} {second:02}"),
            Node::Pair(first, second, position) => {
                write!(f, "pair {first:02} {second:02} at {position:02}")
            }
        }
    }
}

// A circle, with a dot in it where it has a token at first, its name beside it.
fn show_place(rt: &impl Print, node: Node, token: bool) -> io::Result<()> {
    let dot = if token { "&bull;" } else { "" };
    println!(rt; "\"{node}\" [shape=circle label=\"{dot}\" xlabel=\"{node}\"]")
}

fn show_arc(rt: &impl Print, from: Node, to: Node) -> io::Result<()> {
    println!(rt; "\"{from}\" -> \"{to}\"")
}

// The number that two characters from a place on are.
fn number_at(line: &[u8; 23], at: usize) -> u8
    requires { at + 1 < 23 }
    ensures { result ≤ 165 }
{
    10 * (line[at] % 16) + line[at + 1] % 16
}

// A line of the text, by its word.
fn show_line(rt: &impl Print, line: &[u8; 23]) -> io::Result<()> {
    let cart = number_at(line, 11);
    let position = number_at(line, 14);
    let other = number_at(line, 17);
    let from = Node::From(cart, position);
    let other_from = Node::From(other, number_at(line, 20));
    let between = Node::Line(other, cart);
    let pair = Node::Pair(other, cart, position);
    match &line[..10] {
        b"place cart" => show_place(rt, Node::At(cart, position), position == 0),
        b"place line" => show_place(rt, between, false),
        b"place pair" => show_place(rt, pair, false),
        b"transition" => println!(rt; "\"{from}\" [shape=box]"),
        b"arc cart >" => show_arc(rt, Node::At(cart, position), from),
        b"arc > cart" => show_arc(rt, from, Node::At(cart, position + 1)),
        b"arc line >" => show_arc(rt, between, from),
        b"arc > line" => show_arc(rt, other_from, between),
        b"arc pair >" => show_arc(rt, pair, from),
        _ => show_arc(rt, other_from, pair),
    }
}

// The lines of the text, of 23 bytes each.
fn show_dot(rt: &impl Print, text: &[u8]) -> io::Result<()> {
    println!(rt; "digraph net {{")?;
    for line in text.as_chunks::<23>().0 {
        show_line(rt, line)?;
    }
    println!(rt; "}}")
}

// The net of the sheet and the plan after it.
fn show_net(rt: &impl Print, errors: &impl Print, input: &[u8], form: Form) -> io::Result<()> {
    let mut room = [0u8; 80891];
    let (s, p) = input.split_at(sheet_length(input));
    let run = net(s, p, &mut room);
    if run.outcome.number != 0 {
        return show_refusal(errors, run.outcome);
    }
    let text = room.get(..run.length).unwrap_or(&room);
    match form {
        Form::Text => rt.write_all(text),
        Form::Dot => show_dot(rt, text),
    }
}

fn main(rt: HostRuntime) -> io::Result<()> {
    let Some(form) = asked_for(&rt, Form::Text, of_word) else {
        return eprintln!(rt; "oblakosh: net_main takes no word, or dot");
    };
    let mut input = Vec::new(rt.alloc());
    rt.reader().take(2048).read_to_end(&mut input)?;
    show_net(&rt, &rt.stderr(), &input, form)
}

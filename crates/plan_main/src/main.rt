// Reads a crossing sheet from standard input and writes its plan to standard output, so that sheet and plan together go into the judge program.
// With no word it plans by the removal rule; the word `first` asks for first come, first through, and `better` for the better of the two.
// A sheet that is refused writes no plan; the line of its refusal then goes to standard error, and so does a line on words of another kind.
// A sheet of more than 65,536 bytes is cut there: no length field fits it, whole or cut.
#![tactic(auto)]

use planner::Rule;
use sheet_text::{asked_for, show_refusal};
use std::io;
use std::io::Read;

// The rule that a word asks for.
fn of_word(word: &[u8]) -> Option<Rule> {
    match word {
        b"first" => Some(Rule::First),
        b"better" => Some(Rule::Better),
        _ => None,
    }
}

// Plans a sheet by a rule and writes the plan, or the line of the refusal.
fn show_planned(rt: &impl Print, errors: &impl Print, rule: Rule, sheet: &[u8]) -> io::Result<()> {
    let mut room = [0u8; 156];
    let planned = match rule {
        Rule::Removal => planner::plan(sheet, &mut room),
        Rule::First => planner::plan_first(sheet, &mut room),
        Rule::Better => planner::plan_better(sheet, &mut room),
    };
    if planned.outcome.number != 0 {
        return show_refusal(errors, planned.outcome);
    }
    rt.write_all(room.get(..planned.length).unwrap_or(&room))
}

fn main(rt: HostRuntime) -> io::Result<()> {
    let Some(rule) = asked_for(&rt, Rule::Removal, of_word) else {
        return eprintln!(rt; "oblakosh: plan_main takes no word, first or better");
    };
    let mut sheet = Vec::new(rt.alloc());
    rt.reader().take(65536).read_to_end(&mut sheet)?;
    show_planned(&rt, &rt.stderr(), rule, &sheet)
}

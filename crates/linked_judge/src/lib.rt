// What C and Rust call of the judge (include/oblakosh.h): the operations themselves, under the names that `linked_judge_c` exports.
#![tactic(auto)]

ghost use Rattle.std.specs.Prelude.{◌≡◌, length};
ghost use Rattle.sheet.specs.Reading.{read_sheet};
ghost use Rattle.plan.specs.Reading.{read_plan};
ghost use Rattle.judge.specs.Judging.{judge, words_after};

use judge::Judged;
use plan::PlanRead;
use sheet::SheetRead;

// Reading a sheet: 1 to 14.
pub fn oblakosh_read_sheet(s: &[u8]) -> SheetRead
    ensures { result ≡ read_sheet s.now }
{
    sheet_reader::read_sheet(s)
}

// Reading a plan: 1 to 21.
pub fn oblakosh_read_plan(s: &[u8], p: &[u8]) -> PlanRead
    ensures { result ≡ read_plan s.now p.now }
{
    plan_reader::read_plan(s, p)
}

// Judging: 1 to 22, then 28.
pub fn oblakosh_judge(s: &[u8], p: &[u8], words: &mut [u32]) -> Judged
    ensures answer { result ≡ judge s.now p.now (length words.old) }
    ensures holds { words.new ≡ words_after s.now p.now words.old }
{
    judge::judge(s, p, words)
}

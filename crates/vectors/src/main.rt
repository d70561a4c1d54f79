// Shows each line of the text files that the arguments name, under the file's number and the line's.
// A line holds a sheet in hexadecimal, or a sheet, a bar and a plan for it: two digits a byte, spaces are free, and `-` stands for no bytes.
// An empty line holds nothing, and `#` starts a comment. Other characters are passed over, as spaces are.
#![tactic(auto)]

ghost use Rattle.std.specs.Prelude.{◌<◌};

use std::alloc::Global;
use std::env::{Env, FillError};
use std::io::Read;
use std::rt::Files;
use std::str::from_utf8;
use std::{fs, io};

// What was read of a sheet or a plan on the present line: how many digits, none where the line has no such part, and the bytes that they fill.
// A sheet or plan that is longer than the bytes is cut there: no length field fits it, whole or cut.
#[derive(Drop)]
struct Part {
    digits: Option<usize>,
    bytes: [u8; 65536],
}

impl Part {
    fn missing() -> Part {
        Part {
            digits: None,
            bytes: [0; 65536],
        }
    }

    // The line has this part, though it may have no bytes.
    fn begin(&mut self) {
        self.digits = Some(self.digits.unwrap_or(0));
    }

    // Puts a digit at the right end of its byte: two of them push out what the byte held.
    fn take_digit(&mut self, digit: u32)
        requires { digit < 16 }
    {
        let digits = self.digits.unwrap_or(0);
        if let Some(byte) = self.bytes.get_mut(digits / 2) {
            *byte = *byte % 16 * 16 + digit as u8;
            self.digits = Some(digits + 1);
        }
    }

    // The bytes that were read.
    fn read(&self) -> Option<&[u8]> {
        let digits = self.digits?;
        Some(self.bytes.get(..digits / 2).unwrap_or(&self.bytes))
    }
}

// What was read of the present line.
#[derive(Drop)]
struct Line {
    number: u64,
    is_comment: bool,
    sheet: Part,
    plan: Part,
}

impl Line {
    fn first() -> Line {
        Line {
            number: 1,
            is_comment: false,
            sheet: Part::missing(),
            plan: Part::missing(),
        }
    }

    // Shows what the line holds, if it holds a sheet.
    fn show(&self, rt: &impl Print) -> io::Result<()> {
        let Some(s) = self.sheet.read() else {
            return Ok(());
        };
        println!(rt; "line {}:", self.number)?;
        let Some(p) = self.plan.read() else {
            return sheet_text::show_sheet(rt, s);
        };
        plan_text::show_plan(rt, s, p)?;
        judge_text::show_judged(rt, s, p)
    }

    // Shows the line, and begins the next.
    fn end(&mut self, rt: &impl Print) -> io::Result<()> {
        self.show(rt)?;
        self.number = self.number.wrapping_add(1);
        self.is_comment = false;
        self.sheet.digits = None;
        self.plan.digits = None;
        Ok(())
    }

    // A digit of the plan after the bar, of the sheet before it; the line has a sheet either way.
    fn take_digit(&mut self, digit: u32)
        requires { digit < 16 }
    {
        self.sheet.begin();
        if self.plan.digits.is_some() {
            self.plan.take_digit(digit);
        } else {
            self.sheet.take_digit(digit);
        }
    }

    // Takes the next character: the line's end, a mark, a digit, or one that is passed over.
    fn take(&mut self, rt: &impl Print, c: u8) -> io::Result<()> {
        match c {
            b'\n' => self.end(rt)?,
            _ if self.is_comment => {}
            b'#' => self.is_comment = true,
            b'-' => self.sheet.begin(),
            b'|' => self.plan.begin(),
            _ => {
                if let Some(digit) = char::from(c).to_digit(16) {
                    self.take_digit(digit);
                }
            }
        }
        Ok(())
    }
}

// A proved loop has to end, and nothing says that a file does: it has more turns than any run uses up.
fn show_file(rt: &impl Print, file: &mut impl Read) -> io::Result<()> {
    let mut text = [0u8; 65536];
    let mut line = Line::first();
    for _ in 0..u64::MAX {
        let n = file.read(&mut text)?;
        if n == 0 {
            break;
        }
        for &c in &text[..n] {
            line.take(rt, c)?;
        }
    }
    line.show(rt)
}

// Opens a file by its name, which is text.
fn opened<R: Files>(rt: &R, path: &[u8]) -> io::Result<R::File> {
    let Ok(name) = from_utf8(path) else {
        return Err(io::Error::from(io::ErrorKind::InvalidFilename));
    };
    fs::open(rt, name)
}

// The text of an error, less the system's number of it.
fn reason(text: &str) -> &str {
    match text.split_once(" (os error ") {
        Some((reason, _)) => reason,
        None => text,
    }
}

// Writes a line to standard error: what failed, as the caller names it, a colon and the system's text.
fn fail(errors: &impl Print, alloc: Global, what: &[u8], error: io::Error) -> io::Result<()> {
    let text = format!(in alloc; "{error}")?;
    errors.write_all(what)?;
    println!(errors; ": {}", reason(&text))
}

// Shows the file that argument i names.
fn show_argument(
    rt: &(impl Print + Files),
    errors: &impl Print,
    alloc: Global,
    i: usize,
    path: &[u8],
) -> io::Result<()> {
    match opened(rt, path) {
        Ok(mut file) => {
            println!(rt; "file {i}:")?;
            show_file(rt, &mut file)
        }
        Err(error) => fail(errors, alloc, path, error),
    }
}

fn main(rt: HostRuntime) -> io::Result<()> {
    let mut path = [0u8; 4096];
    for i in 1..usize::MAX {
        let n = match rt.arg(i, &mut path) {
            Ok(n) => n,
            Err(FillError::NotPresent) => break,
            Err(FillError::TooLong) => 0,
        };
        show_argument(&rt, &rt.stderr(), rt.alloc(), i, &path[..n])?;
    }
    Ok(())
}

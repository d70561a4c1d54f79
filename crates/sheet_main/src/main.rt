// Reads a crossing sheet from standard input and prints what the reader says of it.
// A sheet of more than 65,536 bytes is cut there: no length field fits it, whole or cut.
#![tactic(auto)]

use std::io;
use std::io::Read;

fn main(rt: HostRuntime) -> io::Result<()> {
    let mut sheet = Vec::new(rt.alloc());
    rt.reader().take(65536).read_to_end(&mut sheet)?;
    sheet_text::show_sheet(&rt, &sheet)
}

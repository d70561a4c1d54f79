// Reads the first 2,048 bytes of standard input and no more, a sheet and then a plan, and prints the verdict.
#![tactic(auto)]

use std::io;
use std::io::Read;

fn main(rt: HostRuntime) -> io::Result<()> {
    let mut input = Vec::new(rt.alloc());
    rt.reader().take(2048).read_to_end(&mut input)?;
    judge_text::show_verdict(&rt, &input)
}

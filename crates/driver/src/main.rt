// Answers lines that ask for operations: reads them, and writes a line for each.
#![tactic(auto)]

use operations::answer_lines;
use std::io::{self, Read, Write};

fn main(rt: HostRuntime) -> io::Result<()> {
    let mut text = Vec::new(rt.alloc());
    rt.stdin().read_to_end(&mut text)?;
    let answers = answer_lines(rt.alloc(), &text)?;
    rt.stdout().write_all(&answers)
}

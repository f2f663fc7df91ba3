// Runs a batch of text by the symmetric method over the binary kind: reads it, and writes its report.
#![tactic(auto)]

use checked_calls::calls::SYMMETRIC;
use outputs::output;
use std::io::{self, Read, Write};

fn main(rt: HostRuntime) -> io::Result<()> {
    let mut text = Vec::new(rt.alloc());
    // one byte more than a batch may have tells that it has too many
    rt.stdin().take(65_537).read_to_end(&mut text)?;
    let output = output(rt.alloc(), SYMMETRIC, &text)?;
    rt.stdout().write_all(&output)
}

// What a program writes for the text that it reads.
#![tactic(auto)]

ghost use Rattle.std.specs.Prelude.{◌≡◌, ◌++◌, IfOk, OnOk, take};
ghost use Rattle.lanes.specs.Lanes.{fresh_lanes};
ghost use Rattle.batch.specs.Telling.{BatchTells};
ghost use Rattle.outputs.specs.Outputs.{closing, fresh_batch, output_of};

use batch::ending::{End, Ended};
use batch::run;
use console::Console;
use methods::method::Method;
use std::alloc::{AllocError, Global};

// The line that closes the output of a batch that did not run to its end.
fn closing(end: End) -> &'static [u8]
    ensures { result.now ≡ closing end }
{
    match end {
        End::Done => b"",
        End::ReportFull => b"0 no 51 0\n",
        End::TextTooLong => b"0 no 61 0\n",
    }
}

// Cuts a report to what is used of it, and closes it.
fn close(report: &mut Vec<u8>, ended: Ended) -> Result<(), AllocError>
    ensures { OnOk result (report.new.items ≡ take ended.bytes report.old.items ++ closing ended.end) }
{
    report.truncate(ended.bytes);
    report.extend_from_slice(closing(ended.end))
}

// The whole output for a text: the report of its batch on a new console that holds the method, and the line that
// closes it. Only want of memory is an error.
pub fn output<M: Method + Drop>(
    alloc: Global,
    method: M,
    text: &[u8],
) -> Result<Vec<u8>, AllocError>
    ensures output { IfOk result (λ output. output.items ≡ output_of (fresh_batch M.Arith.RADIX M.Arith.PRECISION
        M.Arith.MARK (M.Method.answer method) text.now)) }
    ensures tells { OnOk result (BatchTells M.Arith.RADIX M.Arith.PRECISION M.Arith.MARK
        (M.Method.num method) (M.Method.den method) (M.Method.answer method) 65536
        (fresh_lanes M.Arith.RADIX M.Arith.PRECISION) text.now
        (fresh_batch M.Arith.RADIX M.Arith.PRECISION M.Arith.MARK (M.Method.answer method) text.now)) }
{
    let mut console = Console::new(method);
    let mut output = vec![in alloc; 0; 65_536]?;
    let ended = run(&mut console, text, &mut output);
    close(&mut output, ended)?;
    Ok(output)
}

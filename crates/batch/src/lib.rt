// Batches of text: each line is a row, whose answer is a line of the report.
#![tactic(auto)]

ghost use Rattle.std.specs.Prelude.{◌≡◌, ◌+◌, ◌≤◌, ◌<◌, ◌++◌, List, length, take, drop};
ghost use Rattle.lanes.specs.declared.Lane.{Lane};
ghost use Rattle.lines.specs.Texts.{numbered_lines};
ghost use Rattle.reports.specs.Reports.{report_line};
ghost use Rattle.batch.specs.Rows.{row_answer, row_lanes};
ghost use Rattle.batch.specs.Batches.{run_rows, refused_text, run_batch, ended, reported};
ghost use Rattle.batch.specs.Telling.{BatchTells};

use console::Console;
use ending::{End, Ended};
use lines::{Line, Reader};
use methods::method::Method;
use reports::report_line;
use row::answer;

pub mod ending;
mod place;
mod row;

// Writes a line into a report behind what is used of it.
fn write(report: &mut [u8], used: usize, line: &[u8])
    requires { used + length line.now ≤ length report.old }
    ensures { report.new ≡ take used report.old ++ (line.now ++ drop (used + length line.now) report.old) }
{
    report[used..used + line.len()].copy_from_slice(line);
}

// Runs a row, and writes its line into a report behind what is used of it. The answer is what is used then.
fn run_row<M: Method>(
    console: &mut Console<M>,
    line: Line<'_>,
    report: &mut [u8],
    used: usize,
) -> usize
    requires number { line.number < 100000 }
    requires room { used + 64 ≤ length report.old }
    ensures used { result ≡ used + length (report_line M.Arith.MARK line.entry.number (row_answer M.Arith.RADIX
        M.Arith.PRECISION M.Arith.MARK (M.Method.answer console.old.method) console.old.lanes line.entry.bytes.now)) }
    ensures report { report.new ≡ take used report.old ++ (report_line M.Arith.MARK line.entry.number (row_answer
        M.Arith.RADIX M.Arith.PRECISION M.Arith.MARK (M.Method.answer console.old.method) console.old.lanes
        line.entry.bytes.now) ++ drop result report.old) }
    ensures short { result ≤ used + 64 }
    ensures lanes { console.new.lanes ≡ row_lanes M.Arith.RADIX M.Arith.PRECISION M.Arith.MARK
        (M.Method.answer console.old.method) console.old.lanes line.entry.bytes.now }
    ensures method { console.new.method ≡ console.old.method }
{
    let outcome = answer(console, line.bytes);
    let told = report_line::<M::Arith>(line.number, outcome);
    write(report, used, told.as_slice());
    used + told.len()
}

// Runs the rows of a text.
fn run_rows<M: Method>(console: &mut Console<M>, text: &[u8], report: &mut [u8]) -> Ended
    requires { length text.now ≤ 65536 }
    ensures ended { result ≡ ended (run_rows M.Arith.RADIX M.Arith.PRECISION M.Arith.MARK
        (M.Method.answer console.old.method) 0 (length report.old) console.old.lanes
        (numbered_lines text.now)) }
    ensures report { report.new ≡ reported (run_rows M.Arith.RADIX M.Arith.PRECISION M.Arith.MARK
        (M.Method.answer console.old.method) 0 (length report.old) console.old.lanes
        (numbered_lines text.now)) report.old }
    ensures lanes { console.new.lanes ≡ (run_rows M.Arith.RADIX M.Arith.PRECISION M.Arith.MARK
        (M.Method.answer console.old.method) 0 (length report.old) console.old.lanes
        (numbered_lines text.now)).lanes }
    ensures method { console.new.method ≡ console.old.method }
{
    let mut rows = 0;
    let mut used = 0;
    for line in Reader::new(text) {
        if report.len() - used < 64 {
            return Ended {
                rows,
                bytes: used,
                end: End::ReportFull,
            };
        }
        used = run_row(console, line, report, used);
        rows = line.number;
    }
    Ended {
        rows,
        bytes: used,
        end: End::Done,
    }
}

// The end of a batch whose text is too long: the report is full before that is told, where a row would find no room.
fn refused(text: &[u8], free: usize) -> End
    ensures { (ls : List Lane) → result ≡ (refused_text free ls (numbered_lines text.now)).end }
{
    if Reader::new(text).next().is_some() && free < 64 {
        End::ReportFull
    } else {
        End::TextTooLong
    }
}

// What is proved of a batch.
fn batch_law<M: Method>(console: &Console<M>, text: &[u8], size: usize)
    ensures { BatchTells M.Arith.RADIX M.Arith.PRECISION M.Arith.MARK
        (M.Method.num console.now.method) (M.Method.den console.now.method)
        (M.Method.answer console.now.method) size console.now.lanes text.now
        (run_batch M.Arith.RADIX M.Arith.PRECISION M.Arith.MARK
        (M.Method.answer console.now.method) size console.now.lanes text.now) }
{}

// Runs a batch: every row before the first empty line, as long as 64 bytes of the report are free before it. The bytes
// behind the last line of the report stay as they were. Of a text of more than 65,536 bytes no row is run.
#[tactic(auto, unfolding(crate::specs::Batches::run_batch))]
pub fn run<M: Method>(console: &mut Console<M>, text: &[u8], report: &mut [u8]) -> Ended
    ensures ended { result ≡ ended (run_batch M.Arith.RADIX M.Arith.PRECISION M.Arith.MARK
        (M.Method.answer console.old.method) (length report.old) console.old.lanes text.now) }
    ensures report { report.new ≡ reported (run_batch M.Arith.RADIX M.Arith.PRECISION M.Arith.MARK
        (M.Method.answer console.old.method) (length report.old) console.old.lanes text.now) report.old }
    ensures lanes { console.new.lanes ≡ (run_batch M.Arith.RADIX M.Arith.PRECISION M.Arith.MARK
        (M.Method.answer console.old.method) (length report.old) console.old.lanes text.now).lanes }
    ensures method { console.new.method ≡ console.old.method }
    ensures tells { BatchTells M.Arith.RADIX M.Arith.PRECISION M.Arith.MARK
        (M.Method.num console.old.method) (M.Method.den console.old.method)
        (M.Method.answer console.old.method) (length report.old) console.old.lanes text.now
        (run_batch M.Arith.RADIX M.Arith.PRECISION M.Arith.MARK
        (M.Method.answer console.old.method) (length report.old) console.old.lanes text.now) }
{
    batch_law(console, text, report.len());
    if text.len() > 65_536 {
        return Ended {
            rows: 0,
            bytes: 0,
            end: refused(text, report.len()),
        };
    }
    run_rows(console, text, report)
}

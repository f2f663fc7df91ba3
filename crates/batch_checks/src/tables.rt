// Batches of the tables' texts and lines, each on a new console.
ghost use Rattle.std.specs.Prelude.{◌≡◌, true, OnOk, All, nat_eq, length, take, drop};
ghost use Rattle.std.specs.List.{ends_with};
ghost use Rattle.batch.specs.Batches.{run_batch, ended};

use crate::cases::*;
use crate::rows::{Case, Line};
use batch::ending::{End, Ended};
use batch::run;
use checked_calls::calls::{BINARY, DECIMAL, SYMMETRIC};
use console::Console;
use methods::method::Method;
use std::alloc::Global;
use std::test::Fail;

// The byte that fills a report before a batch: no report has it.
pub const UNTOUCHED: u8 = 0xAA;

// Runs a batch, and passes only where it ends as told.
fn ends_as_told<M: Method>(
    console: &mut Console<M>,
    text: &[u8],
    report: &mut [u8],
    told: Ended,
) -> Result<(), Fail>
    ensures { OnOk result (ended (run_batch M.Arith.RADIX M.Arith.PRECISION M.Arith.MARK
        (M.Method.answer console.old.method) (length report.old) console.old.lanes text.now) ≡ told) }
{
    let ended = run(console, text, report);
    if ended == told {
        Ok(())
    } else {
        Err(Fail::new(format_args!("{ended:?} in place of {told:?}")))
    }
}

// Passes only where what is used of a report ends with the bytes told, and every byte behind it is untouched.
fn tells(report: &[u8], used: usize, told: &[u8]) -> Result<(), Fail>
    ensures told { OnOk result (ends_with nat_eq (take used report.now) told.now ≡ true) }
    ensures rest { OnOk result (All (λ byte. byte ≡ 170) (drop used report.now)) }
{
    match report.split_at_checked(used) {
        Some((written, rest))
            if written.ends_with(told) && rest.iter().all(|&byte| byte == UNTOUCHED) => { Ok(()) }
        _ => Err(Fail::new(format_args!("{used} bytes, in place of {told:?}"))),
    }
}

// Runs a batch whose report has no byte yet, and passes only where it ends and tells as told.
pub fn batch_stands<M: Method>(
    console: &mut Console<M>,
    text: &[u8],
    report: &mut [u8],
    told: Ended,
    lines: &[u8],
) -> Result<(), Fail>
    ensures { OnOk result (ended (run_batch M.Arith.RADIX M.Arith.PRECISION M.Arith.MARK
        (M.Method.answer console.old.method) (length report.old) console.old.lanes text.now) ≡ told) }
{
    report.fill(UNTOUCHED);
    ends_as_told(console, text, report, told)?;
    tells(report, told.bytes, lines)
}

// Runs the batch of a case.
fn text_stands<M: Method>(alloc: Global, console: &mut Console<M>, case: Case) -> Result<(), Fail> {
    let mut text = Vec::new(alloc);
    for _ in 0..case.times {
        text.extend_from_slice(case.unit)?;
    }
    text.extend_from_slice(case.tail)?;
    let mut report = vec![in alloc; 0; case.size]?;
    let ended = Ended {
        rows: case.rows,
        bytes: case.used,
        end: case.end,
    };
    batch_stands(console, &text, &mut report, ended, case.report)
}

// Runs the batch of a line alone.
fn line_stands<M: Method>(console: &mut Console<M>, (line, told): Line) -> Result<(), Fail> {
    let ended = Ended {
        rows: 1,
        bytes: told.len(),
        end: End::Done,
    };
    batch_stands(console, line, &mut [0; 96], ended, told)
}

// Runs the batch of each line by Kahan's method over the binary kind.
fn lines_stand(lines: &[Line]) -> Result<(), Fail> {
    for &line in lines {
        line_stands(&mut Console::new(BINARY), line)?;
    }
    Ok(())
}

#[test]
fn texts(rt: HostRuntime) -> Result<(), Fail> {
    for &case in &TEXTS {
        text_stands(rt.alloc(), &mut Console::new(BINARY), case)?;
    }
    Ok(())
}

#[test]
fn decimal_texts(rt: HostRuntime) -> Result<(), Fail> {
    for &case in &DECIMAL_TEXTS {
        text_stands(rt.alloc(), &mut Console::new(DECIMAL), case)?;
    }
    Ok(())
}

#[test]
fn symmetric_texts(rt: HostRuntime) -> Result<(), Fail> {
    for &case in &SYMMETRIC_TEXTS {
        text_stands(rt.alloc(), &mut Console::new(SYMMETRIC), case)?;
    }
    Ok(())
}

#[test]
fn answered() -> Result<(), Fail> {
    lines_stand(&ANSWERED)
}

#[test]
fn too_long() -> Result<(), Fail> {
    lines_stand(&TOO_LONG)
}

#[test]
fn unknown_verbs() -> Result<(), Fail> {
    lines_stand(&UNKNOWN_VERBS)
}

#[test]
fn word_counts() -> Result<(), Fail> {
    lines_stand(&WORD_COUNTS)
}

#[test]
fn number_words() -> Result<(), Fail> {
    lines_stand(&NUMBER_WORDS)
}

#[test]
fn other_marks() -> Result<(), Fail> {
    lines_stand(&OTHER_MARKS)
}

#[test]
fn no_lanes() -> Result<(), Fail> {
    lines_stand(&NO_LANES)
}

#[test]
fn no_figures() -> Result<(), Fail> {
    lines_stand(&NO_FIGURES)
}

#[test]
fn far_operands() -> Result<(), Fail> {
    lines_stand(&FAR_OPERANDS)
}

#[test]
fn decimal_lines() -> Result<(), Fail> {
    for &line in &DECIMAL_LINES {
        line_stands(&mut Console::new(DECIMAL), line)?;
    }
    Ok(())
}

// What a batch leaves of its console, and what it finds there.
ghost use Rattle.std.specs.Prelude.{◌≡◌, ◌-◌, ◌++◌, IfOk, OnOk, length, take, replicate};
ghost use Rattle.lanes.specs.Lanes.{at};

use crate::tables::batch_stands;
use batch::ending::End::{self, Done, ReportFull, TextTooLong};
use batch::ending::Ended;
use checked_calls::calls::{BINARY, DECIMAL, SYMMETRIC};
use console::Console;
use kinds::format::Format;
use methods::method::Method;
use rounding::figure;
use std::alloc::{AllocError, Global};
use std::test::Fail;

// Passes only where the lane has this count.
fn count_stands<M: Method>(console: &Console<M>, lane: u8, told: u32) -> Result<(), Fail>
    ensures { OnOk result ((at console.now.lanes lane).count ≡ told) }
{
    let count = console.read(lane)?.count;
    if count == told {
        Ok(())
    } else {
        Err(Fail::new(format_args!("a count of {count} in place of {told}")))
    }
}

// Runs a batch, and passes only where it ends so after these rows and has this report.
fn leaves<M: Method>(
    console: &mut Console<M>,
    text: &[u8],
    report: &mut [u8],
    rows: usize,
    end: End,
    told: &[u8],
) -> Result<(), Fail> {
    let ended = Ended {
        rows,
        bytes: told.len(),
        end,
    };
    batch_stands(console, text, report, ended, told)
}

const TWO_TURNS: &[u8] = b"turn 3 0p0 8388608p-23\nturn 3 0p0 8388608p-23\n";

// The row that finds no room is not run; a batch begins with the lanes that the last one left.
#[test]
fn batches_on_one_console() -> Result<(), Fail> {
    let mut console = Console::new(BINARY);
    leaves(&mut console, TWO_TURNS, &mut [0; 63], 0, ReportFull, b"")?;
    count_stands(&console, 3, 0)?;
    leaves(
        &mut console,
        TWO_TURNS,
        &mut [0; 67],
        1,
        ReportFull,
        b"1 1\n",
    )?;
    count_stands(&console, 3, 1)?;
    leaves(
        &mut console,
        TWO_TURNS,
        &mut [0; 68],
        2,
        Done,
        b"1 2\n2 3\n",
    )?;
    count_stands(&console, 3, 3)?;
    leaves(
        &mut console,
        b"read 3",
        &mut [0; 64],
        1,
        Done,
        b"1 3 0p0 -8388608p-23\n",
    )?;
    leaves(
        &mut console,
        b"x\nrestart 3",
        &mut [0; 99],
        2,
        Done,
        b"1 no 43 1\n2 0\n",
    )?;
    count_stands(&console, 3, 0)
}

// A text, cut to a size, or filled up to it with bytes 10.
fn sized(alloc: Global, text: &[u8], size: usize) -> Result<Vec<u8>, AllocError>
    ensures { IfOk result (λ sized. sized.items ≡ take size text.now ++ replicate (size - length text.now) 10) }
{
    let mut sized = Vec::from_slice(alloc, text)?;
    sized.resize(size, b'\n')?;
    Ok(sized)
}

// No row of a text that is too long is run.
#[test]
fn too_long_a_text(rt: HostRuntime) -> Result<(), Fail> {
    let mut console = Console::new(BINARY);
    let text = sized(rt.alloc(), TWO_TURNS, 65_537)?;
    leaves(&mut console, &text, &mut [0; 99], 0, TextTooLong, b"")?;
    leaves(&mut console, &text, &mut [0; 63], 0, ReportFull, b"")?;
    count_stands(&console, 3, 0)
}

// A text that is as long as it may be is run.
#[test]
fn text_of_65536_bytes(rt: HostRuntime) -> Result<(), Fail> {
    let mut console = Console::new(BINARY);
    let text = sized(rt.alloc(), TWO_TURNS, 65_536)?;
    leaves(&mut console, &text, &mut [0; 99], 2, Done, b"1 1\n2 2\n")?;
    count_stands(&console, 3, 2)
}

// Turns lane 6 by one until it is full.
fn fill<M: Method>(console: &mut Console<M>) -> Result<(), Fail> {
    let format = Format::of::<M::Arith>();
    let one = figure!(format.least as i32, 1 - format.precision as i32);
    for _ in 0..1_000_000 {
        console.turn(6, one, figure!(0, 0))?;
    }
    count_stands(console, 6, 1_000_000)
}

// A full lane is told after the operands and before a phasor that would stray, and at no word.
const FULL: &[u8] =
    b"turn 6 8388608p-23 0p0\nturn 6 8388608p200 0p0\nturn 6 1p0 0p0\nturn 6 0p0 8388608p201
read 6\nrestart 6\nturn 6 8388608p-23 0p0\n";

const FULL_TOLD: &[u8] =
    b"1 no 32 0\n2 no 32 0\n3 no 21 3\n4 no 22 4\n5 1000000 8388608p-23 0p0\n6 0\n7 1\n";

const DECIMAL_FULL: &[u8] =
    b"turn 6 1000000e-6 0e0\nturn 6 1000000e200 0e0\nturn 6 1e0 0e0\nturn 6 0e0 1000000e201
read 6\nrestart 6\nturn 6 1000000e-6 0e0\n";

const DECIMAL_FULL_TOLD: &[u8] =
    b"1 no 32 0\n2 no 32 0\n3 no 21 3\n4 no 22 4\n5 1000000 1000000e-6 0e0\n6 0\n7 1\n";

// A lane at the largest exponent would stray, which is told at no word; a smaller factor is accepted.
const STRAYING: &[u8] = b"turn 2 8388608p200 0p0\nturn 2 0p0 8388608p-22\nturn 2 8388608p-24 0p0\n";

const STRAYING_TOLD: &[u8] = b"1 1\n2 no 33 0\n3 2\n";

#[test]
fn binary_full_lane() -> Result<(), Fail> {
    let mut console = Console::new(BINARY);
    fill(&mut console)?;
    leaves(&mut console, FULL, &mut [0; 256], 7, Done, FULL_TOLD)?;
    leaves(
        &mut console,
        STRAYING,
        &mut [0; 256],
        3,
        Done,
        STRAYING_TOLD,
    )?;
    count_stands(&console, 6, 1)
}

#[test]
fn symmetric_full_lane() -> Result<(), Fail> {
    let mut console = Console::new(SYMMETRIC);
    fill(&mut console)?;
    leaves(&mut console, FULL, &mut [0; 256], 7, Done, FULL_TOLD)?;
    leaves(
        &mut console,
        STRAYING,
        &mut [0; 256],
        3,
        Done,
        STRAYING_TOLD,
    )?;
    count_stands(&console, 6, 1)
}

#[test]
fn decimal_full_lane() -> Result<(), Fail> {
    let mut console = Console::new(DECIMAL);
    fill(&mut console)?;
    leaves(
        &mut console,
        DECIMAL_FULL,
        &mut [0; 256],
        7,
        Done,
        DECIMAL_FULL_TOLD,
    )?;
    count_stands(&console, 6, 1)
}

// The library for callers in C and in Rust: exported functions on words and bytes, which ask nothing of the values that
// they are given.
#![tactic(auto)]

ghost use Rattle.std.specs.Prelude.{◌≡◌, length};
ghost use Rattle.lanes.specs.Lanes.{fresh_lanes};
ghost use Rattle.batch.specs.Batches.{ended, reported, run_batch};
ghost use Rattle.checked_calls.specs.declared.calls.Call.TheVariants.{Multiply, Add, Fused, Sum};
ghost use Rattle.nekhvozu.specs.Boundary.{figure_of, arrangement_of, answer_by, batch_of, end_by, report_by};

use batch::ending::Ended;
use batch::run;
use boundary::{Answer, BatchEnd, Pair};
use checked_calls::calls::{Arrangement, BINARY, Call, DECIMAL, SYMMETRIC, answer_of};
use console::Console;
use methods::method::Method;

mod boundary;

// The status where no arrangement has the number.
const NO_ARRANGEMENT: u8 = 91;

// The arrangement of a number.
fn arrangement_of(number: u8) -> Option<Arrangement>
    ensures { result ≡ arrangement_of number }
{
    match number {
        0 => Some(Arrangement::Binary),
        1 => Some(Arrangement::Decimal),
        2 => Some(Arrangement::Symmetric),
        _ => None,
    }
}

// Makes a call by the arrangement of a number.
fn answer_by(number: u8, call: Call) -> Answer
    ensures { result ≡ answer_by (arrangement_of number) call }
{
    match arrangement_of(number) {
        Some(by) => Answer::of(answer_of(by, call)),
        None => Answer::refused(NO_ARRANGEMENT),
    }
}

// x × y
#[unsafe(no_mangle)]
pub extern "C" fn nekhvozu_multiply(arrangement: u8, x: Pair, y: Pair) -> Answer
    ensures { result ≡ answer_by (arrangement_of arrangement) (Multiply (figure_of x) (figure_of y)) }
{
    answer_by(arrangement, Call::Multiply(x.into(), y.into()))
}

// x + y
#[unsafe(no_mangle)]
pub extern "C" fn nekhvozu_add(arrangement: u8, x: Pair, y: Pair) -> Answer
    ensures { result ≡ answer_by (arrangement_of arrangement) (Add (figure_of x) (figure_of y)) }
{
    answer_by(arrangement, Call::Add(x.into(), y.into()))
}

// x × y + z
#[unsafe(no_mangle)]
pub extern "C" fn nekhvozu_fused(arrangement: u8, x: Pair, y: Pair, z: Pair) -> Answer
    ensures { result ≡ answer_by (arrangement_of arrangement) (Fused (figure_of x) (figure_of y) (figure_of z)) }
{
    answer_by(arrangement, Call::Fused(x.into(), y.into(), z.into()))
}

// ab + cd, by the arrangement's method
#[unsafe(no_mangle)]
pub extern "C" fn nekhvozu_sum(arrangement: u8, a: Pair, b: Pair, c: Pair, d: Pair) -> Answer
    ensures { result ≡ answer_by (arrangement_of arrangement)
        (Sum (figure_of a) (figure_of b) (figure_of c) (figure_of d)) }
{
    answer_by(
        arrangement,
        Call::Sum(a.into(), b.into(), c.into(), d.into()),
    )
}

// Runs a batch on a new console that holds the method.
fn run_fresh<M: Method + Drop>(method: M, text: &[u8], report: &mut [u8]) -> Ended
    ensures ended { result ≡ ended (run_batch M.Arith.RADIX M.Arith.PRECISION M.Arith.MARK
        (M.Method.answer method) (length report.old) (fresh_lanes M.Arith.RADIX M.Arith.PRECISION) text.now) }
    ensures report { report.new ≡ reported (run_batch M.Arith.RADIX M.Arith.PRECISION M.Arith.MARK
        (M.Method.answer method) (length report.old) (fresh_lanes M.Arith.RADIX M.Arith.PRECISION) text.now)
        report.old }
{
    run(&mut Console::new(method), text, report)
}

// The same by an arrangement.
fn run_by(by: Arrangement, text: &[u8], report: &mut [u8]) -> Ended
    ensures ended { result ≡ ended (batch_of by (length report.old) text.now) }
    ensures report { report.new ≡ reported (batch_of by (length report.old) text.now) report.old }
{
    match by {
        Arrangement::Binary => run_fresh(BINARY, text, report),
        Arrangement::Decimal => run_fresh(DECIMAL, text, report),
        Arrangement::Symmetric => run_fresh(SYMMETRIC, text, report),
    }
}

// Runs the batch of a text on a new console. The report has its lines, and behind them the bytes that stood there.
#[unsafe(no_mangle)]
pub extern "C" fn nekhvozu_batch(arrangement: u8, text: &[u8], report: &mut [u8]) -> BatchEnd
    ensures end { result ≡ end_by (arrangement_of arrangement) (length report.old) text.now }
    ensures report { report.new ≡ report_by (arrangement_of arrangement) (length report.old) text.now report.old }
{
    match arrangement_of(arrangement) {
        Some(by) => BatchEnd::of(run_by(by, text, report)),
        None => BatchEnd {
            rows: 0,
            bytes: 0,
            status: NO_ARRANGEMENT,
        },
    }
}

// The console against the runs of the tables.
ghost use Rattle.std.specs.Prelude.{◌≡◌, OnOk};
ghost use Rattle.rounding.specs.Refusals.{coded};
ghost use Rattle.runs.specs.Answers.{answer_to};

use crate::rows::Row;
use crate::{binary_kahan, binary_symmetric, decimal_kahan};
use checked_calls::calls::{BINARY, DECIMAL, SYMMETRIC};
use console::Console;
use histories::Call;
use methods::method::Method;
use rounding::Refusal;
use runs::{Answer, perform};
use std::test::Fail;

// Makes the call of a row, and passes only where it has the row's answer or refusal.
pub fn row_stands<M: Method>(
    console: &mut Console<M>,
    call: Call,
    told: Result<Answer, Refusal>,
) -> Result<(), Fail>
    ensures { OnOk result (answer_to M.Arith.RADIX M.Arith.PRECISION
        (M.Method.answer console.old.method) console.old.lanes call
        ≡ coded told) }
{
    let got = perform(console, call);
    if got == told {
        Ok(())
    } else {
        Err(Fail::new(format_args!("{got:?} in place of {told:?}")))
    }
}

// Makes the calls of a table in order, and passes only where each row stands.
fn rows_stand<M: Method>(console: &mut Console<M>, table: &[Row]) -> Result<(), Fail> {
    for &(call, told) in table {
        row_stands(console, call, told)?;
    }
    Ok(())
}

#[test]
fn binary_kahan_run() -> Result<(), Fail> {
    let mut console = Console::new(BINARY);
    rows_stand(&mut console, &binary_kahan::RUN)
}

#[test]
fn binary_symmetric_run() -> Result<(), Fail> {
    let mut console = Console::new(SYMMETRIC);
    rows_stand(&mut console, &binary_symmetric::RUN)
}

#[test]
fn decimal_kahan_run() -> Result<(), Fail> {
    let mut console = Console::new(DECIMAL);
    rows_stand(&mut console, &decimal_kahan::RUN)
}

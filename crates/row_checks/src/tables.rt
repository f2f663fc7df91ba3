// Tables filled by a console, against the tables that were filled elsewhere.
ghost use Rattle.std.specs.Prelude.{◌≡◌, OnOk, map};
ghost use Rattle.rows.specs.Filling.{filled};

use crate::{binary_kahan, binary_symmetric, decimal_kahan};
use checked_calls::calls::{BINARY, DECIMAL, SYMMETRIC};
use console::Console;
use methods::method::Method;
use rounding::figure;
use rows::{Row, fill};
use std::test::Fail;

// Passes only where the rows are those told.
#[tactic(auto, using(crate::proofs::Sameness::same_rows))]
fn same_rows(rows: &[Row], told: &[Row]) -> Result<(), Fail>
    ensures { OnOk result (rows.now ≡ told.now) }
{
    if rows == told {
        Ok(())
    } else {
        let differing = rows.iter().zip(told).find(|(row, told)| row != told);
        Err(Fail::new(format_args!("a row beside the one told: {differing:?}")))
    }
}

// Fills the rows, and passes only where they then are those told.
fn rows_stand<M: Method>(console: &Console<M>, rows: &mut [Row], told: &[Row]) -> Result<(), Fail>
    ensures filled { OnOk result (map (filled M.Arith.RADIX M.Arith.PRECISION
        (M.Method.answer console.now.method) console.now.lanes) rows.old ≡ told.now) }
    ensures rows { OnOk result (rows.new ≡ told.now) }
{
    let count = fill(console, rows);
    if count == told.len() {
        same_rows(rows, told)
    } else {
        Err(Fail::new(format_args!("{count} rows")))
    }
}

// Fills the rows of a table once their outcomes and answers are written over, and then once more: filled rows stay.
fn table_stands<M: Method>(console: &Console<M>, told: &[Row; 60]) -> Result<(), Fail>
    ensures { OnOk result (map (filled M.Arith.RADIX M.Arith.PRECISION
        (M.Method.answer console.now.method) console.now.lanes) told.now ≡ told.now) }
{
    let mut rows = *told;
    for row in rows.iter_mut() {
        row.first = figure!(7, -7);
        row.second = row.a;
        row.outcome = 77;
    }
    rows_stand(console, &mut rows, told)?;
    rows_stand(console, &mut rows, told)?;
    rows_stand(console, &mut [], &[])
}

#[test]
fn binary_kahan_table() -> Result<(), Fail> {
    table_stands(&Console::new(BINARY), &binary_kahan::FILLED)
}

#[test]
fn binary_symmetric_table() -> Result<(), Fail> {
    table_stands(&Console::new(SYMMETRIC), &binary_symmetric::FILLED)
}

#[test]
fn decimal_kahan_table() -> Result<(), Fail> {
    table_stands(&Console::new(DECIMAL), &decimal_kahan::FILLED)
}

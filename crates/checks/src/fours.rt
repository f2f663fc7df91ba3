// The methods against the tables of each kind, and what they refuse, by every call that is made through a method.
ghost use Rattle.std.specs.Prelude.{◌≡◌, Some, Ok, OnOk};
ghost use Rattle.rounding.specs.declared.Figure.{Figure};
ghost use Rattle.rounding.specs.Refusals.{number, unless};
ghost use Rattle.figures.specs.Figures.{opposite};
ghost use Rattle.bounds.specs.Fours.{faults};

use crate::rows::{Four, answers, refuses};
use crate::{binary_kahan, binary_symmetric, decimal_kahan};
use checked_calls::calls::{BINARY, DECIMAL, SYMMETRIC};
use kinds::format::Format;
use methods::method::Method;
use products::{complex_product, determinant, sum};
use rounding::Refusal::{OperandNoFigure, OperandRange};
use rounding::{Figure, Refusal, figure};
use std::test::Fail;

// Passes only where every call on the operands of the row has the row's answer.
fn row_stands<M: Method>(method: &M, row: &Four) -> Result<(), Fail>
    ensures sum { OnOk result (unless
        (faults M.Arith.RADIX M.Arith.PRECISION row.now.a row.now.b row.now.c row.now.d)
        (M.Method.answer method.now row.now.a row.now.b row.now.c row.now.d) ≡ Ok row.now.sum) }
    ensures determinant { OnOk result (unless
        (faults M.Arith.RADIX M.Arith.PRECISION row.now.a row.now.b row.now.c row.now.d)
        (M.Method.answer method.now row.now.a row.now.d (opposite row.now.b) row.now.c)
        ≡ Ok row.now.determinant) }
    ensures product { OnOk result (unless {X = Figure × Figure}
        (faults M.Arith.RADIX M.Arith.PRECISION row.now.a row.now.b row.now.c row.now.d) (
          M.Method.answer method.now row.now.a row.now.c (opposite row.now.b) row.now.d,
          M.Method.answer method.now row.now.a row.now.d row.now.b row.now.c,
        ) ≡ Ok (row.now.real, row.now.imaginary)) }
{
    let Four { a, b, c, d, .. } = *row;
    answers(sum(method, a, b, c, d), row.sum)?;
    answers(determinant(method, a, b, c, d), row.determinant)?;
    let (real, imaginary) = complex_product(method, a, b, c, d)?;
    answers(Ok(real), row.real)?;
    answers(Ok(imaginary), row.imaginary)
}

// Passes only where every row of the table stands.
fn rows_stand<M: Method>(method: &M, table: &[Four]) -> Result<(), Fail> {
    for row in table {
        row_stands(method, row)?;
    }
    Ok(())
}

#[test]
fn binary_kahan_rows() -> Result<(), Fail> {
    rows_stand(&BINARY, &binary_kahan::FOURS)
}

#[test]
fn binary_symmetric_rows() -> Result<(), Fail> {
    rows_stand(&SYMMETRIC, &binary_symmetric::FOURS)
}

#[test]
fn decimal_kahan_rows() -> Result<(), Fail> {
    rows_stand(&DECIMAL, &decimal_kahan::FOURS)
}

// Passes only where every call on the four is refused with `want`. (With the last call in the place of `Ok`, its clause
// does not prove.)
fn four_refused<M: Method>(
    method: &M,
    a: Figure,
    b: Figure,
    c: Figure,
    d: Figure,
    want: Refusal,
) -> Result<(), Fail>
    ensures { OnOk result (faults M.Arith.RADIX M.Arith.PRECISION a b c d ≡ Some (number want)) }
{
    refuses(sum(method, a, b, c, d), want)?;
    refuses(determinant(method, a, b, c, d), want)?;
    refuses(complex_product(method, a, b, c, d), want)?;
    Ok(())
}

// Passes only where `bad` among three times `good` is refused with `want`, in each of the four places.
fn refused_in_each_place<M: Method>(
    method: &M,
    good: Figure,
    bad: Figure,
    want: Refusal,
) -> Result<(), Fail>
    ensures { OnOk result (
        (faults M.Arith.RADIX M.Arith.PRECISION bad good good good ≡ Some (number want))
        × (faults M.Arith.RADIX M.Arith.PRECISION good bad good good ≡ Some (number want))
        × (faults M.Arith.RADIX M.Arith.PRECISION good good bad good ≡ Some (number want))
        × (faults M.Arith.RADIX M.Arith.PRECISION good good good bad ≡ Some (number want))) }
{
    four_refused(method, bad, good, good, good, want)?;
    four_refused(method, good, bad, good, good, want)?;
    four_refused(method, good, good, bad, good, want)?;
    four_refused(method, good, good, good, bad, want)
}

// Passes only where `x` anywhere to the left of `y`, with `good` in the other places, is refused with `want`.
fn refused_by_the_first<M: Method>(
    method: &M,
    good: Figure,
    x: Figure,
    y: Figure,
    want: Refusal,
) -> Result<(), Fail>
    ensures { OnOk result (
        (faults M.Arith.RADIX M.Arith.PRECISION x y good good ≡ Some (number want))
        × (faults M.Arith.RADIX M.Arith.PRECISION x good y good ≡ Some (number want))
        × (faults M.Arith.RADIX M.Arith.PRECISION x good good y ≡ Some (number want))
        × (faults M.Arith.RADIX M.Arith.PRECISION good x y good ≡ Some (number want))
        × (faults M.Arith.RADIX M.Arith.PRECISION good x good y ≡ Some (number want))
        × (faults M.Arith.RADIX M.Arith.PRECISION good good x y ≡ Some (number want))) }
{
    four_refused(method, x, y, good, good, want)?;
    four_refused(method, x, good, y, good, want)?;
    four_refused(method, x, good, good, y, want)?;
    four_refused(method, good, x, y, good, want)?;
    four_refused(method, good, x, good, y, want)?;
    four_refused(method, good, good, x, y, want)
}

// What is no figure is refused as such, also where its exponent is outside -200..200, and a figure whose exponent is
// outside -200..200 for that, beside zero and beside the largest operand. Of two such operands the first from the left
// counts. `least` and `top` are β^(p-1) and β^p.
fn refusals<M: Method>(method: &M) -> Result<(), Fail> {
    let format = Format::of::<M::Arith>();
    let least = format.least as i32;
    let top = format.top as i32;
    let none = figure!(i32::MIN, 0);
    let far = figure!(least, 201);
    for good in [figure!(0, 0), figure!(top - 1, 200)] {
        for (bad, want) in [
            (figure!(0, 1), OperandNoFigure),
            (figure!(0, -201), OperandNoFigure),
            (figure!(1, 0), OperandNoFigure),
            (figure!(least - 1, 0), OperandNoFigure),
            (figure!(1 - least, 201), OperandNoFigure),
            (figure!(top, 200), OperandNoFigure),
            (figure!(-top, -200), OperandNoFigure),
            (figure!(i32::MIN, 0), OperandNoFigure),
            (figure!(i32::MIN, 201), OperandNoFigure),
            (figure!(i32::MAX, 0), OperandNoFigure),
            (figure!(least, 2001), OperandNoFigure),
            (figure!(-least, -2001), OperandNoFigure),
            (figure!(least, i32::MIN), OperandNoFigure),
            (figure!(i32::MIN, i32::MIN), OperandNoFigure),
            (figure!(least, 201), OperandRange),
            (figure!(1 - top, -201), OperandRange),
            (figure!(-least, 2000), OperandRange),
            (figure!(top - 1, -2000), OperandRange),
        ] {
            refused_in_each_place(method, good, bad, want)?;
        }
        refused_by_the_first(method, good, none, far, OperandNoFigure)?;
        refused_by_the_first(method, good, far, none, OperandRange)?;
    }
    Ok(())
}

#[test]
fn binary_kahan_refusals() -> Result<(), Fail> {
    refusals(&BINARY)
}

#[test]
fn binary_symmetric_refusals() -> Result<(), Fail> {
    refusals(&SYMMETRIC)
}

#[test]
fn decimal_kahan_refusals() -> Result<(), Fail> {
    refusals(&DECIMAL)
}

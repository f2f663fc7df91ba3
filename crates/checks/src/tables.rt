// The arithmetic against the tables of each kind.
use crate::rows::{Pair, Triple, answers};
use crate::{binary, decimal};
use figures::arithmetic::Arithmetic;
use integers::Integers;
use kinds::{Binary, Decimal};
use std::test::Fail;

// Passes only where every operation on the operands of a row has the row's answer.
fn rows_stand<A: Arithmetic>(
    products: &[Pair],
    sums: &[Pair],
    fused: &[Triple],
) -> Result<(), Fail> {
    for row in products {
        answers(A::multiply(row.x, row.y), row.answer)?;
    }
    for row in sums {
        answers(A::add(row.x, row.y), row.answer)?;
    }
    for row in fused {
        answers(A::fused(row.x, row.y, row.z), row.answer)?;
    }
    Ok(())
}

#[test]
fn binary_rows() -> Result<(), Fail> {
    rows_stand::<Integers<Binary>>(&binary::PRODUCTS, &binary::SUMS, &binary::FUSED)
}

#[test]
fn decimal_rows() -> Result<(), Fail> {
    rows_stand::<Integers<Decimal>>(&decimal::PRODUCTS, &decimal::SUMS, &decimal::FUSED)
}

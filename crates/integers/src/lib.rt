// The arithmetic of a kind in whole numbers of 64 bits: one text for every kind.
#![tactic(auto)]

ghost use Rattle.std.specs.Prelude.{◌≡◌, OnOk};
ghost use Rattle.rounding.specs.Refusals.{coded, fault_of, unless};
ghost use Rattle.rounding.specs.Operations.{no_figure, outside};
ghost use Rattle.integers.specs.Terms.{IsOperand};
ghost use Rattle.std.proofs.Common.{rules};

use crate::terms::Term;
use figures::arithmetic::{Arithmetic, BinaryArithmetic};
use figures::is_figure;
use kinds::format::Format;
use kinds::{Binary, Kind};
use rounding::{Figure, Refusal};
use std::marker::PhantomData;

mod nearest;
mod sum;
mod terms;

#[derive(Drop)]
pub struct Integers<K> {
    of: PhantomData<K>,
}

impl<K: Kind> Kind for Integers<K> {
    const RADIX: u32 = K::RADIX;

    const PRECISION: u32 = K::PRECISION;

    const MARK: u8 = K::MARK;

    ghost RADIX = { K.RADIX };

    ghost PRECISION = { K.PRECISION };

    ghost MARK = { K.MARK };

    ghost kind = { K.kind };

    ghost marked = { K.marked };
}

// The figure, unless its exponent is outside -2000..2000.
fn within_range(f: Figure) -> Result<Figure, Refusal>
    ensures { coded result ≡ unless (outside f) f }
{
    if f.reaches(2000) {
        Ok(f)
    } else {
        Err(Refusal::ResultRange)
    }
}

// Refuses what is no figure of the kind, by an operation's refusal; methods have a test of their own.
fn check_operand(format: Format, f: Figure) -> Result<(), Refusal>
    ensures fault { fault_of result ≡ no_figure format.radix format.precision f }
    ensures small { OnOk result (IsOperand format.top f) }
{
    if is_figure(format, f) {
        Ok(())
    } else {
        Err(Refusal::NoFigure)
    }
}

// Operands are tested from the left, the exact result is rounded once, and then its exponent is tested.
impl<K: Kind> Arithmetic for Integers<K> {
    fn multiply(x: Figure, y: Figure) -> Result<Figure, Refusal> {
        let format = Format::of::<K>();
        check_operand(format, x)?;
        check_operand(format, y)?;
        within_range(Term::product(format, x, y).exact(format).nearest(format))
    }

    fn add(x: Figure, y: Figure) -> Result<Figure, Refusal> {
        let format = Format::of::<K>();
        check_operand(format, x)?;
        check_operand(format, y)?;
        within_range(Term::from(x).plus(format, Term::from(y)).nearest(format))
    }

    fn fused(x: Figure, y: Figure, z: Figure) -> Result<Figure, Refusal> {
        let format = Format::of::<K>();
        check_operand(format, x)?;
        check_operand(format, y)?;
        check_operand(format, z)?;
        let product = Term::product(format, x, y);
        within_range(product.plus(format, Term::from(z)).nearest(format))
    }
}

impl BinaryArithmetic for Integers<Binary> {
    ghost radix = { Prim.search rules };

    fn radix_two() -> u32 {
        Self::RADIX
    }
}

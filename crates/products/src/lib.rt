// Sums of two products, determinants and complex products, by any method. The four figures stand apart, and not in a
// struct, since the determinant and the parts of a product give them to the method in other orders than a, b, c, d.
#![tactic(auto)]

ghost use Rattle.std.specs.Prelude.{◌≡◌};
ghost use Rattle.rounding.specs.Refusals.{unless, coded};
ghost use Rattle.figures.specs.Figures.{opposite};
ghost use Rattle.bounds.specs.Fours.{faults};

use figures::opposite;
use kinds::format::Format;
use methods::check_operands;
use methods::method::Method;
use rounding::{Figure, Refusal};

// ab + cd
pub fn sum<M: Method>(
    method: &M,
    a: Figure,
    b: Figure,
    c: Figure,
    d: Figure,
) -> Result<Figure, Refusal>
    ensures { coded result ≡ unless (faults M.Arith.RADIX M.Arith.PRECISION a b c d)
        (M.Method.answer method.now a b c d) }
{
    method.apply(a, b, c, d)
}

// ad - bc. The operands are tested in this call's order, before b is turned.
#[tactic(auto, using(crate::proofs::Theorems::stays_accepted))]
pub fn determinant<M: Method>(
    method: &M,
    a: Figure,
    b: Figure,
    c: Figure,
    d: Figure,
) -> Result<Figure, Refusal>
    ensures { coded result ≡ unless (faults M.Arith.RADIX M.Arith.PRECISION a b c d)
        (M.Method.answer method.now a d (opposite b) c) }
{
    check_operands(Format::of::<M::Arith>(), a, b, c, d)?;
    method.apply(a, d, opposite(b), c)
}

// (a + bi)(c + di): the real and the imaginary part. The operands are tested in this call's order, before b is turned.
#[tactic(auto, using(crate::proofs::Theorems::stays_accepted))]
pub fn complex_product<M: Method>(
    method: &M,
    a: Figure,
    b: Figure,
    c: Figure,
    d: Figure,
) -> Result<(Figure, Figure), Refusal>
    ensures { coded result ≡ unless (faults M.Arith.RADIX M.Arith.PRECISION a b c d)
        (M.Method.answer method.now a c (opposite b) d, M.Method.answer method.now a d b c) }
{
    let format = Format::of::<M::Arith>();
    check_operands(format, a, b, c, d)?;
    let real = method.apply(a, c, opposite(b), d)?;
    let imaginary = method.apply(a, d, b, c)?;
    Ok((real, imaginary))
}

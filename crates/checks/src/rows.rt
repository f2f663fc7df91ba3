// Rows of the tables, and what a test asks of an answer.
ghost use Rattle.std.specs.Prelude.{◌≡◌, Ok, Err, OnOk};

use rounding::{Figure, Refusal};
use std::test::Fail;

// An operation on two figures with its answer.
pub struct Pair {
    pub x: Figure,
    pub y: Figure,
    pub answer: Figure,
}

// An operation on three figures with its answer: a type of its own, so that no row of two has a third without meaning.
pub struct Triple {
    pub x: Figure,
    pub y: Figure,
    pub z: Figure,
    pub answer: Figure,
}

// Four operands of a method with the answers for the sum ab + cd, the determinant ad - bc, and the real and the
// imaginary part of the complex product (a + bi)(c + di).
pub struct Four {
    pub a: Figure,
    pub b: Figure,
    pub c: Figure,
    pub d: Figure,
    pub sum: Figure,
    pub determinant: Figure,
    pub real: Figure,
    pub imaginary: Figure,
}

// Passes only where the answer is the figure `want`.
pub fn answers(got: Result<Figure, Refusal>, want: Figure) -> Result<(), Fail>
    ensures { OnOk result (got ≡ Ok want) }
{
    if got == Ok(want) {
        Ok(())
    } else {
        Err(Fail::new(format_args!("{got:?} in place of {want:?}")))
    }
}

// Passes only where the call is refused with `want`.
pub fn refuses<T: Drop>(got: Result<T, Refusal>, want: Refusal) -> Result<(), Fail>
    ensures { OnOk result (got ≡ Err want) }
{
    match got {
        Err(refusal) if refusal == want => Ok(()),
        Err(refusal) => Err(Fail::new(format_args!(
            "refused with {refusal:?} in place of {want:?}"
        ))),
        Ok(_) => Err(Fail::new(format_args!("an answer in place of {want:?}"))),
    }
}

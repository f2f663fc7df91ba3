// Calls as values, and how they are made.
ghost use Rattle.std.specs.Prelude.{◌≡◌, Some};
ghost use Rattle.rounding.specs.Refusals.{coded};
ghost use Rattle.checked_calls.specs.Calls.{radix_of, precision_of, method_of, name_text};
ghost use Rattle.checked_calls.specs.Calls.{answered, answer_of, product_of};

use figures::arithmetic::Arithmetic;
use integers::Integers;
use methods::kahan::Kahan;
use methods::method::Method;
use products::{complex_product, determinant, sum};
use rounding::{Figure, Refusal};
use std::fmt;
use std::marker::PhantomData;
use symmetric_method::Symmetric;

// Which kind a call is on, and which method it is made by: Kahan's over either kind, or the symmetric one over the
// binary kind.
#[derive(Clone, Copy)]
pub enum Arrangement {
    Binary,
    Decimal,
    Symmetric,
}

// The name of an arrangement.
pub fn name_of(by: Arrangement) -> &'static str
    ensures { result.now ≡ name_text by }
{
    match by {
        Arrangement::Binary => "binary",
        Arrangement::Decimal => "decimal",
        Arrangement::Symmetric => "symmetric",
    }
}

// It prints its name.
impl fmt::Display for Arrangement {
    ghost output = { λ by. Some (name_text by) };

    fn fmt<W: fmt::Write>(&self, f: &mut fmt::Formatter<W>) -> fmt::Result {
        f.write_str(name_of(*self))
    }
}

// The methods of the arrangements.
pub const BINARY: Kahan<Integers<kinds::Binary>> = Kahan {
    arithmetic: PhantomData,
};

pub const DECIMAL: Kahan<Integers<kinds::Decimal>> = Kahan {
    arithmetic: PhantomData,
};

pub const SYMMETRIC: Symmetric<Integers<kinds::Binary>> = Symmetric {
    arithmetic: PhantomData,
};

// A call as a value, which can be shown beside its answer. It is made with no console, so that it has operations, and
// no lanes.
#[derive(Clone, Copy)]
pub enum Call {
    Multiply(Figure, Figure),
    Add(Figure, Figure),
    Fused(Figure, Figure, Figure),
    Sum(Figure, Figure, Figure, Figure),
    Determinant(Figure, Figure, Figure, Figure),
}

// A call by an arrangement, and what it answered.
#[derive(Clone, Copy)]
pub struct Answered {
    pub by: Arrangement,
    pub call: Call,
    pub answer: Result<Figure, Refusal>,
}

// Makes a call by any method and its arithmetic. A call is a value and no closure, since it is shown.
#[tactic(auto, unfolding(crate::specs::Calls::answered))]
fn perform<M: Method>(method: &M, call: Call) -> Result<Figure, Refusal>
    ensures { coded result ≡ answered M.Arith.RADIX M.Arith.PRECISION
        (M.Method.answer method.now) call }
{
    match call {
        Call::Multiply(x, y) => M::Arith::multiply(x, y),
        Call::Add(x, y) => M::Arith::add(x, y),
        Call::Fused(x, y, z) => M::Arith::fused(x, y, z),
        Call::Sum(a, b, c, d) => sum(method, a, b, c, d),
        Call::Determinant(a, b, c, d) => determinant(method, a, b, c, d),
    }
}

// Makes a call by an arrangement. Each arm runs generic code over another type, which no closure or `dyn` can name.
pub fn answer_of(by: Arrangement, call: Call) -> Result<Figure, Refusal>
    ensures { coded result ≡ answer_of by call }
{
    match by {
        Arrangement::Binary => perform(&BINARY, call),
        Arrangement::Decimal => perform(&DECIMAL, call),
        Arrangement::Symmetric => perform(&SYMMETRIC, call),
    }
}

// A complex product by any method, its operands apart as in `products`.
#[tactic(auto, unfolding(crate::specs::Calls::product_of))]
fn product_by<M: Method>(
    method: &M,
    a: Figure,
    b: Figure,
    c: Figure,
    d: Figure,
) -> Result<(Figure, Figure), Refusal>
    ensures { coded result ≡ product_of M.Arith.RADIX M.Arith.PRECISION
        (M.Method.answer method.now) a b c d }
{
    complex_product(method, a, b, c, d)
}

// (a + bi)(c + di) by an arrangement: the real and the imaginary part. Its arms are as those of `answer_of`.
pub fn product_of(
    by: Arrangement,
    a: Figure,
    b: Figure,
    c: Figure,
    d: Figure,
) -> Result<(Figure, Figure), Refusal>
    ensures { coded result ≡ product_of (radix_of by) (precision_of by)
        (method_of by (radix_of by) (precision_of by)) a b c d }
{
    match by {
        Arrangement::Binary => product_by(&BINARY, a, b, c, d),
        Arrangement::Decimal => product_by(&DECIMAL, a, b, c, d),
        Arrangement::Symmetric => product_by(&SYMMETRIC, a, b, c, d),
    }
}

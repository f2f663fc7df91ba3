// The symmetric method of Cornea, Harrison and Tang: both products are rounded and both errors are kept, so that the
// order of the products does not matter. It stands over binary arithmetics.
#![tactic(auto)]

ghost use Rattle.std.specs.Prelude.{◌≡◌, ◌-◌, ◌^◌, IfOk};
ghost use Rattle.rounding.specs.Exact.{value};
ghost use Rattle.rounding.specs.Errors.{Within};
ghost use Rattle.rounding.specs.Refusals.{unless, coded};
ghost use Rattle.bounds.specs.Fours.{faults, exact_sum, limit_num, limit_den};
ghost use Rattle.bounds.specs.Symmetric.{symmetric, symmetric_steps};
ghost use Rattle.bounds.proofs.Answers.{symmetric_reliable};

use figures::arithmetic::BinaryArithmetic;
use figures::opposite;
use kinds::format::Format;
use methods::check_operands;
use methods::method::Method;
use rounding::{Figure, Refusal};
use std::marker::PhantomData;

// The symmetric method over the binary arithmetic A.
#[derive(Drop)]
pub struct Symmetric<A> {
    pub arithmetic: PhantomData<A>,
}

// The seven operations, each of which may refuse.
fn steps<A: BinaryArithmetic>(a: Figure, b: Figure, c: Figure, d: Figure) -> Result<Figure, Refusal>
    ensures { coded result ≡ symmetric_steps A.RADIX A.PRECISION a b c d }
{
    let p1 = A::multiply(a, b)?;
    let p2 = A::multiply(c, d)?;
    let e1 = A::fused(a, b, opposite(p1))?;
    let e2 = A::fused(c, d, opposite(p2))?;
    let r = A::add(p1, p2)?;
    let e = A::add(e1, e2)?;
    A::add(r, e)
}

impl<A: BinaryArithmetic> Method for Symmetric<A> {
    type Arith = A;

    ghost answer = { λ m. symmetric A.RADIX A.PRECISION };

    ghost num = { λ m. limit_num (A.RADIX ^ (A.PRECISION - 1)) };

    ghost den = { λ m. limit_den (A.RADIX ^ (A.PRECISION - 1)) };

    ghost reliable = { λ m. symmetric_reliable _ _ A.kind };

    // The answer is within (4B² + 7B + 3)/(4B³) of ab + cd, and it is the answer to c, d, a, b: bounds of its own, for
    // which each method writes its `apply`.
    #[tactic(auto, using(crate::proofs::Theorems::symmetric_is_near))]
    fn apply(&self, a: Figure, b: Figure, c: Figure, d: Figure) -> Result<Figure, Refusal>
        ensures answer { coded result ≡ unless (faults A.RADIX A.PRECISION a b c d)
            (symmetric A.RADIX A.PRECISION a b c d) }
        ensures within { IfOk result (λ f. Within A.RADIX (limit_num (A.RADIX ^ (A.PRECISION - 1)))
            (limit_den (A.RADIX ^ (A.PRECISION - 1))) (value f) (exact_sum A.RADIX a b c d)) }
        ensures exchanged { IfOk result (λ f. f ≡ symmetric A.RADIX A.PRECISION c d a b) }
    {
        check_operands(Format::of::<A>(), a, b, c, d)?;
        steps::<A>(a, b, c, d)
    }
}

// Kahan's method: one product is rounded, its error is kept, the other product is added to both.
ghost use Rattle.std.specs.Prelude.{◌≡◌, ◌+◌, ◌-◌, ◌^◌, IfOk};
ghost use Rattle.rounding.specs.Exact.{value};
ghost use Rattle.rounding.specs.Errors.{Within, WithinPlaces, UlpIsLastPlace};
ghost use Rattle.rounding.specs.Refusals.{unless, coded};
ghost use Rattle.bounds.specs.Fours.{faults, exact_sum};
ghost use Rattle.bounds.specs.Kahan.{kahan, kahan_steps};
ghost use Rattle.bounds.proofs.Answers.{kahan_reliable};

use crate::check_operands;
use crate::method::Method;
use figures::arithmetic::Arithmetic;
use figures::opposite;
use kinds::format::Format;
use rounding::{Figure, Refusal};
use std::marker::PhantomData;

// Kahan's method over the arithmetic A.
#[derive(Drop)]
pub struct Kahan<A> {
    pub arithmetic: PhantomData<A>,
}

// The four operations, each of which may refuse.
fn steps<A: Arithmetic>(a: Figure, b: Figure, c: Figure, d: Figure) -> Result<Figure, Refusal>
    ensures { coded result ≡ kahan_steps A.RADIX A.PRECISION a b c d }
{
    let w = A::multiply(c, d)?;
    let e = A::fused(c, d, opposite(w))?;
    let f = A::fused(a, b, w)?;
    A::add(f, e)
}

impl<A: Arithmetic> Method for Kahan<A> {
    type Arith = A;

    ghost answer = { λ m. kahan A.RADIX A.PRECISION };

    ghost num = { λ m. 1 };

    ghost den = { λ m. A.RADIX ^ (A.PRECISION - 1) };

    ghost reliable = { λ m. kahan_reliable _ _ A.kind };

    // The answer is within 1/B of ab + cd, and within (β + 1)/2 units of its last place: bounds of its own, for which
    // each method writes its `apply`.
    #[tactic(auto, using(crate::proofs::Theorems::kahan_is_near))]
    fn apply(&self, a: Figure, b: Figure, c: Figure, d: Figure) -> Result<Figure, Refusal>
        ensures answer { coded result ≡ unless (faults A.RADIX A.PRECISION a b c d)
            (kahan A.RADIX A.PRECISION a b c d) }
        ensures within { IfOk result (λ f. Within A.RADIX 1 (A.RADIX ^ (A.PRECISION - 1))
            (value f) (exact_sum A.RADIX a b c d)) }
        ensures places { IfOk result (λ f. WithinPlaces A.RADIX A.PRECISION (A.RADIX + 1) 2
            (value f) (exact_sum A.RADIX a b c d)) }
        ensures last { UlpIsLastPlace }
    {
        check_operands(Format::of::<A>(), a, b, c, d)?;
        steps::<A>(a, b, c, d)
    }
}

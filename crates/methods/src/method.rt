// What a method is, whatever it computes.
ghost use Rattle.std.specs.Prelude.{◌≡◌, ℕ};
ghost use Rattle.rounding.specs.Refusals.{unless, coded};
ghost use Rattle.bounds.specs.Fours.{faults};
ghost use Rattle.bounds.specs.Methods.{Function, IsReliable};

use figures::arithmetic::Arithmetic;
use rounding::{Figure, Refusal};

// A function for ab + cd over an arithmetic, and an allowance num/den for its error: of every accepted four the answer
// is a figure of the kind with an exponent in -500..500, and |answer - (ab + cd)| ≤ (num/den) |ab + cd|.
pub trait Method {
    type Arith: Arithmetic;

    ghost answer: { Self → Function };

    ghost num: { Self → ℕ };

    ghost den: { Self → ℕ };

    // The answer to an accepted four; any other is refused by its first fault from the left. The four stand apart and
    // not in a struct, since callers give them in another order: a determinant is M(a, d, -b, c). Each method writes
    // its own `apply`, since each adds its own bounds to this promise, which a provided one could not.
    fn apply(&self, a: Figure, b: Figure, c: Figure, d: Figure) -> Result<Figure, Refusal>
        ensures { coded result ≡ unless (faults Self.Arith.RADIX Self.Arith.PRECISION a b c d)
            (answer self.now a b c d) };

    ghost reliable: { (m : Self) → IsReliable Self.Arith.RADIX Self.Arith.PRECISION (num m) (den m) (answer m) };
}

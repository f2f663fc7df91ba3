// What an arithmetic answers, whatever it computes with.
ghost use Rattle.std.specs.Prelude.{◌≡◌};
ghost use Rattle.rounding.specs.Refusals.{coded};
ghost use Rattle.rounding.specs.Operations.{multiplied, added, fused_sum};

use kinds::Kind;
use rounding::{Figure, Refusal};

// Each operation answers the exact result rounded once, or the first refusal.
pub trait Arithmetic: Kind {
    fn multiply(x: Figure, y: Figure) -> Result<Figure, Refusal>
        ensures { coded result ≡ multiplied Self.RADIX Self.PRECISION x y };

    fn add(x: Figure, y: Figure) -> Result<Figure, Refusal>
        ensures { coded result ≡ added Self.RADIX Self.PRECISION x y };

    // x × y + z
    fn fused(x: Figure, y: Figure, z: Figure) -> Result<Figure, Refusal>
        ensures { coded result ≡ fused_sum Self.RADIX Self.PRECISION x y z };
}

// An arithmetic at radix 2. The function hands the fact to code, the law to proofs.
pub trait BinaryArithmetic: Arithmetic {
    fn radix_two() -> u32
        ensures two { result ≡ 2 }
        ensures radix { Self.RADIX ≡ 2 };

    ghost radix: { Self.RADIX ≡ 2 };
}

// A number as the machine holds it: a sign, a size and an exponent.
ghost use Rattle.std.specs.Prelude.{◌≡◌, ◌*◌, ◌^◌, ◌<◌, ◌≤◌, unsigned_abs};
ghost use Rattle.rounding.specs.Exact.{product};
ghost use Rattle.integers.specs.Terms.{CanLift, exact, IsAddend, IsOperand, IsTermOf, lifted, worth};
ghost use Rattle.integers.specs.Rounding.{RoundsAs};

use kinds::format::Format;
use kinds::powers::scaled;
use rounding::Figure;
use std::marker::Model;

// ± size × β^exponent.
#[derive(Clone, Copy)]
pub(crate) struct Term {
    pub(crate) negative: bool,
    pub(crate) size: u64,
    pub(crate) exponent: i32,
}

// The term and, where sticky, something more of its sign, less than one unit of its size.
#[derive(Clone, Copy)]
pub(crate) struct Truncated {
    pub(crate) term: Term,
    pub(crate) sticky: bool,
}

// The bounds hold of each value, so that no clause repeats them.
impl Model for Truncated {
    ghost use Rattle.integers.specs.Terms.{FitsWord, Truncation};

    ghost Value = { Truncation };

    ghost view = { λ t. record { term = t.term; sticky = t.sticky } };

    ghost invariant = { λ t. FitsWord t.term };

    ghost inverse = { λ t. record { term = t.term; sticky = t.sticky } };
}

impl From<Figure> for Term {
    ghost from_gives = { IsTermOf };

    fn from(f: Figure) -> Term {
        Term {
            negative: f.s < 0,
            size: f.s.unsigned_abs() as u64,
            exponent: f.q,
        }
    }
}

impl Term {
    // x × y, exactly.
    #[tactic(auto, using(crate::proofs::Signs::products_of_terms))]
    pub(crate) fn product(format: Format, x: Figure, y: Figure) -> Term
        requires x { IsOperand format.top x }
        requires y { IsOperand format.top y }
        ensures is { worth result ≡ product x y }
        ensures small { IsAddend format.top result }
    {
        let a = Term::from(x);
        let b = Term::from(y);
        Term {
            negative: a.negative != b.negative,
            size: a.size * b.size,
            exponent: a.exponent + b.exponent,
        }
    }

    // The same number, with zeros appended.
    pub(crate) fn lifted(self, radix: u64, by: u32) -> Term
        requires size { self.size * radix ^ by < 2 ^ 64 }
        requires reach { CanLift self by }
        ensures { result ≡ lifted radix self by }
    {
        Term {
            negative: self.negative,
            size: scaled(radix, self.size, by),
            exponent: self.exponent - by as i32,
        }
    }

    // The term with nothing below it.
    #[tactic(auto, using(crate::proofs::Rounds::exact_rounds))]
    pub(crate) fn exact(self, format: Format) -> Truncated
        requires { IsAddend format.top self }
        ensures is { result ≡ exact self }
        ensures rounds { RoundsAs format.radix format.precision (worth self) result }
    {
        Truncated {
            term: self,
            sticky: false,
        }
    }
}

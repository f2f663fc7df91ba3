// One rounding to the digits of a kind: to nearest, ties to even.
ghost use Rattle.std.specs.Prelude.{◌≡◌, ◌+◌, ◌*◌, ◌/◌, ◌^◌, ◌<◌, ◌≤◌, unsigned_abs};
ghost use Rattle.rounding.specs.Rounding.{carried, raise, signed};
ghost use Rattle.integers.specs.Terms.{CanLift};
ghost use Rattle.integers.specs.Rounding.{extended_figure, nearest_figure, one_if, shortened_figure};

use crate::terms::{Term, Truncated};
use kinds::format::Format;
use kinds::powers::scaled;
use rounding::Figure;

// The quotient, or one more where the remainder, with something below it if sticky, is past half the unit; in a tie
// the even one of the two. (Two tests of words, each of which an edit can turn, where `cmp` would have three arms.)
fn evened(quotient: u64, remainder: u64, unit: u64, sticky: bool) -> u64
    requires remainder { 2 * remainder + 1 < 2 ^ 64 }
    requires quotient { quotient + 1 < 2 ^ 64 }
    ensures { result ≡ quotient + raise unit quotient (2 * remainder + one_if sticky) }
{
    let twice = 2 * remainder + u64::from(sticky);
    if twice < unit {
        quotient
    } else if twice > unit {
        quotient + 1
    } else {
        quotient + quotient % 2
    }
}

fn signed_word(negative: bool, size: u64) -> i32
    requires { size < 2 ^ 31 }
    ensures { result ≡ signed negative size }
{
    if negative {
        -(size as i32)
    } else {
        size as i32
    }
}

impl Term {
    // The term as a figure: where rounding up has brought the size to β^p, it is β^(p-1) one power higher.
    fn renormalized(self, format: Format) -> Figure
        requires size { self.size ≤ format.top }
        requires exponent { unsigned_abs self.exponent ≤ 6000 }
        ensures { result ≡ carried format.radix format.precision self.negative self.size self.exponent }
    {
        if self.size < format.top {
            Figure {
                s: signed_word(self.negative, self.size),
                q: self.exponent,
            }
        } else {
            Figure {
                s: signed_word(self.negative, format.least),
                q: self.exponent + 1,
            }
        }
    }

    // The term with zeros appended up to p digits.
    fn extended(self, format: Format, by: u32) -> Figure
        requires size { self.size * format.radix ^ by < format.top }
        requires reach { CanLift self by }
        ensures { result ≡ extended_figure format.radix format.precision self by }
    {
        self.lifted(format.radix, by).renormalized(format)
    }
}

impl Truncated {
    // The term with its last digits dropped down to p digits.
    fn shortened(self, format: Format, by: u32) -> Figure
        requires unit { format.radix ^ by ≤ self.term.size }
        requires quotient { self.term.size / format.radix ^ by < format.top }
        requires few { by ≤ 64 }
        ensures { result ≡ shortened_figure format.radix format.precision self by }
    {
        let Truncated { term, sticky } = self;
        let unit = scaled(format.radix, 1, by);
        let (quotient, remainder) = format.split(term.size, by);
        let rounded = Term {
            negative: term.negative,
            size: evened(quotient, remainder, unit, sticky),
            exponent: term.exponent + by as i32,
        };
        rounded.renormalized(format)
    }

    // The figure of p digits nearest to what this stands for.
    #[tactic(auto, using(crate::proofs::Lengths::brought_to_precision))]
    pub(crate) fn nearest(self, format: Format) -> Figure
        ensures { result ≡ nearest_figure format.radix format.precision self }
    {
        if self.term.size == 0 {
            return Figure { s: 0, q: 0 };
        }
        let digits = format.digits(self.term.size);
        if digits <= format.precision {
            self.term.extended(format, format.precision - digits)
        } else {
            self.shortened(format, digits - format.precision)
        }
    }
}

// The exact sum of two terms, with what lies below the last digit of a word.
ghost use Rattle.std.specs.Prelude.{◌≡◌, ◌+◌, ◌*◌, ◌^◌, ◌<◌, ◌≤◌, ◌≤ℤ◌, unsigned_abs};
ghost use Rattle.integers.specs.Terms.{IsAddend};
ghost use Rattle.integers.specs.Rounding.{RoundsSum};
ghost use Rattle.integers.specs.Sums.{aligned_at, aligned_sum, joined_sum, rise};

use crate::terms::{Term, Truncated};
use kinds::format::Format;

impl Term {
    // The sum of the term and of a number of units of its size, where something lies below the units unless `below` is
    // 0. Against a larger size of the other sign, one unit is borrowed for it. (The bounds are of this step alone.)
    fn joined(self, other: bool, above: u64, below: u64) -> Truncated
        requires size { self.size + above < 2 ^ 62 }
        requires exponent { unsigned_abs self.exponent ≤ 5000 }
        ensures { result ≡ joined_sum self other above below }
    {
        let sticky = below != 0;
        let (negative, size) = if self.negative == other {
            (other, self.size + above)
        } else if above < self.size {
            (self.negative, self.size - above - u64::from(sticky))
        } else {
            (other, above - self.size)
        };
        let term = Term {
            negative,
            size,
            exponent: self.exponent,
        };
        Truncated { term, sticky }
    }

    // How far the term is brought up towards a power that lies `distance` digits lower: all the way, or to 2 p + 1
    // digits, which a word holds, and with which a sum with a number of 2 p digits still has more than p.
    fn room(self, format: Format, distance: u32) -> u32
        ensures is { result ≡ rise format.radix format.precision self.size distance }
        ensures few { result ≤ 49 }
        ensures within { result ≤ distance }
    {
        (2 * format.precision + 1)
            .saturating_sub(format.digits(self.size))
            .min(distance)
    }

    // The sum with a lower term, this one brought up by some of the digits between them, the lower split where that
    // ends. (Its bounds are those of this step alone.)
    fn aligned_at(self, format: Format, low: Term, distance: u32, by: u32) -> Truncated
        requires high { self.size * format.radix ^ by < 2 ^ 61 }
        requires low { low.size < 2 ^ 61 }
        requires exponent { unsigned_abs self.exponent ≤ 4000 }
        requires few { by ≤ 49 }
        requires within { by ≤ distance }
        ensures { result ≡ aligned_at format.radix self low distance by }
    {
        let (above, below) = format.split(low.size, distance - by);
        self.lifted(format.radix, by)
            .joined(low.negative, above, below)
    }

    // The sum with a term at a lower power.
    #[tactic(auto, using(crate::proofs::Rises::risen_below))]
    fn aligned(self, format: Format, low: Term) -> Truncated
        requires high { IsAddend format.top self }
        requires low { IsAddend format.top low }
        ensures { result ≡ aligned_sum format.radix format.precision self low }
    {
        if self.size == 0 {
            return low.exact(format);
        }
        let distance = self.exponent.abs_diff(low.exponent);
        self.aligned_at(format, low, distance, self.room(format, distance))
    }

    // The same, with what it is for: it rounds as the exact sum does, in whichever order that is written.
    #[tactic(auto, using(crate::proofs::Alignments::sums_round))]
    fn plus_lower(self, format: Format, low: Term) -> Truncated
        requires high { IsAddend format.top self }
        requires low { IsAddend format.top low }
        requires order { low.exponent ≤ℤ self.exponent }
        ensures is { RoundsSum format.radix format.precision self low result }
        ensures too { RoundsSum format.radix format.precision low self result }
    {
        self.aligned(format, low)
    }

    // The sum of two terms.
    pub(crate) fn plus(self, format: Format, other: Term) -> Truncated
        requires one { IsAddend format.top self }
        requires other { IsAddend format.top other }
        ensures { RoundsSum format.radix format.precision self other result }
    {
        let (high, low) = if self.exponent < other.exponent {
            (other, self)
        } else {
            (self, other)
        };
        high.plus_lower(format, low)
    }
}

// Powers of the radix in 64-bit words: the only code that knows them.
ghost use Rattle.std.specs.Prelude.{◌≡◌, ◌*◌, ◌/◌, ◌%◌, ◌^◌, ◌<◌, ◌≤◌};
ghost use Rattle.rounding.specs.Digits.{digits};
ghost use Rattle.kinds.specs.Kinds.{IsKind};

use crate::Kind;
use crate::format::Format;

// n × radix^k, as far as a word holds it.
pub fn scaled(radix: u64, n: u64, k: u32) -> u64
    ensures { result ≡ (n * radix ^ k) % 2 ^ 64 }
{
    if radix == 2 {
        if k < 64 { n << k } else { 0 }
    } else {
        n.wrapping_mul(radix.wrapping_pow(k))
    }
}

// The digits of n at radix 2: its logarithm tells them.
fn binary_digits(n: u64) -> u32
    requires { 0 < n }
    ensures is { result ≡ digits 2 n }
    ensures few { result ≤ 64 }
{
    n.ilog2() + 1
}

impl Format {
    fn with(radix: u64, precision: u32) -> Format
        requires { IsKind radix precision }
        ensures radix { result.radix ≡ radix }
        ensures precision { result.precision ≡ precision }
    {
        Format {
            radix,
            precision,
            least: scaled(radix, 1, precision - 1),
            top: scaled(radix, 1, precision),
        }
    }

    // The form of a kind's significands.
    pub fn of<K: Kind>() -> Format
        ensures radix { result.radix ≡ K.RADIX }
        ensures precision { result.precision ≡ K.PRECISION }
    {
        Format::with(K::RADIX as u64, K::PRECISION)
    }

    // n split at radix^k: the number of its digits above, and that of the digits below. From 2^64 on a power is past
    // every word, so none is formed that far.
    pub fn split(self, n: u64, k: u32) -> (u64, u64)
        ensures above { result.0 ≡ n / self.radix ^ k }
        ensures below { result.1 ≡ n % self.radix ^ k }
    {
        if k >= 64 {
            return (0, n);
        }
        if self.radix == 2 {
            let above = n >> k;
            return (above, n - (above << k));
        }
        match self.radix.checked_pow(k) {
            Some(unit) => (n / unit, n % unit),
            None => (0, n),
        }
    }

    // The digits of n, counted: a power climbs, from β^p on where n has passed that, until the next would pass n. (The
    // library's `ilog` divides once for each digit: with it a decimal determinant takes more than twice as long, and
    // longer than one of MPFR's.)
    fn counted(self, n: u64) -> u32
        ensures is { result ≡ digits self.radix n }
        ensures few { result ≤ 64 }
    {
        let last = n / self.radix;
        let mut power = 1;
        let mut count = 1;
        if self.top <= n {
            power = self.top;
            count = self.precision + 1;
        }
        while power <= last {
            power *= self.radix;
            count += 1;
        }
        count
    }

    // How many digits n has: one for 0. That they are few is handed on from both ways of counting them.
    pub fn digits(self, n: u64) -> u32
        ensures is { result ≡ digits self.radix n }
        ensures few { result ≤ 64 }
    {
        if self.radix == 2 && n != 0 {
            binary_digits(n)
        } else {
            self.counted(n)
        }
    }
}

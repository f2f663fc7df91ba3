// Figures of a kind: which they are, one, the opposite, and the arithmetic that works on them (`arithmetic`).
#![tactic(auto)]

ghost use Rattle.std.specs.Prelude.{◌≡◌, true, ◌≤◌, ◌<◌, unsigned_abs};
ghost use Rattle.rounding.specs.Operations.{is_figure};
ghost use Rattle.figures.specs.Figures.{one_figure, flipped};

use kinds::Kind;
use kinds::format::Format;
use rounding::Figure;

pub mod arithmetic;

// Whether f is zero, with s = 0 and q = 0, or has all digits of the kind and an exponent in -2000..2000.
pub fn is_figure(format: Format, f: Figure) -> bool
    ensures is { result ≡ is_figure format.radix format.precision f }
    ensures size { result ≡ true → unsigned_abs f.s < format.top }
    ensures exponent { result ≡ true → unsigned_abs f.q ≤ 2000 }
{
    let size = f.s.unsigned_abs() as u64;
    if size == 0 {
        f.q == 0
    } else {
        (format.least..format.top).contains(&size) && f.reaches(2000)
    }
}

// One: the least significand at the exponent that makes it 1.
pub fn one<K: Kind>() -> Figure
    ensures { result ≡ one_figure K.RADIX K.PRECISION }
{
    let format = Format::of::<K>();
    Figure {
        s: format.least as i32,
        q: 1 - format.precision as i32,
    }
}

// -s at the same exponent. A function and no operator: it is total, and a reader would take `-f` to fail or to wrap at
// the smallest word, which stays as it is.
pub fn opposite(f: Figure) -> Figure
    ensures { result ≡ flipped f }
{
    match f.s.checked_neg() {
        Some(s) => Figure { s, q: f.q },
        None => f,
    }
}

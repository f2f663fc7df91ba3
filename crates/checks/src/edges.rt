// The edges: the largest and the smallest figures, zero, every distance between exponents, and pairs of numbers that
// are no figures. Each test is a function over an arithmetic, so that both kinds are put to the same questions: there
// `least` and `top` are β^(p-1) and β^p, `half` is half of `top`, and half × β^(q-p) is half a last place of a figure
// at the exponent q.
ghost use Rattle.std.specs.Prelude.{◌≡◌, ◌-◌, ◌^◌, OnOk};

use crate::rows::{answers, refuses};
use figures::arithmetic::Arithmetic;
use integers::Integers;
use kinds::format::Format;
use kinds::{Binary, Decimal};
use rounding::Refusal::{NoFigure, ResultRange};
use rounding::figure;
use std::test::Fail;

// Passes only where the kind has these numbers, which the questions below are asked with.
fn numbers<A: Arithmetic>(radix: u64, precision: u32, least: u64, top: u64) -> Result<(), Fail>
    ensures radix { OnOk result (radix ≡ A.RADIX) }
    ensures precision { OnOk result (precision ≡ A.PRECISION) }
    ensures least { OnOk result (least ≡ A.RADIX ^ (A.PRECISION - 1)) }
    ensures top { OnOk result (top ≡ A.RADIX ^ A.PRECISION) }
{
    let format = Format::of::<A>();
    if format.radix != radix || format.precision != precision {
        return Err(Fail::new("another radix or precision"));
    }
    if format.least != least || format.top != top {
        return Err(Fail::new("another range of significands"));
    }
    Ok(())
}

#[test]
fn binary_numbers() -> Result<(), Fail> {
    numbers::<Integers<Binary>>(2, 24, 8388608, 16777216)
}

#[test]
fn decimal_numbers() -> Result<(), Fail> {
    numbers::<Integers<Decimal>>(10, 7, 1000000, 10000000)
}

// A power of the radix, and the odd figure next to it, at the exponent 2000, with half × β^(2000-d) added or taken
// away: for every d, up to the last at which the smaller one is still a product of two figures. Each sum is formed by
// every operation that can form it; past d = 4000 the smaller one is too far away to be a figure.
fn distances<A: Arithmetic>() -> Result<(), Fail> {
    let format = Format::of::<A>();
    let p = format.precision;
    let least = format.least as i32;
    let half = (format.top / 2) as i32;
    // half × β^(1-d), without its fraction: what is taken away from the power counts in units of β^1999
    let mut finer = format.top / 2;
    for d in 1..6002 - p {
        let coarser = finer / format.radix;
        let more = figure!((format.least + coarser) as i32, 2000);
        // half a last place is added at d = p: the even significand stays, and the odd one goes up to the next
        let odd_more = if d == p {
            figure!(least + 2, 2000)
        } else {
            figure!((format.least + 1 + coarser) as i32, 2000)
        };
        // below the power the last place is that of β^1999
        let less = if finer > 0 {
            figure!((format.top - finer) as i32, 1999)
        } else {
            figure!(least, 2000)
        };
        let e = d + p - 1;
        let near = figure!(least, 1000 - (e / 2) as i32);
        let far = 1000 - (e - e / 2) as i32;
        let q = 2000 - d as i32;
        for (big, half, want) in [
            (least, half, more),
            (least + 1, half, odd_more),
            (least, -half, less),
        ] {
            let big = figure!(big, 2000);
            answers(A::fused(near, figure!(half, far), big), want)?;
            if d <= 4000 {
                let small = figure!(half, q);
                answers(A::add(big, small), want)?;
                answers(A::add(small, big), want)?;
                answers(
                    A::fused(figure!(least, 1000), figure!(big.s, 1001 - p as i32), small),
                    want,
                )?;
            }
        }
        finer = coarser;
    }
    Ok(())
}

#[test]
fn binary_distances() -> Result<(), Fail> {
    distances::<Integers<Binary>>()
}

#[test]
fn decimal_distances() -> Result<(), Fail> {
    distances::<Integers<Decimal>>()
}

// Results at the exponents -2000 and 2000 are answered, and those one beyond are refused; so is what is too small,
// however small it is.
fn range<A: Arithmetic>() -> Result<(), Fail> {
    let format = Format::of::<A>();
    let p = format.precision as i32;
    let least = format.least as i32;
    let top = format.top as i32;
    let half = (format.top / 2) as i32;
    let zero = figure!(0, 0);
    let one = figure!(least, 1 - p);
    let largest = figure!(top - 1, 2000);
    let smallest = figure!(least, -2000);
    for (x, y, want) in [
        (largest, one, largest),
        (one, smallest, smallest),
        (
            figure!(-least, 1500),
            figure!(least, 501 - p),
            figure!(-least, 2000),
        ),
        (figure!(least, -1500), figure!(least, -499 - p), smallest),
    ] {
        answers(A::multiply(x, y), want)?;
    }
    for (x, y) in [
        (figure!(-least, 1500), figure!(least, 502 - p)),
        (figure!(least, -1500), figure!(least, -500 - p)),
        (largest, largest),
        (smallest, smallest),
    ] {
        refuses(A::multiply(x, y), ResultRange)?;
        refuses(A::fused(x, y, zero), ResultRange)?;
    }
    for (x, y) in [
        (largest, largest),
        // a carry by a tie
        (largest, figure!(half, 2000 - p)),
        // the last place of the smallest figures is below the range
        (figure!(least + 1, -2000), figure!(-least, -2000)),
    ] {
        refuses(A::add(x, y), ResultRange)?;
        refuses(A::fused(x, one, y), ResultRange)?;
    }
    // no carry below the tie
    answers(A::add(largest, figure!(top - 1, 1999 - p)), largest)?;
    // only the answer's exponent counts, and not that of the product
    let last_place = figure!(least, 2001 - p);
    answers(
        A::fused(
            figure!(least, 2000),
            figure!(least, 2 - p),
            figure!(1 - top, 2000),
        ),
        last_place,
    )?;
    answers(A::fused(smallest, smallest, smallest), smallest)
}

#[test]
fn binary_range() -> Result<(), Fail> {
    range::<Integers<Binary>>()
}

#[test]
fn decimal_range() -> Result<(), Fail> {
    range::<Integers<Decimal>>()
}

// Zero in each place, and sums in which everything is cancelled.
fn zeros<A: Arithmetic>() -> Result<(), Fail> {
    let format = Format::of::<A>();
    let p = format.precision as i32;
    let least = format.least as i32;
    let top = format.top as i32;
    let zero = figure!(0, 0);
    let largest = figure!(top - 1, 2000);
    let smallest = figure!(-least, -2000);
    for x in [zero, largest, smallest] {
        answers(A::multiply(zero, x), zero)?;
        answers(A::multiply(x, zero), zero)?;
        answers(A::add(zero, x), x)?;
        answers(A::add(x, zero), x)?;
        answers(A::fused(zero, x, x), x)?;
        answers(A::fused(x, zero, x), x)?;
        answers(A::fused(x, figure!(least, 1 - p), zero), x)?;
    }
    answers(A::add(largest, figure!(1 - top, 2000)), zero)?;
    answers(A::add(smallest, figure!(least, -2000)), zero)?;
    answers(A::fused(largest, figure!(-least, 1 - p), largest), zero)?;
    answers(
        A::fused(smallest, figure!(least, 1 - p), figure!(least, -2000)),
        zero,
    )
}

#[test]
fn binary_zeros() -> Result<(), Fail> {
    zeros::<Integers<Binary>>()
}

#[test]
fn decimal_zeros() -> Result<(), Fail> {
    zeros::<Integers<Decimal>>()
}

// What is no figure is refused in every place, beside zero, and beside figures whose result is out of range.
fn no_figures<A: Arithmetic>() -> Result<(), Fail> {
    let format = Format::of::<A>();
    let least = format.least as i32;
    let top = format.top as i32;
    let zero = figure!(0, 0);
    let largest = figure!(top - 1, 2000);
    let others = [
        figure!(0, 1),
        figure!(0, -1),
        figure!(0, i32::MIN),
        figure!(1, 0),
        figure!(least - 1, 0),
        figure!(1 - least, 0),
        figure!(top, 0),
        figure!(-top, 0),
        figure!(i32::MIN, 0),
        figure!(i32::MAX, 0),
        figure!(least, 2001),
        figure!(least, -2001),
        figure!(least, i32::MIN),
        figure!(least, i32::MAX),
        figure!(i32::MIN, i32::MIN),
    ];
    refuses(A::multiply(largest, largest), ResultRange)?;
    for f in others {
        for x in [zero, largest, f] {
            refuses(A::multiply(f, x), NoFigure)?;
            refuses(A::multiply(x, f), NoFigure)?;
            refuses(A::add(f, x), NoFigure)?;
            refuses(A::add(x, f), NoFigure)?;
            refuses(A::fused(f, x, x), NoFigure)?;
            refuses(A::fused(x, f, x), NoFigure)?;
            refuses(A::fused(x, x, f), NoFigure)?;
        }
    }
    Ok(())
}

#[test]
fn binary_no_figures() -> Result<(), Fail> {
    no_figures::<Integers<Binary>>()
}

#[test]
fn decimal_no_figures() -> Result<(), Fail> {
    no_figures::<Integers<Decimal>>()
}

// Lanes at the edges of what they hold: the largest and the smallest exponents, and a full lane.
use crate::tables::row_stands;
use checked_calls::calls::{BINARY, DECIMAL, SYMMETRIC};
use console::{Console, Reading};
use histories::Call::{Read, Turn};
use kinds::format::Format;
use methods::method::Method;
use rounding::Refusal::PhasorRange;
use rounding::figure;
use runs::Answer::{Count, Shown};
use std::test::Fail;

// A lane is turned by the radix until its exponent is 200, and another by the radix's inverse until it is -200; once
// more and it would stray, whichever part holds it.
fn driven<M: Method>(console: &mut Console<M>) -> Result<(), Fail> {
    let format = Format::of::<M::Arith>();
    let digits = format.precision;
    let p = digits as i32;
    let least = format.least as i32;
    let radix = figure!(least, 2 - p);
    let inverse = figure!(least, -p);
    let one = figure!(least, 1 - p);
    let zero = figure!(0, 0);
    let top = 199 + digits;
    for n in 1..=top {
        row_stands(console, Turn(8, radix, zero), Ok(Count(n)))?;
    }
    row_stands(console, Turn(8, radix, zero), Err(PhasorRange))?;
    row_stands(console, Turn(8, zero, radix), Err(PhasorRange))?;
    let shown = Reading {
        count: top,
        real: figure!(least, 200),
        imaginary: zero,
    };
    row_stands(console, Read(8), Ok(Shown(shown)))?;
    row_stands(console, Turn(8, zero, one), Ok(Count(top + 1)))?;
    row_stands(console, Turn(8, radix, zero), Err(PhasorRange))?;
    row_stands(console, Turn(8, inverse, zero), Ok(Count(top + 2)))?;
    let shown = Reading {
        count: top + 2,
        real: zero,
        imaginary: figure!(least, 199),
    };
    row_stands(console, Read(8), Ok(Shown(shown)))?;
    for n in 1..=201 - digits {
        row_stands(console, Turn(1, zero, inverse), Ok(Count(n)))?;
    }
    row_stands(console, Turn(1, inverse, zero), Err(PhasorRange))?;
    row_stands(console, Turn(1, zero, inverse), Err(PhasorRange))?;
    row_stands(console, Turn(1, one, zero), Ok(Count(202 - digits)))
}

#[test]
fn binary_kahan_driven() -> Result<(), Fail> {
    driven(&mut Console::new(BINARY))
}

#[test]
fn binary_symmetric_driven() -> Result<(), Fail> {
    driven(&mut Console::new(SYMMETRIC))
}

#[test]
fn decimal_kahan_driven() -> Result<(), Fail> {
    driven(&mut Console::new(DECIMAL))
}

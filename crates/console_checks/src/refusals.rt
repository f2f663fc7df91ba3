// What a refused call leaves: a console that was asked and one that was not, otherwise used alike, still show the same.
ghost use Rattle.std.specs.Prelude.{◌≡◌, ℕ, ◌<◌, OnOk};
ghost use Rattle.lanes.specs.Lanes.{at};
ghost use Rattle.console.specs.Readings.{reading_of};

use crate::tables::row_stands;
use checked_calls::calls::{BINARY, DECIMAL, SYMMETRIC};
use console::{Console, Reading};
use histories::Call::{Determinant, Product, Read, Restart, Sum, Turn};
use kinds::format::Format;
use methods::method::Method;
use rounding::Refusal::{LaneFull, NoLane, OperandNoFigure, OperandRange, PhasorRange};
use rounding::figure;
use runs::Answer::Count;
use std::test::Fail;

// Passes only where the two readings are the same.
fn same_reading(one: Reading, other: Reading) -> Result<(), Fail>
    ensures { OnOk result (one ≡ other) }
{
    if one == other {
        Ok(())
    } else {
        Err(Fail::new(format_args!("{one:?} beside {other:?}")))
    }
}

// Passes only where the lane of this number shows the same on both consoles.
fn same_lane<M: Method>(one: &Console<M>, other: &Console<M>, lane: u8) -> Result<(), Fail>
    ensures { OnOk result (reading_of (at one.now.lanes lane)
        ≡ reading_of (at other.now.lanes lane)) }
{
    same_reading(one.read(lane)?, other.read(lane)?)
}

// Passes only where every lane of the two consoles shows the same.
fn same_lanes<M: Method>(one: &Console<M>, other: &Console<M>) -> Result<(), Fail>
    ensures { OnOk result (((i : ℕ) → i < 10 → reading_of (at one.now.lanes i)
        ≡ reading_of (at other.now.lanes i))) }
{
    for lane in 0..10 {
        same_lane(one, other, lane)?;
    }
    Ok(())
}

// Lane 0 at the largest exponent, lane 3 with two turns, lane 6 full and at the largest exponent too, lane 9 at the
// smallest exponent, the others fresh.
fn wear<M: Method>(console: &mut Console<M>) -> Result<(), Fail> {
    let format = Format::of::<M::Arith>();
    let p = format.precision as i32;
    let least = format.least as i32;
    let one = figure!(least, 1 - p);
    let half = figure!(least, -p);
    let zero = figure!(0, 0);
    row_stands(console, Turn(0, figure!(least, 200), zero), Ok(Count(1)))?;
    row_stands(console, Turn(3, half, one), Ok(Count(1)))?;
    row_stands(console, Turn(3, one, half), Ok(Count(2)))?;
    row_stands(console, Turn(9, zero, figure!(least, -200)), Ok(Count(1)))?;
    row_stands(console, Turn(6, figure!(least, 200), zero), Ok(Count(1)))?;
    for n in 2..=1_000_000 {
        row_stands(console, Turn(6, one, zero), Ok(Count(n)))?;
    }
    Ok(())
}

// Every refusal of every call, the earlier one where two apply, on two new consoles of one method, of which only the
// first is asked.
fn refusals<M: Method>(console: &mut Console<M>, twin: &mut Console<M>) -> Result<(), Fail> {
    wear(console)?;
    wear(twin)?;
    let format = Format::of::<M::Arith>();
    let p = format.precision as i32;
    let least = format.least as i32;
    let one = figure!(least, 1 - p);
    let zero = figure!(0, 0);
    let none = figure!(1, 0);
    let far = figure!(least, 201);
    let last = figure!(least, 200);
    let low = figure!(least, -200);
    for (call, refusal) in [
        (Turn(10, none, far), NoLane),
        (Turn(255, one, zero), NoLane),
        (Restart(10), NoLane),
        (Restart(255), NoLane),
        (Read(10), NoLane),
        (Read(255), NoLane),
        (Turn(3, none, far), OperandNoFigure),
        (Turn(3, far, none), OperandRange),
        (Turn(3, one, none), OperandNoFigure),
        (Turn(3, one, far), OperandRange),
        (Turn(6, none, zero), OperandNoFigure),
        (Turn(6, one, far), OperandRange),
        (Turn(6, one, zero), LaneFull),
        (Turn(6, last, zero), LaneFull),
        (Turn(0, last, zero), PhasorRange),
        (Turn(0, zero, last), PhasorRange),
        (Turn(0, far, zero), OperandRange),
        (Turn(9, low, zero), PhasorRange),
        (Turn(9, zero, low), PhasorRange),
        (Sum(one, none, far, zero), OperandNoFigure),
        (Sum(one, far, none, zero), OperandRange),
        (Determinant(one, one, one, none), OperandNoFigure),
        (Determinant(one, far, one, none), OperandRange),
        (Product(zero, zero, none, far), OperandNoFigure),
        (Product(zero, zero, far, none), OperandRange),
    ] {
        row_stands(console, call, Err(refusal))?;
        same_lanes(console, twin)?;
    }
    row_stands(console, Restart(6), Ok(Count(0)))?;
    row_stands(console, Turn(6, one, zero), Ok(Count(1)))
}

#[test]
fn binary_kahan_refusals() -> Result<(), Fail> {
    let mut console = Console::new(BINARY);
    let mut twin = Console::new(BINARY);
    refusals(&mut console, &mut twin)
}

#[test]
fn binary_symmetric_refusals() -> Result<(), Fail> {
    let mut console = Console::new(SYMMETRIC);
    let mut twin = Console::new(SYMMETRIC);
    refusals(&mut console, &mut twin)
}

#[test]
fn decimal_kahan_refusals() -> Result<(), Fail> {
    let mut console = Console::new(DECIMAL);
    let mut twin = Console::new(DECIMAL);
    refusals(&mut console, &mut twin)
}

// Thirteen calls with known answers, made by the library (`calls` has how a call is made).
#![tactic(auto)]

ghost use Rattle.std.specs.Prelude.{◌≡◌, ℕ, Result};
ghost use Rattle.rounding.specs.Nearest.{RoundsToNearest};
ghost use Rattle.rounding.specs.declared.Figure.{Figure};
ghost use Rattle.checked_calls.specs.Calls.{answer_of};
ghost use Rattle.checked_calls.specs.Examples.{example, examples, ExamplesHold, Shows, Show};

use calls::{Answered, Arrangement, Call, answer_of};
use rounding::figure;

pub mod calls;

// The definitions give each of the thirteen answers. (A theorem is called in a body, so that an edit can leave it out.)
fn definitions_give()
    ensures { ExamplesHold }
{}

// The figure that the definitions round to is the nearest one, ties to even, and the only one that is.
fn rounding_is_nearest()
    ensures { RoundsToNearest }
{}

// A call, made: it shows every example of this call.
fn made(by: Arrangement, call: Call) -> Answered
    ensures { (says : Result Figure ℕ) → answer_of by call ≡ says → Shows result (example by call says) }
{
    Answered {
        by,
        call,
        answer: answer_of(by, call),
    }
}

// The calls of the examples, made.
fn all_made() -> [Answered; 13]
    ensures { ExamplesHold → Show result examples }
{
    [
        made(
            Arrangement::Binary,
            Call::Multiply(figure!(12582912, -23), figure!(8388609, -23)),
        ),
        made(
            Arrangement::Binary,
            Call::Multiply(figure!(12582912, -23), figure!(8388611, -23)),
        ),
        made(
            Arrangement::Decimal,
            Call::Multiply(figure!(1500000, -6), figure!(1000001, -6)),
        ),
        made(
            Arrangement::Binary,
            Call::Add(figure!(16777215, 0), figure!(8388608, -24)),
        ),
        made(
            Arrangement::Binary,
            Call::Add(figure!(16777215, 0), figure!(16777215, -25)),
        ),
        made(
            Arrangement::Binary,
            Call::Add(figure!(8388608, 0), figure!(-8388608, -25)),
        ),
        made(
            Arrangement::Binary,
            Call::Fused(
                figure!(8388609, -23),
                figure!(8388609, -23),
                figure!(-8388610, -23),
            ),
        ),
        made(
            Arrangement::Binary,
            Call::Multiply(figure!(8388608, 1000), figure!(8388608, 977)),
        ),
        made(
            Arrangement::Binary,
            Call::Multiply(figure!(8388608, 1000), figure!(8388608, 978)),
        ),
        made(
            Arrangement::Binary,
            Call::Determinant(
                figure!(8388609, -23),
                figure!(8388608, -23),
                figure!(8388610, -23),
                figure!(8388609, -23),
            ),
        ),
        made(
            Arrangement::Decimal,
            Call::Determinant(
                figure!(1000001, -6),
                figure!(1000000, -6),
                figure!(1000002, -6),
                figure!(1000001, -6),
            ),
        ),
        made(
            Arrangement::Symmetric,
            Call::Sum(
                figure!(16777215, 0),
                figure!(8388610, -2),
                figure!(16777215, 0),
                figure!(8388609, -2),
            ),
        ),
        made(
            Arrangement::Binary,
            Call::Sum(
                figure!(16777215, 0),
                figure!(8388610, -2),
                figure!(16777215, 0),
                figure!(8388609, -2),
            ),
        ),
    ]
}

// The thirteen calls with the answers that the library gives: those of the examples, which follow from the
// definitions; and that the rounding which these rest on means what it says.
pub fn checked_calls() -> [Answered; 13]
    ensures meaning { RoundsToNearest }
    ensures definitions { ExamplesHold }
    ensures answers { Show result examples }
{
    rounding_is_nearest();
    definitions_give();
    all_made()
}

// What several users ask of one console, call by call.
ghost use Rattle.std.specs.Prelude.{Some};
ghost use Rattle.console_demo.specs.Scripts.{user_text};

use histories::Call;
use rounding::{Figure, figure};
use std::fmt;

// Who asks: the touch filter, which turns the phasors; the results desk, which computes; the referee, who reads.
#[derive(Clone, Copy)]
pub enum User {
    Filter,
    Desk,
    Referee,
}

impl fmt::Display for User {
    ghost output = { λ user. Some (user_text user) };

    fn fmt<W: fmt::Write>(&self, f: &mut fmt::Formatter<W>) -> fmt::Result {
        f.write_str(match self {
            User::Filter => "filter",
            User::Desk => "desk",
            User::Referee => "referee",
        })
    }
}

// A call, and who makes it.
#[derive(Clone, Copy)]
pub struct Said {
    pub user: User,
    pub call: Call,
}

const ZERO: Figure = figure!(0, 0);

// Binary figures: one, and the next two above it.
const ONE: Figure = figure!(8388608, -23);

const ABOVE: Figure = figure!(8388609, -23);

const NEXT: Figure = figure!(8388610, -23);

const BELOW_MINUS_ONE: Figure = figure!(-8388610, -23);

// The largest power of two that a method accepts, one that it does not, and a pair that is no figure.
const LAST: Figure = figure!(8388608, 200);

const BEYOND: Figure = figure!(8388608, 201);

const NONE: Figure = figure!(1, 0);

// 16777215/4 times 16777219, a tie that the methods take to either side. (The other program shows this sum and the next
// too, as calls of another type.)
const DIFFERING: Call = Call::Sum(
    figure!(16777215, 0),
    figure!(8388610, -2),
    figure!(16777215, 0),
    figure!(8388609, -2),
);

// -35184371040256, of which Kahan's answer is exactly 3/2 units of the last place off, the most that it can be.
const WORST: Call = Call::Sum(
    figure!(8390656, 0),
    figure!(8391680, 0),
    figure!(-11010048, 0),
    figure!(9590882, 0),
);

// A determinant, a sum and the real part of a product that cancel in every leading digit.
const DETERMINANT: Call = Call::Determinant(ABOVE, ONE, NEXT, ABOVE);

const SUM: Call = Call::Sum(ABOVE, ABOVE, BELOW_MINUS_ONE, ONE);

const PRODUCT: Call = Call::Product(ABOVE, ONE, ABOVE, NEXT);

pub const BINARY: [Said; 16] = [
    Said {
        user: User::Filter,
        call: Call::Turn(3, ZERO, ONE),
    },
    Said {
        user: User::Desk,
        call: DETERMINANT,
    },
    Said {
        user: User::Filter,
        call: Call::Turn(3, ABOVE, NEXT),
    },
    Said {
        user: User::Referee,
        call: Call::Read(3),
    },
    Said {
        user: User::Desk,
        call: DIFFERING,
    },
    Said {
        user: User::Filter,
        call: Call::Turn(3, NONE, BEYOND),
    },
    Said {
        user: User::Filter,
        call: Call::Turn(3, ONE, BEYOND),
    },
    Said {
        user: User::Referee,
        call: Call::Read(10),
    },
    Said {
        user: User::Filter,
        call: Call::Turn(0, LAST, ZERO),
    },
    Said {
        user: User::Filter,
        call: Call::Turn(0, LAST, ZERO),
    },
    Said {
        user: User::Referee,
        call: Call::Read(0),
    },
    Said {
        user: User::Desk,
        call: SUM,
    },
    Said {
        user: User::Desk,
        call: WORST,
    },
    Said {
        user: User::Desk,
        call: PRODUCT,
    },
    Said {
        user: User::Referee,
        call: Call::Restart(3),
    },
    Said {
        user: User::Referee,
        call: Call::Read(3),
    },
];

// Decimal figures: one, and the next two above it; parts of a number of length one; eight digits, which are no figure.
const DECIMAL_ONE: Figure = figure!(1000000, -6);

const DECIMAL_ABOVE: Figure = figure!(1000001, -6);

const DECIMAL_NEXT: Figure = figure!(1000002, -6);

const SIX_TENTHS: Figure = figure!(6000000, -7);

const EIGHT_TENTHS: Figure = figure!(8000000, -7);

const EIGHT_DIGITS: Figure = figure!(12345678, 0);

pub const DECIMAL: [Said; 10] = [
    Said {
        user: User::Filter,
        call: Call::Turn(7, SIX_TENTHS, EIGHT_TENTHS),
    },
    Said {
        user: User::Filter,
        call: Call::Turn(7, SIX_TENTHS, EIGHT_TENTHS),
    },
    Said {
        user: User::Desk,
        call: Call::Determinant(DECIMAL_ABOVE, DECIMAL_ONE, DECIMAL_NEXT, DECIMAL_ABOVE),
    },
    Said {
        user: User::Filter,
        call: Call::Turn(7, SIX_TENTHS, EIGHT_TENTHS),
    },
    Said {
        user: User::Referee,
        call: Call::Read(7),
    },
    Said {
        user: User::Desk,
        call: Call::Product(DECIMAL_ABOVE, DECIMAL_ONE, DECIMAL_ABOVE, DECIMAL_NEXT),
    },
    Said {
        user: User::Referee,
        call: Call::Restart(12),
    },
    Said {
        user: User::Desk,
        call: Call::Sum(DECIMAL_ONE, EIGHT_DIGITS, ZERO, ZERO),
    },
    Said {
        user: User::Referee,
        call: Call::Restart(7),
    },
    Said {
        user: User::Referee,
        call: Call::Read(7),
    },
];

pub const SYMMETRIC: [Said; 10] = [
    Said {
        user: User::Desk,
        call: DIFFERING,
    },
    Said {
        user: User::Desk,
        call: WORST,
    },
    Said {
        user: User::Filter,
        call: Call::Turn(9, ABOVE, NEXT),
    },
    Said {
        user: User::Desk,
        call: DETERMINANT,
    },
    Said {
        user: User::Filter,
        call: Call::Turn(9, ABOVE, NEXT),
    },
    Said {
        user: User::Referee,
        call: Call::Read(9),
    },
    Said {
        user: User::Desk,
        call: PRODUCT,
    },
    Said {
        user: User::Filter,
        call: Call::Turn(9, BEYOND, NONE),
    },
    Said {
        user: User::Referee,
        call: Call::Restart(9),
    },
    Said {
        user: User::Referee,
        call: Call::Read(9),
    },
];

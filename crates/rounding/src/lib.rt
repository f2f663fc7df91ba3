// Figures, what they are worth, and what it means to round. The meanings stand in specs/: exact numbers (Exact), the
// digits of a number (Digits), the rounded figure (Rounding), what "nearest" says (Nearest), refusals (Refusals) and
// what each operation answers (Operations).
#![tactic(auto)]

ghost use Rattle.std.specs.Prelude.{◌≡◌, Some, decimal};
ghost use Rattle.rounding.specs.Refusals.{number};

use std::error::Error;
use std::fmt;

// A significand and an exponent: s × β^q, where β is the radix of the figure's kind.
#[derive(Clone, Copy, Debug, PartialEq, Eq)]
pub struct Figure {
    pub s: i32,
    pub q: i32,
}

// The figure of a significand and an exponent, also where a constant's value may call no function.
#[macro_export]
macro_rules! figure {
    ($s:expr, $q:expr) => {
        $crate::Figure { s: $s, q: $q }
    };
}

impl Figure {
    ghost use Rattle.rounding.specs.Operations.{reaches};

    // Whether the exponent lies in -limit..limit.
    pub fn reaches(self, limit: u32) -> bool
        ensures { result ≡ reaches limit self }
    {
        self.q.unsigned_abs() <= limit
    }
}

// Why a call, a row or a line is stopped, with the number by which tables and reports show it.
#[derive(Clone, Copy, Debug, PartialEq, Eq)]
pub enum Refusal {
    // an operand of an operation is no figure of the kind
    NoFigure = 11,
    // the rounded result's exponent is outside -2000..2000
    ResultRange = 12,
    // an operand of a method is no figure of the kind
    OperandNoFigure = 21,
    // the exponent of a method's operand is outside -200..200
    OperandRange = 22,
    // the lane of a console's call is not 0 to 9
    NoLane = 31,
    // the lane has been turned 1,000,000 times
    LaneFull = 32,
    // a turn would bring a part of the phasor outside the exponents -200..200
    PhasorRange = 33,
    // a line has more than 80 bytes
    LineTooLong = 41,
    // the number of words does not fit the verb
    WordCount = 42,
    // the verb of a line, or the code of a row, is unknown
    UnknownVerb = 43,
    // a word is no number, or no lane
    NoNumber = 44,
    // a number has the other kind's mark
    OtherMark = 45,
}

impl From<Refusal> for u8 {
    ghost from_gives = { λ refusal n. n ≡ number refusal };

    fn from(refusal: Refusal) -> u8 {
        refusal as u8
    }
}

// The number alone.
impl fmt::Display for Refusal {
    ghost output = { λ refusal. Some (decimal (number refusal)) };

    fn fmt<W: fmt::Write>(&self, f: &mut fmt::Formatter<W>) -> fmt::Result {
        write!(f, "{}", u8::from(*self))
    }
}

impl Error for Refusal {}

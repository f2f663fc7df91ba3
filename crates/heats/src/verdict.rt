// Who touched first.
ghost use Rattle.std.specs.Prelude.{◌≡◌, Some};
ghost use Rattle.heats.specs.Verdicts.{verdict_of, verdict_text};

use rounding::Figure;
use std::cmp::Ordering;
use std::fmt;

// Whose time is less, or that they are the same.
#[derive(Clone, Copy, Debug, PartialEq, Eq)]
pub enum Verdict {
    FirstLane,
    DeadHeat,
    SecondLane,
}

// By the difference of the first lane's time and the second's.
impl From<Figure> for Verdict {
    ghost from_gives = { λ difference verdict. verdict ≡ verdict_of difference.s };

    fn from(difference: Figure) -> Verdict {
        match difference.s.cmp(&0) {
            Ordering::Less => Verdict::FirstLane,
            Ordering::Equal => Verdict::DeadHeat,
            Ordering::Greater => Verdict::SecondLane,
        }
    }
}

impl fmt::Display for Verdict {
    ghost output = { λ verdict. Some (verdict_text verdict) };

    fn fmt<W: fmt::Write>(&self, f: &mut fmt::Formatter<W>) -> fmt::Result {
        f.write_str(match self {
            Verdict::FirstLane => "below zero: the first lane touched first",
            Verdict::DeadHeat => "zero: a dead heat",
            Verdict::SecondLane => "above zero: the second lane touched first",
        })
    }
}

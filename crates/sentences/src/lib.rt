// What a program says of calls: types that print themselves, with the bytes that they print. Here are figures, names
// of arrangements, refusals and outcomes; `operations` has calls made with no console, `consoles` those made of one.
#![tactic(auto)]

ghost use Rattle.std.specs.Prelude.{◌≡◌, Some};
ghost use Rattle.spelling.specs.Spelled.{text_of};
ghost use Rattle.rounding.specs.Refusals.{number};
ghost use Rattle.sentences.specs.Figures.{figure_text, pair_text, four_text, refusal_text, printed_outcome};

use checked_calls::calls::Arrangement;
pub use checked_calls::calls::name_of;
use kinds::{Binary, Decimal};
use rounding::{Figure, Refusal};
use spelling::spell;
use spelling::text::Spelling;
use std::fmt;

pub mod consoles;
pub mod operations;

// The text of a figure of the arrangement's kind. Each arm runs generic code over another kind.
fn spell_in(by: Arrangement, f: Figure) -> Spelling
    ensures { text_of result ≡ figure_text by f }
{
    match by {
        Arrangement::Binary => spell::<Binary>(f),
        Arrangement::Decimal => spell::<Decimal>(f),
        Arrangement::Symmetric => spell::<Binary>(f),
    }
}

// A figure of the arrangement's kind.
#[derive(Clone, Copy)]
pub struct Shown {
    pub by: Arrangement,
    pub figure: Figure,
}

impl fmt::Display for Shown {
    ghost output = { λ x. Some (figure_text x.by x.figure) };

    fn fmt<W: fmt::Write>(&self, f: &mut fmt::Formatter<W>) -> fmt::Result {
        write!(f, "{}", spell_in(self.by, self.figure))
    }
}

// Two of them, spaced singly.
#[derive(Clone, Copy)]
pub struct Pair {
    pub by: Arrangement,
    pub a: Figure,
    pub b: Figure,
}

impl fmt::Display for Pair {
    ghost output = { λ x. Some (pair_text x.by x.a x.b) };

    fn fmt<W: fmt::Write>(&self, f: &mut fmt::Formatter<W>) -> fmt::Result {
        let by = self.by;
        let a = Shown { by, figure: self.a };
        let b = Shown { by, figure: self.b };
        write!(f, "{a} {b}")
    }
}

// Four of them: two pairs, so that the text needs no loop over an array.
#[derive(Clone, Copy)]
pub struct Four {
    pub by: Arrangement,
    pub a: Figure,
    pub b: Figure,
    pub c: Figure,
    pub d: Figure,
}

impl fmt::Display for Four {
    ghost output = { λ x. Some (four_text x.by x.a x.b x.c x.d) };

    fn fmt<W: fmt::Write>(&self, f: &mut fmt::Formatter<W>) -> fmt::Result {
        let by = self.by;
        let left = Pair {
            by,
            a: self.a,
            b: self.b,
        };
        let right = Pair {
            by,
            a: self.c,
            b: self.d,
        };
        write!(f, "{left} {right}")
    }
}

// A refusal, by its number.
#[derive(Clone, Copy)]
pub struct Refused {
    pub refusal: Refusal,
}

impl fmt::Display for Refused {
    ghost output = { λ x. Some (refusal_text (number x.refusal)) };

    fn fmt<W: fmt::Write>(&self, f: &mut fmt::Formatter<W>) -> fmt::Result {
        write!(f, "refused with {}", self.refusal)
    }
}

// What a call answered: a value, or a refusal.
#[derive(Clone, Copy)]
struct Outcome<T> {
    answer: Result<T, Refusal>,
}

impl<T: fmt::Display> fmt::Display for Outcome<T> {
    ghost output = { λ x. printed_outcome T.output x.answer };

    fn fmt<W: fmt::Write>(&self, f: &mut fmt::Formatter<W>) -> fmt::Result {
        match &self.answer {
            Ok(value) => write!(f, "{value}"),
            Err(refusal) => write!(f, "{}", Refused { refusal: *refusal }),
        }
    }
}

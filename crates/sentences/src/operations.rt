// Calls that are made with no console.
ghost use Rattle.std.specs.Prelude.{Some};
ghost use Rattle.rounding.specs.Refusals.{coded};
ghost use Rattle.sentences.specs.Operations.{call_text, sentence_text, product_text};

use crate::{Four, Outcome, Pair, Shown};
use checked_calls::calls::{Answered, Arrangement, Call};
use rounding::{Figure, Refusal};
use std::fmt;

// A call with its operands: a value, since calls are stored and shown.
#[derive(Clone, Copy)]
struct Operands {
    by: Arrangement,
    call: Call,
}

impl fmt::Display for Operands {
    ghost output = { λ x. Some (call_text x.by x.call) };

    fn fmt<W: fmt::Write>(&self, f: &mut fmt::Formatter<W>) -> fmt::Result {
        let by = self.by;
        match self.call {
            Call::Multiply(x, y) => {
                let x = Shown { by, figure: x };
                let y = Shown { by, figure: y };
                write!(f, "multiply {x} by {y}")
            }
            Call::Add(x, y) => {
                let x = Shown { by, figure: x };
                let y = Shown { by, figure: y };
                write!(f, "add {x} and {y}")
            }
            Call::Fused(x, y, z) => {
                let x = Shown { by, figure: x };
                let y = Shown { by, figure: y };
                let z = Shown { by, figure: z };
                write!(f, "fused {x} by {y} and {z}")
            }
            Call::Sum(a, b, c, d) => {
                let four = Four { by, a, b, c, d };
                write!(f, "sum {four}")
            }
            Call::Determinant(a, b, c, d) => {
                let four = Four { by, a, b, c, d };
                write!(f, "det {four}")
            }
        }
    }
}

// A call and what it answered.
#[derive(Clone, Copy)]
pub struct Sentence {
    pub made: Answered,
}

impl fmt::Display for Sentence {
    ghost output = { λ x. Some (sentence_text x.made.by x.made.call (coded x.made.answer)) };

    fn fmt<W: fmt::Write>(&self, f: &mut fmt::Formatter<W>) -> fmt::Result {
        let Answered { by, call, answer } = self.made;
        let call = Operands { by, call };
        let answer = answer.map(|figure| Shown { by, figure });
        let outcome = Outcome { answer };
        write!(f, "{call}: {outcome}")
    }
}

// A complex product and the real and the imaginary part that it answered.
#[derive(Clone, Copy)]
pub struct ProductSentence {
    pub four: Four,
    pub answer: Result<(Figure, Figure), Refusal>,
}

impl fmt::Display for ProductSentence {
    ghost output = { λ x. Some (product_text x.four (coded x.answer)) };

    fn fmt<W: fmt::Write>(&self, f: &mut fmt::Formatter<W>) -> fmt::Result {
        let four = self.four;
        let by = four.by;
        let answer = self.answer.map(|(a, b)| Pair { by, a, b });
        let outcome = Outcome { answer };
        write!(f, "mul {four}: {outcome}")
    }
}

// Calls that were made of a console.
ghost use Rattle.std.specs.Prelude.{Some};
ghost use Rattle.rounding.specs.Refusals.{coded};
ghost use Rattle.sentences.specs.Consoles.{call_text, value_text, entry_text};

use crate::{Four, Outcome, Pair, Shown};
use checked_calls::calls::Arrangement;
use histories::Call;
use runs::{Answer, Entry};
use std::fmt;

// A call with its operands: a value, since histories record calls.
#[derive(Clone, Copy)]
struct Asked {
    by: Arrangement,
    call: Call,
}

impl fmt::Display for Asked {
    ghost output = { λ x. Some (call_text x.by x.call) };

    fn fmt<W: fmt::Write>(&self, f: &mut fmt::Formatter<W>) -> fmt::Result {
        let by = self.by;
        match self.call {
            Call::Sum(a, b, c, d) => {
                let four = Four { by, a, b, c, d };
                write!(f, "sum {four}")
            }
            Call::Determinant(a, b, c, d) => {
                let four = Four { by, a, b, c, d };
                write!(f, "det {four}")
            }
            Call::Product(a, b, c, d) => {
                let four = Four { by, a, b, c, d };
                write!(f, "mul {four}")
            }
            Call::Turn(lane, c, d) => {
                let factor = Pair { by, a: c, b: d };
                write!(f, "turn {lane} {factor}")
            }
            Call::Restart(lane) => write!(f, "restart {lane}"),
            Call::Read(lane) => write!(f, "read {lane}"),
        }
    }
}

// What an accepted call answered.
#[derive(Clone, Copy)]
struct Value {
    by: Arrangement,
    answer: Answer,
}

impl fmt::Display for Value {
    ghost output = { λ x. Some (value_text x.by x.answer) };

    fn fmt<W: fmt::Write>(&self, f: &mut fmt::Formatter<W>) -> fmt::Result {
        let by = self.by;
        match self.answer {
            Answer::Value(figure) => {
                let figure = Shown { by, figure };
                write!(f, "{figure}")
            }
            Answer::Parts(a, b) => {
                let parts = Pair { by, a, b };
                write!(f, "{parts}")
            }
            Answer::Count(count) => write!(f, "{count}"),
            Answer::Shown(reading) => {
                let count = reading.count;
                let parts = Pair {
                    by,
                    a: reading.real,
                    b: reading.imaginary,
                };
                write!(f, "{count} {parts}")
            }
        }
    }
}

// A call and what it answered.
#[derive(Clone, Copy)]
pub struct Sentence {
    pub by: Arrangement,
    pub entry: Entry,
}

impl fmt::Display for Sentence {
    ghost output = { λ x. Some (entry_text x.by x.entry.call (coded x.entry.answer)) };

    fn fmt<W: fmt::Write>(&self, f: &mut fmt::Formatter<W>) -> fmt::Result {
        let by = self.by;
        let Entry { call, answer } = self.entry;
        let call = Asked { by, call };
        let answer = answer.map(|answer| Value { by, answer });
        let outcome = Outcome { answer };
        write!(f, "{call}: {outcome}")
    }
}

// Tables of rows in memory: a row asks for a sum, a determinant or a complex product by its code, and `fill` writes
// beside its operands what a console answers. Codes and outcomes are plain numbers, so that any table can be laid out
// as rows; `verbs` has the codes.
#![tactic(auto)]

ghost use Rattle.std.specs.Prelude.{◌≡◌, map, length};
ghost use Rattle.rounding.specs.Refusals.{coded};
ghost use Rattle.rows.specs.Filling.{answers_of, filled};
ghost use Rattle.rows.specs.Calls.{StandForCalls};

use console::Console;
use methods::method::Method;
use rounding::{Figure, Refusal, figure};
use verbs::Verb;

mod verbs;

// A code with its four operands, and what became of them: the outcome 0 and two answers, or the number of a refusal
// and two zeros. Sums and determinants have zero as the second answer.
#[derive(Clone, Copy, Debug, PartialEq, Eq)]
pub struct Row {
    pub code: u8,
    pub a: Figure,
    pub b: Figure,
    pub c: Figure,
    pub d: Figure,
    pub first: Figure,
    pub second: Figure,
    pub outcome: u8,
}

const ZERO: Figure = figure!(0, 0);

impl Row {
    // Both answers to the row's call. An unknown code is refused before any operand is looked at.
    fn answers<M: Method>(self, console: &Console<M>) -> Result<(Figure, Figure), Refusal>
        ensures { coded result ≡ answers_of M.Arith.RADIX M.Arith.PRECISION
            (M.Method.answer console.now.method) console.now.lanes self }
    {
        let Row {
            code,
            a,
            b,
            c,
            d,
            ..
        } = self;
        match Verb::of(code).ok_or(Refusal::UnknownVerb)? {
            Verb::Sum => console.sum(a, b, c, d).map(|figure| (figure, ZERO)),
            Verb::Determinant => console.determinant(a, b, c, d).map(|figure| (figure, ZERO)),
            Verb::Product => console.complex_product(a, b, c, d),
        }
    }

    // The row with its outcome and its answers, whatever stood there.
    fn filled<M: Method>(self, console: &Console<M>) -> Row
        ensures { result ≡ filled M.Arith.RADIX M.Arith.PRECISION
            (M.Method.answer console.now.method) console.now.lanes self }
    {
        let (outcome, first, second) = match self.answers(console) {
            Ok((first, second)) => (0, first, second),
            Err(refusal) => (u8::from(refusal), ZERO, ZERO),
        };
        Row {
            first,
            second,
            outcome,
            ..self
        }
    }
}

// What is proved of the calls that rows stand for, beside them as in `console`.
fn calls_law<M: Method>(console: &Console<M>, rows: &[Row])
    ensures { StandForCalls M.Arith.RADIX M.Arith.PRECISION
        (M.Method.num console.now.method) (M.Method.den console.now.method)
        (M.Method.answer console.now.method) console.now.lanes rows.now }
{}

// Fills every row of a table, and answers the number of the rows. The console's lanes stay, and so would they if the
// calls of the rows were made of it in order; the answers are those of the calls.
pub fn fill<M: Method>(console: &Console<M>, rows: &mut [Row]) -> usize
    ensures rows { rows.new ≡ map (filled M.Arith.RADIX M.Arith.PRECISION
        (M.Method.answer console.now.method) console.now.lanes) rows.old }
    ensures count { result ≡ length rows.old }
    ensures calls { StandForCalls M.Arith.RADIX M.Arith.PRECISION
        (M.Method.num console.now.method) (M.Method.den console.now.method)
        (M.Method.answer console.now.method) console.now.lanes rows.old }
{
    calls_law(console, rows);
    for row in rows.iter_mut() {
        *row = row.filled(console);
    }
    rows.len()
}

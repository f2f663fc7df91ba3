// The answers to lines that ask for an operation, as `binary multiply 8388608p-23 8388609p-23` does.
#![tactic(auto)]

ghost use Rattle.std.specs.Prelude.{◌≡◌, ◌≤◌, IfOk, map};
ghost use Rattle.arrayvec.specs.ArrayVec.{array_vec_len};
ghost use Rattle.rounding.specs.Refusals.{coded};
ghost use Rattle.operations.specs.Names.{kind_of};
ghost use Rattle.operations.specs.Operations.{figures_of_two, figures_of_three, answered, outcome_text, kind_text};
ghost use Rattle.operations.specs.Operations.{named_text, words_text, answer_line, answer_lines};

use arrayvec::ArrayVec;
use figures::arithmetic::Arithmetic;
use integers::Integers;
use itoa::Buffer;
use kinds::{Binary, Decimal, Kind};
use lines::{Reader, words};
use names::{KindName, Operation};
use requests::word::Word;
use rounding::{Figure, Refusal};
use spelling::spell;
use std::alloc::{AllocError, Global};

mod names;

// The bytes of an answer's line, kept in place: those of a figure, and the byte that closes the line.
type AnswerLine = ArrayVec<u8, 24>;

// The figures of two words.
fn two<K: Kind>(words: &[&[u8]]) -> Result<(Figure, Figure), Refusal>
    ensures { coded result ≡ figures_of_two K.MARK (map (λ word. word.now) words.now) }
{
    let &[x, y] = words else {
        return Err(Refusal::WordCount);
    };
    let x = Word::of(x).figure::<K>()?;
    let y = Word::of(y).figure::<K>()?;
    Ok((x, y))
}

// The figures of three words.
fn three<K: Kind>(words: &[&[u8]]) -> Result<(Figure, Figure, Figure), Refusal>
    ensures { coded result ≡ figures_of_three K.MARK (map (λ word. word.now) words.now) }
{
    let &[x, y, z] = words else {
        return Err(Refusal::WordCount);
    };
    let x = Word::of(x).figure::<K>()?;
    let y = Word::of(y).figure::<K>()?;
    let z = Word::of(z).figure::<K>()?;
    Ok((x, y, z))
}

// What an operation answers to the figures of its words.
fn answered<A: Arithmetic>(operation: Operation, words: &[&[u8]]) -> Result<Figure, Refusal>
    ensures { coded result ≡ answered A.RADIX A.PRECISION A.MARK operation
        (map (λ word. word.now) words.now) }
{
    match operation {
        Operation::Multiply => {
            let (x, y) = two::<A>(words)?;
            A::multiply(x, y)
        }
        Operation::Add => {
            let (x, y) = two::<A>(words)?;
            A::add(x, y)
        }
        Operation::Fused => {
            let (x, y, z) = three::<A>(words)?;
            A::fused(x, y, z)
        }
    }
}

// The text of an outcome.
fn outcome_line<K: Kind>(outcome: Result<Figure, Refusal>) -> AnswerLine
    ensures text { result.items ≡ outcome_text K.MARK (coded outcome) }
    ensures short { array_vec_len result ≤ 23 }
{
    let mut line = AnswerLine::new();
    match outcome {
        Ok(figure) => line
            .try_extend_from_slice(spell::<K>(figure).as_bytes())
            .unwrap(),
        Err(refusal) => {
            line.try_extend_from_slice(b"no ").unwrap();
            line.try_extend_from_slice(Buffer::new().format(u8::from(refusal)).as_bytes())
                .unwrap();
        }
    }
    line
}

// The text of what an operation on figures of a kind is answered.
#[tactic(auto, using(crate::proofs::Named::operation_named))]
fn kind_line<A: Arithmetic>(operation: &[u8], operands: &[&[u8]]) -> AnswerLine
    ensures text { result.items ≡ kind_text A.RADIX A.PRECISION A.MARK operation.now
        (map (λ word. word.now) operands.now) }
    ensures short { array_vec_len result ≤ 23 }
{
    let outcome = match Operation::of(operation) {
        Some(operation) => answered::<A>(operation, operands),
        None => Err(Refusal::UnknownVerb),
    };
    outcome_line::<A>(outcome)
}

// The text of what the words behind the name of a kind are answered.
#[tactic(auto, using(crate::proofs::Named::kind_named))]
fn named_line(kind: &[u8], operation: &[u8], operands: &[&[u8]]) -> AnswerLine
    ensures text { result.items ≡ named_text (kind_of kind.now) operation.now
        (map (λ word. word.now) operands.now) }
    ensures short { array_vec_len result ≤ 23 }
{
    match KindName::of(kind) {
        Some(KindName::Binary) => kind_line::<Integers<Binary>>(operation, operands),
        Some(KindName::Decimal) => kind_line::<Integers<Decimal>>(operation, operands),
        None => outcome_line::<Binary>(Err(Refusal::UnknownVerb)),
    }
}

// The text of what a line's words are answered.
fn words_line(words: &[&[u8]]) -> AnswerLine
    ensures text { result.items ≡ words_text (map (λ word. word.now) words.now) }
    ensures short { array_vec_len result ≤ 23 }
{
    match words {
        [kind, operation, operands @ ..] => named_line(kind, operation, operands),
        _ => outcome_line::<Binary>(Err(Refusal::WordCount)),
    }
}

// The answer to a line, closed by byte 10.
#[tactic(auto, using(crate::proofs::Words::six_words))]
fn answer_line(line: &[u8]) -> AnswerLine
    ensures { result.items ≡ answer_line line.now }
{
    let mut answer = words_line(&words(line));
    answer.push(b'\n');
    answer
}

// The answers to the lines of a text. Only want of memory is an error.
#[tactic(auto, using(crate::proofs::Lines::answers_begun))]
pub fn answer_lines(alloc: Global, text: &[u8]) -> Result<Vec<u8>, AllocError>
    ensures { IfOk result (λ answers. answers.items ≡ answer_lines text.now) }
{
    let mut answers = Vec::new(alloc);
    for line in Reader::new(text) {
        answers.extend_from_slice(&answer_line(line.bytes))?;
    }
    Ok(answers)
}

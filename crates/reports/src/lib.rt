// The line of a batch's report for one row.
#![tactic(auto)]

ghost use Rattle.std.specs.Prelude.{◌≡◌, ◌+◌, ◌≤◌, ◌<◌, ◌++◌, ◌∷◌, [], IfOk, codes, decimal, length};
ghost use Rattle.arrayvec.specs.ArrayVec.{array_vec_len};
ghost use Rattle.runs.specs.Answers.{ShowsFew};
ghost use Rattle.requests.specs.Faults.{stop, stopped};
ghost use Rattle.reports.specs.Reports.{spaced, figure_text, answer_text, outcome_text, report_line};
ghost use Rattle.reports.specs.Tells.{LineTells, TellsOneRow};

use arrayvec::ArrayVec;
use itoa::{Buffer, Integer};
use kinds::Kind;
use requests::fault::Fault;
use rounding::Figure;
use runs::Answer;
use spelling::spell;

// The bytes of a line, kept in place. The longest has a number of 20 digits, a count of ten, two figures of 23 bytes,
// three spaces and the byte that closes it.
pub type ReportLine = ArrayVec<u8, 80>;

// Bytes behind those that a line has.
fn push_bytes(line: &mut ReportLine, bytes: &[u8])
    requires { array_vec_len line.old + length bytes.now ≤ 80 }
    ensures { line.new.items ≡ line.old.items ++ bytes.now }
{
    line.try_extend_from_slice(bytes).unwrap();
}

// A whole number in decimal.
fn push_number<I: Integer>(line: &mut ReportLine, number: I)
    requires { array_vec_len line.old + I.MAX_STR_LEN ≤ 80 }
    ensures text { line.new.items ≡ line.old.items ++ I.text number }
    ensures short { array_vec_len line.new ≤ array_vec_len line.old + I.MAX_STR_LEN }
{
    push_bytes(line, Buffer::new().format(number).as_bytes());
}

// A figure under the mark of its kind.
fn push_figure<K: Kind>(line: &mut ReportLine, figure: Figure)
    requires { array_vec_len line.old ≤ 57 }
    ensures text { line.new.items ≡ line.old.items ++ figure_text K.MARK figure }
    ensures short { array_vec_len line.new ≤ array_vec_len line.old + 23 }
{
    push_bytes(line, spell::<K>(figure).as_bytes());
}

// Two figures, with a space between them.
fn push_parts<K: Kind>(line: &mut ReportLine, real: Figure, imaginary: Figure)
    requires { array_vec_len line.old ≤ 33 }
    ensures text { line.new.items
        ≡ line.old.items ++ spaced (figure_text K.MARK real) (figure_text K.MARK imaginary) }
    ensures short { array_vec_len line.new ≤ array_vec_len line.old + 47 }
{
    push_figure::<K>(line, real);
    line.push(b' ');
    push_figure::<K>(line, imaginary);
}

// The words of an answer.
#[tactic(auto, using(crate::proofs::Lengths::lengths))]
fn push_answer<K: Kind>(line: &mut ReportLine, answer: Answer)
    requires { array_vec_len line.old ≤ 21 }
    ensures text { line.new.items ≡ line.old.items ++ answer_text K.MARK answer }
    ensures room { array_vec_len line.new ≤ array_vec_len line.old + 58 }
    ensures short { ShowsFew answer → array_vec_len line.new ≤ array_vec_len line.old + 55 }
{
    match answer {
        Answer::Value(figure) => push_figure::<K>(line, figure),
        Answer::Parts(real, imaginary) => push_parts::<K>(line, real, imaginary),
        Answer::Count(count) => push_number(line, count),
        Answer::Shown(reading) => {
            push_number(line, reading.count);
            line.push(b' ');
            push_parts::<K>(line, reading.real, reading.imaginary);
        }
    }
}

// The words of a refusal.
fn push_fault(line: &mut ReportLine, fault: Fault)
    requires { array_vec_len line.old ≤ 21 }
    ensures text { line.new.items ≡ line.old.items
        ++ spaced (codes "no") (spaced (decimal (stop fault).0) (decimal (stop fault).1)) }
    ensures short { array_vec_len line.new ≤ array_vec_len line.old + 10 }
{
    push_bytes(line, b"no ");
    push_number(line, u8::from(fault.refusal));
    line.push(b' ');
    push_number(line, fault.place);
}

// The words of a row: its answer, or what stopped it.
fn push_outcome<K: Kind>(line: &mut ReportLine, outcome: Result<Answer, Fault>)
    requires { array_vec_len line.old ≤ 21 }
    ensures text { line.new.items ≡ line.old.items ++ outcome_text K.MARK (stopped outcome) }
    ensures room { array_vec_len line.new ≤ array_vec_len line.old + 58 }
    ensures short { IfOk outcome ShowsFew → array_vec_len line.new ≤ array_vec_len line.old + 55 }
{
    match outcome {
        Ok(answer) => push_answer::<K>(line, answer),
        Err(fault) => push_fault(line, fault),
    }
}

// What is proved of the lines of a kind: called in a body, so that an edit can leave it out.
fn lines_law<K: Kind>()
    ensures { TellsOneRow K.MARK }
{}

// The line of a row: its number, what it was answered or what stopped it, and the byte that closes the line.
#[tactic(auto, using(crate::proofs::Lengths::lengths, crate::proofs::Tells::line_tells))]
pub fn report_line<K: Kind>(number: usize, outcome: Result<Answer, Fault>) -> ReportLine
    ensures text { result.items ≡ report_line K.MARK number (stopped outcome) }
    ensures tells { LineTells K.MARK number (stopped outcome) result.items }
    ensures one_row { TellsOneRow K.MARK }
    // for the numbers of a batch's rows, and counts that a console reaches
    ensures short { number < 100000 → IfOk outcome ShowsFew → array_vec_len result ≤ 64 }
{
    lines_law::<K>();
    let mut line = ReportLine::new();
    push_number(&mut line, number);
    line.push(b' ');
    push_outcome::<K>(&mut line, outcome);
    line.push(b'\n');
    line
}

// The text of a figure: its significand, the mark of its kind and its exponent, both numbers in decimal.
#![tactic(auto)]

ghost use Rattle.std.specs.Prelude.{◌≡◌, ◌+◌, ◌≤◌, ◌++◌, Some};
ghost use Rattle.std.specs.Fmt.{signed_decimal};
ghost use Rattle.arrayvec.specs.ArrayVec.{array_vec_len};
ghost use Rattle.spelling.specs.Spelled.{spelled, text_of};

use arrayvec::ArrayVec;
use itoa::Buffer;
use kinds::Kind;
use rounding::Figure;
use std::{fmt, str};
use text::Spelling;

pub mod text;

// Writes a number behind a text. One digit is written at once, since the figure that is met most often is zero.
#[tactic(auto, using(crate::proofs::Digits::one_digit))]
fn push_number(text: &mut ArrayVec<u8, 23>, number: i32)
    requires { array_vec_len text.old ≤ 12 }
    ensures text { text.new.items ≡ text.old.items ++ signed_decimal number }
    ensures len { array_vec_len text.new ≤ array_vec_len text.old + 11 }
{
    if (0..10).contains(&number) {
        text.push(b'0' + number as u8);
    } else {
        text.try_extend_from_slice(Buffer::new().format(number).as_bytes())
            .unwrap();
    }
}

// The text of `f` under the mark of the kind K. It does not ask that `f` is a figure of that kind, so that a report
// can show any pair of numbers.
pub fn spell<K: Kind>(f: Figure) -> Spelling
    ensures { text_of result ≡ spelled K.MARK f.s f.q }
{
    let mut text = ArrayVec::new();
    push_number(&mut text, f.s);
    text.push(K::MARK);
    push_number(&mut text, f.q);
    Spelling::keep(text.as_slice())
}

impl fmt::Display for Spelling {
    ghost output = { λ text. Some (text_of text) };

    fn fmt<W: fmt::Write>(&self, f: &mut fmt::Formatter<W>) -> fmt::Result {
        let text = str::from_utf8(self.as_bytes()).map_err(|_| fmt::Error)?;
        f.write_str(text)
    }
}

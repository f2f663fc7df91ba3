// What a word reads as: a number, which is the text of a significand and an exponent about a mark, or a lane.
#![tactic(auto)]

ghost use Rattle.std.specs.Prelude.{◌≡◌, ◌≤◌, ◌<◌, ◌^◌, IfSome, length, position};
ghost use Rattle.reading.specs.Words.{is_mark, value_of, natural_of, integer_of, numeral_about, numeral_of, lane_of};
ghost use Rattle.reading.specs.Spellings.{IsSpelled, IsLane, IsTheOne};

use rounding::Figure;

// The two parts of a number with the mark between them. The pair need be no figure of the mark's kind.
#[derive(Clone, Copy, Debug, PartialEq, Eq)]
pub struct Numeral {
    pub figure: Figure,
    pub mark: u8,
}

// The number that digits write, if all of the bytes are digits.
#[tactic(auto, unfolding(crate::specs::Words::value_of))]
fn digits_value(digits: &[u8]) -> Option<u32>
    requires { length digits.now ≤ 9 }
    ensures { result ≡ value_of digits.now }
{
    let mut value = 0;
    for &digit in digits {
        if !digit.is_ascii_digit() {
            return None;
        }
        value = value * 10 + u32::from(digit - b'0');
    }
    Some(value)
}

// The number of one to `most` digits, of which a 0 leads no others.
#[tactic(auto, using(crate::proofs::Naturals::value_below), unfolding(crate::specs::Words::natural_of))]
fn natural(digits: &[u8], most: usize) -> Option<u32>
    requires { most ≤ 9 }
    ensures value { result ≡ natural_of most digits.now }
    ensures below { IfSome result (λ n. n < 10 ^ most) }
{
    match digits {
        [] | [b'0', _, ..] => None,
        _ if digits.len() > most => None,
        _ => digits_value(digits),
    }
}

// The number of an optional minus and one to `most` digits. No minus stands before 0.
#[tactic(auto, using(crate::proofs::Integers::minus_reads), unfolding(crate::specs::Words::integer_of))]
fn integer(word: &[u8], most: usize) -> Option<i32>
    requires { most ≤ 9 }
    ensures { result ≡ integer_of most word.now }
{
    match word {
        [b'-', digits @ ..] => match natural(digits, most)? {
            0 => None,
            value => Some(-(value as i32)),
        },
        _ => natural(word, most).map(|value| value as i32),
    }
}

// Where the first mark stands.
fn mark_place(word: &[u8]) -> Option<usize>
    ensures place { result ≡ position is_mark word.now }
    ensures within { IfSome result (λ i. i < length word.now) }
{
    word.iter().position(|byte| matches!(byte, b'p' | b'e'))
}

// The number about the mark at a place.
#[tactic(auto, unfolding(crate::specs::Words::numeral_about))]
fn numeral_about(word: &[u8], place: usize) -> Option<Numeral>
    requires { place < length word.now }
    ensures { result ≡ numeral_about word.now place }
{
    let s = integer(&word[..place], 8)?;
    let q = integer(&word[place + 1..], 4)?;
    let figure = Figure { s, q };
    let mark = word[place];
    Some(Numeral { figure, mark })
}

// The number that a word is.
#[tactic(auto, using(crate::proofs::Numerals::numbers_are_spelled), unfolding(crate::specs::Words::numeral_of))]
pub fn number(word: &[u8]) -> Option<Numeral>
    ensures reads { result ≡ numeral_of word.now }
    ensures spelled { IsTheOne (IsSpelled word.now) result }
{
    numeral_about(word, mark_place(word)?)
}

// The lane that a word is.
#[tactic(auto, using(crate::proofs::Naturals::read_as_lane), unfolding(crate::specs::Words::lane_of))]
pub fn lane(word: &[u8]) -> Option<u8>
    ensures reads { result ≡ lane_of word.now }
    ensures spelled { IsTheOne (IsLane word.now) result }
{
    natural(word, 2).map(|value| value as u8)
}

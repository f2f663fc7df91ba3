// The words of a line.
ghost use Rattle.std.specs.Prelude.{◌≡◌};
ghost use Rattle.rounding.specs.Refusals.{coded};
ghost use Rattle.requests.specs.Words.{word_of, ReadsAs, figure_of, lane_number_of, verb_told_by};

use crate::verb::Verb;
use kinds::Kind;
use reading::{lane, number};
use rounding::{Figure, Refusal};

// A word by what it looks like, which its first bytes tell. Each case borrows the word from its line.
#[derive(Clone, Copy)]
pub enum Word<'a> {
    // a small letter first
    Verb(&'a [u8]),
    // a digit or a minus first, and at least three bytes
    Number(&'a [u8]),
    // a digit or a minus first, and at most two bytes
    Lane(&'a [u8]),
    // any other
    Unknown(&'a [u8]),
}

// What a text looks like.
#[tactic(auto, unfolding(crate::specs::Words::word_of))]
fn looks_like(text: &[u8]) -> Word<'_>
    ensures { result ≡ word_of text.entry }
{
    let Some(&first) = text.first() else {
        return Word::Unknown(text);
    };
    if first.is_ascii_lowercase() {
        Word::Verb(text)
    } else if first != b'-' && !first.is_ascii_digit() {
        Word::Unknown(text)
    } else if text.len() > 2 {
        Word::Number(text)
    } else {
        Word::Lane(text)
    }
}

// What is proved of a text and what it looks like.
fn reads_law(text: &[u8])
    ensures { ReadsAs (word_of text.entry) text.now }
{}

impl<'a> Word<'a> {
    // The word of a text. It reads as the text does, whatever it looks like.
    pub fn of(text: &'a [u8]) -> Word<'a>
        ensures case { result ≡ word_of text.entry }
        ensures reads { ReadsAs result text.now }
    {
        reads_law(text);
        looks_like(text)
    }

    // The verb that the word spells.
    #[tactic(auto, using(crate::proofs::Verbs::verb_told))]
    pub fn verb(self) -> Option<Verb>
        ensures { result ≡ verb_told_by self.entry }
    {
        match self {
            Word::Verb(text) => Verb::of(text),
            _ => None,
        }
    }

    // The figure that the word says under the mark of the kind K.
    pub fn figure<K: Kind>(self) -> Result<Figure, Refusal>
        ensures { coded result ≡ figure_of K.MARK self.entry }
    {
        let Word::Number(text) = self else {
            return Err(Refusal::NoNumber);
        };
        let number = number(text).ok_or(Refusal::NoNumber)?;
        if number.mark == K::MARK {
            Ok(number.figure)
        } else {
            Err(Refusal::OtherMark)
        }
    }

    // The number of a lane that the word says.
    pub fn lane(self) -> Result<u8, Refusal>
        ensures { coded result ≡ lane_number_of self.entry }
    {
        let Word::Lane(text) = self else {
            return Err(Refusal::NoNumber);
        };
        lane(text).ok_or(Refusal::NoNumber)
    }
}

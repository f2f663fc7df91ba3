// The call that a line of a batch asks for.
#![tactic(auto)]

ghost use Rattle.std.specs.Prelude.{◌≡◌, map};
ghost use Rattle.requests.specs.Faults.{stopped};
ghost use Rattle.requests.specs.Requests.{figure_at, lane_at, four, turn, one_lane, call_of, request_in, request_of};

use fault::Fault;
use histories::Call;
use kinds::Kind;
use lines::words;
use rounding::{Figure, Refusal};
use verb::Verb;
use word::Word;

pub mod fault;
pub mod verb;
pub mod word;

// The figure of the word at a place.
fn figure<K: Kind>(word: &[u8], place: u8) -> Result<Figure, Fault>
    ensures { stopped result ≡ figure_at K.MARK place word.now }
{
    Word::of(word)
        .figure::<K>()
        .map_err(|refusal| Fault { refusal, place })
}

// The lane of the word at a place.
fn lane(word: &[u8], place: u8) -> Result<u8, Fault>
    ensures { stopped result ≡ lane_at place word.now }
{
    Word::of(word)
        .lane()
        .map_err(|refusal| Fault { refusal, place })
}

// The verb is none that a line may have.
const UNKNOWN: Fault = Fault {
    refusal: Refusal::UnknownVerb,
    place: 1,
};

// The number of words does not fit the verb.
const MISCOUNTED: Fault = Fault {
    refusal: Refusal::WordCount,
    place: 0,
};

// The figures of four words.
fn four<K: Kind>(words: &[&[u8]]) -> Result<(Figure, Figure, Figure, Figure), Fault>
    ensures { stopped result ≡ four K.MARK (map (λ word. word.now) words.now) }
{
    let &[a, b, c, d] = words else {
        return Err(MISCOUNTED);
    };
    let a = figure::<K>(a, 2)?;
    let b = figure::<K>(b, 3)?;
    let c = figure::<K>(c, 4)?;
    let d = figure::<K>(d, 5)?;
    Ok((a, b, c, d))
}

// The turn of three words: a lane and the parts of a factor.
fn turn<K: Kind>(words: &[&[u8]]) -> Result<Call, Fault>
    ensures { stopped result ≡ turn K.MARK (map (λ word. word.now) words.now) }
{
    let &[number, c, d] = words else {
        return Err(MISCOUNTED);
    };
    let number = lane(number, 2)?;
    let c = figure::<K>(c, 3)?;
    let d = figure::<K>(d, 4)?;
    Ok(Call::Turn(number, c, d))
}

// The lane of one word.
fn one_lane(words: &[&[u8]]) -> Result<u8, Fault>
    ensures { stopped result ≡ one_lane (map (λ word. word.now) words.now) }
{
    let &[number] = words else {
        return Err(MISCOUNTED);
    };
    lane(number, 2)
}

// The call of a verb with the words behind it.
fn call<K: Kind>(verb: Verb, words: &[&[u8]]) -> Result<Call, Fault>
    ensures { stopped result ≡ call_of K.MARK verb (map (λ word. word.now) words.now) }
{
    match verb {
        Verb::Sum => four::<K>(words).map(|(a, b, c, d)| Call::Sum(a, b, c, d)),
        Verb::Determinant => four::<K>(words).map(|(a, b, c, d)| Call::Determinant(a, b, c, d)),
        Verb::Product => four::<K>(words).map(|(a, b, c, d)| Call::Product(a, b, c, d)),
        Verb::Turn => turn::<K>(words),
        Verb::Restart => one_lane(words).map(Call::Restart),
        Verb::Read => one_lane(words).map(Call::Read),
    }
}

// The call of a line's words.
fn asked<K: Kind>(words: &[&[u8]]) -> Result<Call, Fault>
    ensures { stopped result ≡ request_in K.MARK (map (λ word. word.now) words.now) }
{
    let Some((&verb, operands)) = words.split_first() else {
        return Err(UNKNOWN);
    };
    let verb = Word::of(verb).verb().ok_or(UNKNOWN)?;
    call::<K>(verb, operands)
}

// The call that a line asks for.
#[tactic(auto, using(crate::proofs::Requests::six_words), unfolding(crate::specs::Requests::request_of))]
pub fn request<K: Kind>(line: &[u8]) -> Result<Call, Fault>
    ensures { stopped result ≡ request_of K.MARK line.now }
{
    if line.len() > 80 {
        return Err(Fault {
            refusal: Refusal::LineTooLong,
            place: 0,
        });
    }
    asked::<K>(&words(line))
}

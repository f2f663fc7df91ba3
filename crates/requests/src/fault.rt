// What stops a row of a batch.
use rounding::Refusal;

// A refusal, and the place of the word at fault: the verb is word 1, and 0 is no word.
#[derive(Clone, Copy, Debug, PartialEq, Eq)]
pub struct Fault {
    pub refusal: Refusal,
    pub place: u8,
}

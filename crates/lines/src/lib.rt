// A batch text, cut into its lines, and a line, cut into its words.
#![tactic(auto)]

ghost use Rattle.std.specs.Prelude.{◌≡◌, ◌<◌, map, take};
ghost use Rattle.arrayvec.specs.ArrayVec.{array_vec_len};
ghost use Rattle.lines.specs.Laws.{PartsLaw};
ghost use Rattle.lines.specs.Texts.{words_of};

use arrayvec::ArrayVec;

mod reader;

pub use reader::{Line, Reader};

// What is proved of the parts of every text: called in a body, so that an edit can leave it out.
fn parts_law()
    ensures { PartsLaw }
{}

// The first six words of a line, found in one pass over it. No line that a caller accepts has more than five, so that
// six say that there are too many.
#[tactic(auto, using(crate::proofs::Spaces::cutting))]
pub fn words(line: &[u8]) -> ArrayVec<&[u8], 6>
    ensures first { map (λ word. word.now) result.items ≡ take 6 (words_of line.now) }
    ensures all { array_vec_len result < 6 → map (λ word. word.now) result.items ≡ words_of line.now }
    ensures some { 0 < array_vec_len result }
    ensures parts { PartsLaw }
{
    parts_law();
    let mut words = ArrayVec::new();
    let mut start = 0;
    for (index, &byte) in line.iter().enumerate() {
        if byte == b' ' {
            if words.is_full() {
                return words;
            }
            words.push(&line[start..index]);
            start = index + 1;
        }
    }
    // A seventh word is not kept.
    let _ = words.try_push(&line[start..]);
    words
}

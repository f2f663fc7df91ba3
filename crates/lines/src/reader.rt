// The lines of a batch, one after the other.
ghost use Rattle.std.specs.Prelude.{◌≡◌, ◌+◌, ◌≤◌, ◌==◌, ◌∷◌, length};
ghost use Rattle.std.specs.List.{position};
ghost use Rattle.lines.specs.Laws.{LinesLaw};
ghost use Rattle.lines.specs.Texts.{parts, until_empty, lines_of};

use std::marker::Model;

// A line of a batch, and its place among the lines, counted from 1.
#[derive(Clone, Copy)]
pub struct Line<'a> {
    pub bytes: &'a [u8],
    pub number: usize,
}

// A batch that is read line by line: what is unread of its text, and how many lines were handed out. In contracts a
// reader is the list of the lines that it has left, each with its number.
#[derive(Drop)]
pub struct Reader<'a> {
    unread: &'a [u8],
    count: usize,
}

impl<'a> Model for Reader<'a> {
    ghost use Rattle.std.specs.Prelude.{ℕ, ◌+◌, ◌<◌, ◌^◌, List, length};
    ghost use Rattle.std.specs.List.{enumerate_from};
    ghost use Rattle.lines.specs.Texts.{lines_of};

    ghost Value = { List (ℕ × List ℕ) };

    // The numbers go on from the count.
    ghost view = { λ r. enumerate_from (r.count + 1) (lines_of r.unread.now) };

    // No number is too large: each line has a byte of its own.
    ghost invariant = { λ r. r.count + length r.unread.now < 2 ^ 64 };
}

// What is proved of the lines of every text, as for the parts.
fn lines_law()
    ensures { LinesLaw }
{}

impl<'a> Reader<'a> {
    ghost use Rattle.lines.specs.Texts.{numbered_lines};

    // A reader of all lines of a text.
    pub fn new(text: &'a [u8]) -> Reader<'a>
        ensures lines { result ≡ numbered_lines text.now }
        ensures law { LinesLaw }
    {
        lines_law();
        Reader {
            unread: text,
            count: 0,
        }
    }
}

impl<'a> Iterator for Reader<'a> {
    ghost use Rattle.std.specs.Iterator.{YieldsFirstBy, item_count};

    type Item = Line<'a>;

    ghost next_gives = { YieldsFirstBy (λ line. (line.number, line.bytes.now)) (λ r. r) };

    ghost remaining = { item_count (λ r. r) };

    fn next(&mut self) -> Option<Line<'a>> {
        let (bytes, unread) = cut(self.unread);
        // The text is at its end, or an empty line ends the batch.
        if bytes.is_empty() {
            return None;
        }
        self.unread = unread;
        self.count += 1;
        Some(Line {
            bytes,
            number: self.count,
        })
    }
}

// The place of the first byte 10.
fn line_end(text: &[u8]) -> Option<usize>
    ensures { result ≡ position (λ b. b == 10) text.now }
{
    text.iter().position(|byte| *byte == b'\n')
}

// The bytes before the first byte 10, and those behind it.
#[tactic(auto, using(crate::proofs::Cuts::cut_behind, crate::proofs::Cuts::cut_nowhere))]
fn cut(text: &[u8]) -> (&[u8], &[u8])
    ensures lines { lines_of text.now ≡ until_empty (result.0.now ∷ parts 10 result.1.now) }
    ensures shorter { length result.0.now + length result.1.now ≤ length text.now }
{
    match line_end(text) {
        Some(end) => (&text[..end], &text[end + 1..]),
        None => (text, &[]),
    }
}

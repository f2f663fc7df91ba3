// The verbs of a line.
ghost use Rattle.requests.specs.Verbs.{IsVerbOf};

// What a line asks for.
#[derive(Clone, Copy, Debug, PartialEq, Eq)]
pub enum Verb {
    Sum,
    Determinant,
    Product,
    Turn,
    Restart,
    Read,
}

impl Verb {
    // The verb that a word spells, if any.
    pub fn of(word: &[u8]) -> Option<Verb>
        ensures { IsVerbOf word.now result }
    {
        match word {
            b"sum" => Some(Verb::Sum),
            b"det" => Some(Verb::Determinant),
            b"mul" => Some(Verb::Product),
            b"turn" => Some(Verb::Turn),
            b"restart" => Some(Verb::Restart),
            b"read" => Some(Verb::Read),
            _ => None,
        }
    }
}

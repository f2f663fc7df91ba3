// What a row may ask for.
ghost use Rattle.std.specs.Prelude.{◌≡◌};
ghost use Rattle.rows.specs.Rows.{verb_of};

pub(crate) enum Verb {
    Sum,
    Determinant,
    Product,
}

impl Verb {
    // The verb of a code, if there is one.
    pub(crate) fn of(code: u8) -> Option<Verb>
        ensures { result ≡ verb_of code }
    {
        match code {
            1 => Some(Verb::Sum),
            2 => Some(Verb::Determinant),
            3 => Some(Verb::Product),
            _ => None,
        }
    }
}

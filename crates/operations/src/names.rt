// The names that a line begins with.
ghost use Rattle.operations.specs.Names.{IsKindOf, IsOperationOf};

// The kind of a line's figures.
#[derive(Clone, Copy)]
pub(crate) enum KindName {
    Binary,
    Decimal,
}

impl KindName {
    // The kind that a word names, if any.
    pub(crate) fn of(word: &[u8]) -> Option<KindName>
        ensures { IsKindOf word.now result }
    {
        match word {
            b"binary" => Some(KindName::Binary),
            b"decimal" => Some(KindName::Decimal),
            _ => None,
        }
    }
}

// What a line asks for.
#[derive(Clone, Copy)]
pub(crate) enum Operation {
    Multiply,
    Add,
    Fused,
}

impl Operation {
    // The operation that a word names, if any.
    pub(crate) fn of(word: &[u8]) -> Option<Operation>
        ensures { IsOperationOf word.now result }
    {
        match word {
            b"multiply" => Some(Operation::Multiply),
            b"add" => Some(Operation::Add),
            b"fused" => Some(Operation::Fused),
            _ => None,
        }
    }
}

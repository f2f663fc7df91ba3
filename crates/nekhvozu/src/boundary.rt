// What crosses the boundary: plain words, laid out as C lays them out.
ghost use Rattle.std.specs.Prelude.{◌≡◌};
ghost use Rattle.rounding.specs.Refusals.{coded};
ghost use Rattle.nekhvozu.specs.Boundary.{told, end_told};

use batch::ending::Ended;
use rounding::{Figure, Refusal};

// The significand and the exponent of a figure.
#[repr(C)]
#[derive(Clone, Copy)]
pub struct Pair {
    pub s: i32,
    pub q: i32,
}

impl From<Pair> for Figure {
    ghost use Rattle.nekhvozu.specs.Boundary.{figure_of};

    ghost from_gives = { λ pair figure. figure ≡ figure_of pair };

    fn from(pair: Pair) -> Figure {
        Figure {
            s: pair.s,
            q: pair.q,
        }
    }
}

impl From<Figure> for Pair {
    ghost use Rattle.nekhvozu.specs.Boundary.{pair_of};

    ghost from_gives = { λ figure pair. pair ≡ pair_of figure };

    fn from(figure: Figure) -> Pair {
        Pair {
            s: figure.s,
            q: figure.q,
        }
    }
}

// The status 0 and a figure, or the number of a refusal and zero in both words.
#[repr(C)]
#[derive(Clone, Copy)]
pub struct Answer {
    pub status: u8,
    pub figure: Pair,
}

impl Answer {
    // The answer of a call that was refused.
    pub(crate) fn refused(status: u8) -> Answer
        ensures { result ≡ told (Err status) }
    {
        Answer {
            status,
            figure: Pair { s: 0, q: 0 },
        }
    }

    // An answer of the library.
    pub(crate) fn of(answer: Result<Figure, Refusal>) -> Answer
        ensures { result ≡ told (coded answer) }
    {
        match answer {
            Ok(figure) => Answer {
                status: 0,
                figure: Pair::from(figure),
            },
            Err(refusal) => Answer::refused(u8::from(refusal)),
        }
    }
}

// How many rows of a batch were run, how many bytes of the report they took, and the number of the end.
#[repr(C)]
#[derive(Clone, Copy)]
pub struct BatchEnd {
    pub rows: usize,
    pub bytes: usize,
    pub status: u8,
}

impl BatchEnd {
    pub(crate) fn of(ended: Ended) -> BatchEnd
        ensures { result ≡ end_told ended }
    {
        BatchEnd {
            rows: ended.rows,
            bytes: ended.bytes,
            status: u8::from(ended.end),
        }
    }
}

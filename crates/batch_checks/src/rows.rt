// Rows of the tables.
use batch::ending::End;

// A text, which is a unit, so many times, and then a tail. A batch of it on a new console, with so many bytes for its
// report, runs the rows, uses bytes of the report, and ends. The report is given whole, or its last bytes where it is
// long.
#[derive(Clone, Copy)]
pub struct Case {
    pub unit: &'static [u8],
    pub times: usize,
    pub tail: &'static [u8],
    pub size: usize,
    pub rows: usize,
    pub used: usize,
    pub end: End,
    pub report: &'static [u8],
}

// A line, and the report of a batch that has no other.
pub type Line = (&'static [u8], &'static [u8]);

// How a batch ends.
ghost use Rattle.std.specs.Prelude.{◌≡◌};

// How a batch ends, with the number by which it is told.
#[derive(Clone, Copy, Debug, PartialEq, Eq)]
pub enum End {
    // every row was run
    Done = 0,
    // fewer than 64 bytes of the report were free before a row
    ReportFull = 51,
    // the text has more than 65,536 bytes
    TextTooLong = 61,
}

impl From<End> for u8 {
    ghost use Rattle.batch.specs.Batches.{end_number};

    ghost from_gives = { λ end n. n ≡ end_number end };

    fn from(end: End) -> u8 {
        end as u8
    }
}

// The number of rows run, the number of bytes that their report lines take, and how the batch ended.
#[derive(Clone, Copy, Debug, PartialEq, Eq)]
pub struct Ended {
    pub rows: usize,
    pub bytes: usize,
    pub end: End,
}

// Words with what they read as, numbers and lanes and what is neither.
ghost use Rattle.std.specs.Prelude.{◌≡◌, OnOk};
ghost use Rattle.reading.specs.Words.{numeral_of, lane_of};

use reading::{Numeral, lane, number};
use rounding::figure;
use std::test::Fail;

// A word, and the number that it is, if it is one.
struct Number {
    word: &'static [u8],
    reads: Option<Numeral>,
}

// A word, and the lane that it is, if it is one.
struct Lane {
    word: &'static [u8],
    reads: Option<u8>,
}

// A word that is the number of these parts.
macro_rules! number {
    ($word:expr, $s:expr, $mark:expr, $q:expr) => {
        Number {
            word: $word,
            reads: Some(Numeral {
                figure: figure!($s, $q),
                mark: $mark,
            }),
        }
    };
}

// A word that is no number.
macro_rules! no_number {
    ($word:expr) => {
        Number {
            word: $word,
            reads: None,
        }
    };
}

// A word that is the lane of this number.
macro_rules! lane {
    ($word:expr, $n:expr) => {
        Lane {
            word: $word,
            reads: Some($n),
        }
    };
}

// A word that is no lane.
macro_rules! no_lane {
    ($word:expr) => {
        Lane {
            word: $word,
            reads: None,
        }
    };
}

const NUMBERS: [Number; 39] = [
    number!(b"0p0", 0, b'p', 0),
    number!(b"0e0", 0, b'e', 0),
    number!(b"0p5", 0, b'p', 5),
    number!(b"0p-5", 0, b'p', -5),
    number!(b"1e0", 1, b'e', 0),
    number!(b"-1p0", -1, b'p', 0),
    number!(b"10p10", 10, b'p', 10),
    number!(b"12582912p-23", 12582912, b'p', -23),
    number!(b"-99999999e-9999", -99999999, b'e', -9999),
    number!(b"99999999p9999", 99999999, b'p', 9999),
    no_number!(b""),
    no_number!(b"1"),
    no_number!(b"p"),
    no_number!(b"1p"),
    no_number!(b"p1"),
    no_number!(b"1P0"),
    no_number!(b"1q0"),
    no_number!(b"1p0p0"),
    no_number!(b"1pe0"),
    no_number!(b"-0p0"),
    no_number!(b"0p-0"),
    no_number!(b"-0p5"),
    no_number!(b"00p0"),
    no_number!(b"0p00"),
    no_number!(b"01p0"),
    no_number!(b"1p01"),
    no_number!(b"1p-01"),
    no_number!(b"-01p0"),
    no_number!(b"--1p0"),
    no_number!(b"-p0"),
    no_number!(b"1p-"),
    no_number!(b"+1p0"),
    no_number!(b"1p+1"),
    no_number!(b"123456789p0"),
    no_number!(b"-123456789p0"),
    no_number!(b"1p12345"),
    no_number!(b"1p0\r"),
    no_number!(b"\x001p0"),
    no_number!(b"1\xb2p0"),
];

const LANES: [Lane; 18] = [
    lane!(b"0", 0),
    lane!(b"7", 7),
    lane!(b"9", 9),
    lane!(b"10", 10),
    lane!(b"99", 99),
    no_lane!(b""),
    no_lane!(b"00"),
    no_lane!(b"01"),
    no_lane!(b"010"),
    no_lane!(b"100"),
    no_lane!(b"-1"),
    no_lane!(b"+1"),
    no_lane!(b"3p0"),
    no_lane!(b"a"),
    no_lane!(b"1\r"),
    no_lane!(b"1\x00"),
    no_lane!(b"\xb2"),
    no_lane!(b":"),
];

// Passes only where the word is the number `want`, or no number.
fn reads_number(word: &[u8], want: Option<Numeral>) -> Result<(), Fail>
    ensures { OnOk result (numeral_of word.now ≡ want) }
{
    let got = number(word);
    if got == want {
        Ok(())
    } else {
        Err(Fail::new(format_args!("{word:?} reads as {got:?}")))
    }
}

// Passes only where the word is the lane `want`, or no lane.
fn reads_lane(word: &[u8], want: Option<u8>) -> Result<(), Fail>
    ensures { OnOk result (lane_of word.now ≡ want) }
{
    let got = lane(word);
    if got == want {
        Ok(())
    } else {
        Err(Fail::new(format_args!("{word:?} reads as {got:?}")))
    }
}

#[test]
fn numbers() -> Result<(), Fail> {
    for row in &NUMBERS {
        reads_number(row.word, row.reads)?;
    }
    Ok(())
}

#[test]
fn lanes() -> Result<(), Fail> {
    for row in &LANES {
        reads_lane(row.word, row.reads)?;
    }
    Ok(())
}

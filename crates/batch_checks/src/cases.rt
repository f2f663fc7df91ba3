// Texts and what a batch on a new console answers to them, and lines with the report of the batch that has this
// line alone, written by vectors/batch_cases: do not edit by hand.
use crate::rows::{Case, Line};
use batch::ending::End::{Done, ReportFull, TextTooLong};

pub const TEXTS: [Case; 68] = [
    // an empty text
    Case {
        unit: b"",
        times: 0,
        tail: b"",
        size: 65536,
        rows: 0,
        used: 0,
        end: Done,
        report: b"",
    },
    // byte 10 alone: one line, which is empty
    Case {
        unit: b"",
        times: 0,
        tail: b"\n",
        size: 65536,
        rows: 0,
        used: 0,
        end: Done,
        report: b"",
    },
    // two empty lines
    Case {
        unit: b"",
        times: 0,
        tail: b"\n\n",
        size: 65536,
        rows: 0,
        used: 0,
        end: Done,
        report: b"",
    },
    // one line with its byte 10
    Case {
        unit: b"",
        times: 0,
        tail: b"read 0\n",
        size: 65536,
        rows: 1,
        used: 20,
        end: Done,
        report: b"1 0 8388608p-23 0p0\n",
    },
    // one line without its byte 10
    Case {
        unit: b"",
        times: 0,
        tail: b"read 0",
        size: 65536,
        rows: 1,
        used: 20,
        end: Done,
        report: b"1 0 8388608p-23 0p0\n",
    },
    // two lines, the last without its byte 10
    Case {
        unit: b"",
        times: 0,
        tail: b"x\nread 0",
        size: 65536,
        rows: 2,
        used: 30,
        end: Done,
        report: b"1 no 43 1\n2 0 8388608p-23 0p0\n",
    },
    // refused rows are counted
    Case {
        unit: b"",
        times: 0,
        tail: b"x\nread 10\nsum x\nread 0\n",
        size: 65536,
        rows: 4,
        used: 50,
        end: Done,
        report: b"1 no 43 1\n2 no 31 2\n3 no 42 0\n4 0 8388608p-23 0p0\n",
    },
    // an empty line ends the batch
    Case {
        unit: b"",
        times: 0,
        tail: b"read 0\n\nread 1\n",
        size: 65536,
        rows: 1,
        used: 20,
        end: Done,
        report: b"1 0 8388608p-23 0p0\n",
    },
    // an empty line first
    Case {
        unit: b"",
        times: 0,
        tail: b"\nread 0\n",
        size: 65536,
        rows: 0,
        used: 0,
        end: Done,
        report: b"",
    },
    // an empty line last
    Case {
        unit: b"",
        times: 0,
        tail: b"x\n\n",
        size: 65536,
        rows: 1,
        used: 10,
        end: Done,
        report: b"1 no 43 1\n",
    },
    // any bytes behind an empty line
    Case {
        unit: b"",
        times: 0,
        tail: b"x\n\n\x00\xff\n",
        size: 65536,
        rows: 1,
        used: 10,
        end: Done,
        report: b"1 no 43 1\n",
    },
    // spaces alone are no empty line
    Case {
        unit: b"",
        times: 0,
        tail: b" \n   \nx\n",
        size: 65536,
        rows: 3,
        used: 30,
        end: Done,
        report: b"1 no 43 1\n2 no 43 1\n3 no 43 1\n",
    },
    // a byte 13 belongs to its line
    Case {
        unit: b"",
        times: 0,
        tail: b"read 0\r\n\r\nread 0",
        size: 65536,
        rows: 3,
        used: 40,
        end: Done,
        report: b"1 no 44 2\n2 no 43 1\n3 0 8388608p-23 0p0\n",
    },
    // a byte 13 ends no line
    Case {
        unit: b"",
        times: 0,
        tail: b"read 0\rread 0\n",
        size: 65536,
        rows: 1,
        used: 10,
        end: Done,
        report: b"1 no 42 0\n",
    },
    // bytes 0, 9, 11 and 12 alone are no empty line
    Case {
        unit: b"",
        times: 0,
        tail: b"\x00\n\t\n\x0b\n\x0c\n",
        size: 65536,
        rows: 4,
        used: 40,
        end: Done,
        report: b"1 no 43 1\n2 no 43 1\n3 no 43 1\n4 no 43 1\n",
    },
    // bytes 0, 9, 11 and 12 end no line
    Case {
        unit: b"",
        times: 0,
        tail: b"x\x00\tx\x0bx\x0cx\n",
        size: 65536,
        rows: 1,
        used: 10,
        end: Done,
        report: b"1 no 43 1\n",
    },
    // bytes above 127
    Case {
        unit: b"",
        times: 0,
        tail: b"\x80\nread \xb0\nread\xa00\n",
        size: 65536,
        rows: 3,
        used: 30,
        end: Done,
        report: b"1 no 43 1\n2 no 44 2\n3 no 43 1\n",
    },
    // a byte 138 is no byte 10
    Case {
        unit: b"",
        times: 0,
        tail: b"x\x8ax\n",
        size: 65536,
        rows: 1,
        used: 10,
        end: Done,
        report: b"1 no 43 1\n",
    },
    // a byte 160 is no space
    Case {
        unit: b"",
        times: 0,
        tail: b"read\xa00\n",
        size: 65536,
        rows: 1,
        used: 10,
        end: Done,
        report: b"1 no 43 1\n",
    },
    // 80 bytes, byte 10 apart
    Case {
        unit: b"x",
        times: 80,
        tail: b"\nread 0\n",
        size: 65536,
        rows: 2,
        used: 30,
        end: Done,
        report: b"1 no 43 1\n2 0 8388608p-23 0p0\n",
    },
    // 81 bytes, byte 10 apart
    Case {
        unit: b"x",
        times: 81,
        tail: b"\nread 0\n",
        size: 65536,
        rows: 2,
        used: 30,
        end: Done,
        report: b"1 no 41 0\n2 0 8388608p-23 0p0\n",
    },
    // 80 bytes without a byte 10
    Case {
        unit: b"x",
        times: 80,
        tail: b"",
        size: 65536,
        rows: 1,
        used: 10,
        end: Done,
        report: b"1 no 43 1\n",
    },
    // 81 bytes without a byte 10
    Case {
        unit: b"x",
        times: 81,
        tail: b"",
        size: 65536,
        rows: 1,
        used: 10,
        end: Done,
        report: b"1 no 41 0\n",
    },
    // a line of 60,000 bytes, and one behind it
    Case {
        unit: b"x",
        times: 60000,
        tail: b"\nread 0\n",
        size: 65536,
        rows: 2,
        used: 30,
        end: Done,
        report: b"1 no 41 0\n2 0 8388608p-23 0p0\n",
    },
    // a turn and a restart
    Case {
        unit: b"",
        times: 0,
        tail: b"turn 3 0p0 8388608p-23\nread 3\nrestart 3\nread 3\n",
        size: 65536,
        rows: 4,
        used: 48,
        end: Done,
        report: b"1 1\n2 1 0p0 8388608p-23\n3 0\n4 0 8388608p-23 0p0\n",
    },
    // lanes turn apart
    Case {
        unit: b"",
        times: 0,
        tail: b"turn 0 0p0 8388608p-23\nread 1\nrestart 1\nread 0\n",
        size: 65536,
        rows: 4,
        used: 48,
        end: Done,
        report: b"1 1\n2 0 8388608p-23 0p0\n3 0\n4 1 0p0 8388608p-23\n",
    },
    // two turns
    Case {
        unit: b"",
        times: 0,
        tail: b"turn 3 8388608p-22 8388608p-23\nturn 3 8388608p-23 8388608p-22\nread 3",
        size: 65536,
        rows: 3,
        used: 29,
        end: Done,
        report: b"1 1\n2 2\n3 2 0p0 10485760p-21\n",
    },
    // a refused turn leaves its lane
    Case {
        unit: b"",
        times: 0,
        tail: b"turn 3 8388608p200 0p0\nturn 3 8388608p200 0p0\nread 3\n",
        size: 65536,
        rows: 3,
        used: 34,
        end: Done,
        report: b"1 1\n2 no 33 0\n3 1 8388608p200 0p0\n",
    },
    // a turn by no figure leaves its lane
    Case {
        unit: b"",
        times: 0,
        tail: b"turn 3 0p0 8388608p-23\nturn 3 1p0 0p0\nturn 3 0p0 8388608p201\nread 3",
        size: 65536,
        rows: 4,
        used: 44,
        end: Done,
        report: b"1 1\n2 no 21 3\n3 no 22 4\n4 1 0p0 8388608p-23\n",
    },
    // sums and products change no lane
    Case {
        unit: b"",
        times: 0,
        tail: b"turn 0 0p0 0p0\nsum 0p0 0p0 0p0 0p0\nmul 0p0 0p0 0p0 0p0\nread 0\n",
        size: 65536,
        rows: 4,
        used: 32,
        end: Done,
        report: b"1 1\n2 0p0\n3 0p0 0p0\n4 1 0p0 0p0\n",
    },
    // a lane of zero is turned on
    Case {
        unit: b"",
        times: 0,
        tail: b"turn 0 0p0 0p0\nturn 0 8388608p200 8388608p200\nread 0\n",
        size: 65536,
        rows: 3,
        used: 20,
        end: Done,
        report: b"1 1\n2 2\n3 2 0p0 0p0\n",
    },
    // no report bytes, and no row
    Case {
        unit: b"",
        times: 0,
        tail: b"",
        size: 0,
        rows: 0,
        used: 0,
        end: Done,
        report: b"",
    },
    // no report bytes, and an empty line first
    Case {
        unit: b"",
        times: 0,
        tail: b"\nx\n",
        size: 0,
        rows: 0,
        used: 0,
        end: Done,
        report: b"",
    },
    // no report bytes
    Case {
        unit: b"",
        times: 0,
        tail: b"restart 0\n",
        size: 0,
        rows: 0,
        used: 0,
        end: ReportFull,
        report: b"",
    },
    // 63 report bytes
    Case {
        unit: b"",
        times: 0,
        tail: b"restart 0\n",
        size: 63,
        rows: 0,
        used: 0,
        end: ReportFull,
        report: b"",
    },
    // 63 report bytes, and a line that is refused
    Case {
        unit: b"",
        times: 0,
        tail: b"x",
        size: 63,
        rows: 0,
        used: 0,
        end: ReportFull,
        report: b"",
    },
    // 63 report bytes, and a line that is too long
    Case {
        unit: b"x",
        times: 81,
        tail: b"\n",
        size: 63,
        rows: 0,
        used: 0,
        end: ReportFull,
        report: b"",
    },
    // 64 report bytes
    Case {
        unit: b"",
        times: 0,
        tail: b"restart 0\n",
        size: 64,
        rows: 1,
        used: 4,
        end: Done,
        report: b"1 0\n",
    },
    // 64 report bytes, and a second row
    Case {
        unit: b"",
        times: 0,
        tail: b"restart 0\nrestart 0\n",
        size: 64,
        rows: 1,
        used: 4,
        end: ReportFull,
        report: b"1 0\n",
    },
    // 60 are free, and no row follows
    Case {
        unit: b"",
        times: 0,
        tail: b"restart 0\n\nrestart 0\n",
        size: 64,
        rows: 1,
        used: 4,
        end: Done,
        report: b"1 0\n",
    },
    // 63 are free before the second row
    Case {
        unit: b"",
        times: 0,
        tail: b"restart 0\nrestart 0\n",
        size: 67,
        rows: 1,
        used: 4,
        end: ReportFull,
        report: b"1 0\n",
    },
    // 64 are free before the second row
    Case {
        unit: b"",
        times: 0,
        tail: b"restart 0\nrestart 0\n",
        size: 68,
        rows: 2,
        used: 8,
        end: Done,
        report: b"1 0\n2 0\n",
    },
    // 100 report bytes
    Case {
        unit: b"",
        times: 0,
        tail: b"read 0\nread 0\nread 0\n",
        size: 100,
        rows: 2,
        used: 40,
        end: ReportFull,
        report: b"1 0 8388608p-23 0p0\n2 0 8388608p-23 0p0\n",
    },
    // 103 report bytes
    Case {
        unit: b"",
        times: 0,
        tail: b"read 0\nread 0\nread 0\n",
        size: 103,
        rows: 2,
        used: 40,
        end: ReportFull,
        report: b"1 0 8388608p-23 0p0\n2 0 8388608p-23 0p0\n",
    },
    // 104 report bytes
    Case {
        unit: b"",
        times: 0,
        tail: b"read 0\nread 0\nread 0\n",
        size: 104,
        rows: 3,
        used: 60,
        end: Done,
        report: b"1 0 8388608p-23 0p0\n2 0 8388608p-23 0p0\n3 0 8388608p-23 0p0\n",
    },
    // 127 report bytes
    Case {
        unit: b"restart 1\n",
        times: 20,
        tail: b"",
        size: 127,
        rows: 15,
        used: 66,
        end: ReportFull,
        report: b"1 0\n2 0\n3 0\n4 0\n5 0\n6 0\n7 0\n8 0\n9 0\n10 0\n11 0\n12 0\n13 0\n14 0\n15 0\n",
    },
    // 128 report bytes
    Case {
        unit: b"restart 1\n",
        times: 20,
        tail: b"",
        size: 128,
        rows: 15,
        used: 66,
        end: ReportFull,
        report: b"1 0\n2 0\n3 0\n4 0\n5 0\n6 0\n7 0\n8 0\n9 0\n10 0\n11 0\n12 0\n13 0\n14 0\n15 0\n",
    },
    // 129 report bytes
    Case {
        unit: b"restart 1\n",
        times: 20,
        tail: b"",
        size: 129,
        rows: 15,
        used: 66,
        end: ReportFull,
        report: b"1 0\n2 0\n3 0\n4 0\n5 0\n6 0\n7 0\n8 0\n9 0\n10 0\n11 0\n12 0\n13 0\n14 0\n15 0\n",
    },
    // 130 report bytes
    Case {
        unit: b"restart 1\n",
        times: 20,
        tail: b"",
        size: 130,
        rows: 16,
        used: 71,
        end: ReportFull,
        report: b"1 0\n2 0\n3 0\n4 0\n5 0\n6 0\n7 0\n8 0\n9 0\n10 0\n11 0\n12 0\n13 0\n14 0\n15 0\n16 0\n",
    },
    // readings fill the report
    Case {
        unit: b"read 0\n",
        times: 9362,
        tail: b"",
        size: 65536,
        rows: 2895,
        used: 65478,
        end: ReportFull,
        report: b"2895 0 8388608p-23 0p0\n",
    },
    // refused lines fill the report
    Case {
        unit: b"x\n",
        times: 32768,
        tail: b"",
        size: 65536,
        rows: 5122,
        used: 65479,
        end: ReportFull,
        report: b"5122 no 43 1\n",
    },
    // as many turns as a text holds
    Case {
        unit: b"turn 3 0p0 8388608p-23\n",
        times: 2849,
        tail: b"read 3",
        size: 65536,
        rows: 2850,
        used: 26302,
        end: Done,
        report: b"2849 2849\n2850 2849 0p0 8388608p-23\n",
    },
    // 65,536 bytes
    Case {
        unit: b"x",
        times: 65536,
        tail: b"",
        size: 65536,
        rows: 1,
        used: 10,
        end: Done,
        report: b"1 no 41 0\n",
    },
    // 65,537 bytes
    Case {
        unit: b"x",
        times: 65537,
        tail: b"",
        size: 65536,
        rows: 0,
        used: 0,
        end: TextTooLong,
        report: b"",
    },
    // 65,536 bytes with a byte 10
    Case {
        unit: b"x",
        times: 65535,
        tail: b"\n",
        size: 65536,
        rows: 1,
        used: 10,
        end: Done,
        report: b"1 no 41 0\n",
    },
    // 65,537 bytes with a byte 10
    Case {
        unit: b"x",
        times: 65536,
        tail: b"\n",
        size: 65536,
        rows: 0,
        used: 0,
        end: TextTooLong,
        report: b"",
    },
    // 65,536 bytes, most of them behind an empty line
    Case {
        unit: b"read 0\n\n",
        times: 8192,
        tail: b"",
        size: 65536,
        rows: 1,
        used: 20,
        end: Done,
        report: b"1 0 8388608p-23 0p0\n",
    },
    // 65,537 bytes, most of them behind an empty line
    Case {
        unit: b"read 0\n\n",
        times: 8192,
        tail: b"x",
        size: 65536,
        rows: 0,
        used: 0,
        end: TextTooLong,
        report: b"",
    },
    // 65,536 bytes, and no row
    Case {
        unit: b"\n",
        times: 65536,
        tail: b"",
        size: 65536,
        rows: 0,
        used: 0,
        end: Done,
        report: b"",
    },
    // 65,537 bytes, and no row
    Case {
        unit: b"\n",
        times: 65537,
        tail: b"",
        size: 65536,
        rows: 0,
        used: 0,
        end: TextTooLong,
        report: b"",
    },
    // 65,537 bytes that would fill the report
    Case {
        unit: b"restart 0\n",
        times: 6553,
        tail: b"read 99",
        size: 65536,
        rows: 0,
        used: 0,
        end: TextTooLong,
        report: b"",
    },
    // 131,072 bytes
    Case {
        unit: b"x\n",
        times: 65536,
        tail: b"",
        size: 65536,
        rows: 0,
        used: 0,
        end: TextTooLong,
        report: b"",
    },
    // 65,537 bytes, 64 report bytes
    Case {
        unit: b"x",
        times: 65537,
        tail: b"",
        size: 64,
        rows: 0,
        used: 0,
        end: TextTooLong,
        report: b"",
    },
    // 65,537 bytes, 63 report bytes
    Case {
        unit: b"x",
        times: 65537,
        tail: b"",
        size: 63,
        rows: 0,
        used: 0,
        end: ReportFull,
        report: b"",
    },
    // 65,537 bytes, no report bytes
    Case {
        unit: b"x\n",
        times: 32768,
        tail: b"x",
        size: 0,
        rows: 0,
        used: 0,
        end: ReportFull,
        report: b"",
    },
    // 65,536 bytes, 63 report bytes
    Case {
        unit: b"x",
        times: 65536,
        tail: b"",
        size: 63,
        rows: 0,
        used: 0,
        end: ReportFull,
        report: b"",
    },
    // 65,537 bytes, 63 report bytes, and no row
    Case {
        unit: b"\n",
        times: 65537,
        tail: b"",
        size: 63,
        rows: 0,
        used: 0,
        end: TextTooLong,
        report: b"",
    },
    // 65,537 bytes, no report bytes, and no row
    Case {
        unit: b"\n",
        times: 65537,
        tail: b"",
        size: 0,
        rows: 0,
        used: 0,
        end: TextTooLong,
        report: b"",
    },
];

pub const DECIMAL_TEXTS: [Case; 4] = [
    // a turn and a restart
    Case {
        unit: b"",
        times: 0,
        tail: b"turn 3 0e0 1000000e-6\nread 3\nrestart 3\nread 3\n",
        size: 65536,
        rows: 4,
        used: 46,
        end: Done,
        report: b"1 1\n2 1 0e0 1000000e-6\n3 0\n4 0 1000000e-6 0e0\n",
    },
    // a refused turn leaves its lane
    Case {
        unit: b"",
        times: 0,
        tail: b"turn 3 1000000e200 0e0\nturn 3 1000000e200 0e0\nread 3\n",
        size: 65536,
        rows: 3,
        used: 34,
        end: Done,
        report: b"1 1\n2 no 33 0\n3 1 1000000e200 0e0\n",
    },
    // 100 report bytes
    Case {
        unit: b"",
        times: 0,
        tail: b"read 0\nread 0\nread 0\n",
        size: 100,
        rows: 2,
        used: 38,
        end: ReportFull,
        report: b"1 0 1000000e-6 0e0\n2 0 1000000e-6 0e0\n",
    },
    // readings fill the report
    Case {
        unit: b"read 0\n",
        times: 9362,
        tail: b"",
        size: 65536,
        rows: 3027,
        used: 65487,
        end: ReportFull,
        report: b"3027 0 1000000e-6 0e0\n",
    },
];

pub const SYMMETRIC_TEXTS: [Case; 3] = [
    // Kahan's method would be one unit off
    Case {
        unit: b"",
        times: 0,
        tail: b"sum 16777215p0 8388610p-2 16777215p0 8388609p-2\n",
        size: 65536,
        rows: 1,
        used: 13,
        end: Done,
        report: b"1 8388608p23\n",
    },
    // a turn and a restart
    Case {
        unit: b"",
        times: 0,
        tail: b"turn 3 0p0 8388608p-23\nread 3\nrestart 3\nread 3\n",
        size: 65536,
        rows: 4,
        used: 48,
        end: Done,
        report: b"1 1\n2 1 0p0 8388608p-23\n3 0\n4 0 8388608p-23 0p0\n",
    },
    // the other kind's mark
    Case {
        unit: b"",
        times: 0,
        tail: b"sum 0p0 0p0 0p0 0e0\n",
        size: 65536,
        rows: 1,
        used: 10,
        end: Done,
        report: b"1 no 45 5\n",
    },
];

pub const ANSWERED: [Line; 18] = [
    // 2 x 3 + 5 x 7 = 41
    (
        b"sum 8388608p-22 12582912p-22 10485760p-21 14680064p-21",
        b"1 10747904p-18\n",
    ),
    // 2 x 7 - 3 x 5 = -1
    (
        b"det 8388608p-22 12582912p-22 10485760p-21 14680064p-21",
        b"1 -8388608p-23\n",
    ),
    // (2 + 3i)(5 + 7i) = -11 + 29i
    (
        b"mul 8388608p-22 12582912p-22 10485760p-21 14680064p-21",
        b"1 -11534336p-20 15204352p-19\n",
    ),
    // zeros alone
    (b"sum 0p0 0p0 0p0 0p0", b"1 0p0\n"),
    // zeros alone
    (b"mul 0p0 0p0 0p0 0p0", b"1 0p0 0p0\n"),
    // all is cancelled
    (
        b"sum 8388609p7 8388611p-9 -8388611p-9 8388609p7",
        b"1 0p0\n",
    ),
    // nearly all is cancelled
    (
        b"det 8388609p-23 8388608p-23 8388610p-23 8388609p-23",
        b"1 8388608p-69\n",
    ),
    // Kahan's method is one unit off
    (
        b"sum 16777215p0 8388610p-2 16777215p0 8388609p-2",
        b"1 8388609p23\n",
    ),
    // a tie, to the even neighbour above
    (b"sum 12582912p-23 8388609p-23 0p0 0p0", b"1 12582914p-23\n"),
    // a tie, to the even neighbour below
    (b"sum 0p0 0p0 12582912p-23 8388611p-23", b"1 12582916p-23\n"),
    // a tie, to a power of two
    (
        b"sum 16777215p0 8388608p-23 8388608p-24 8388608p-23",
        b"1 8388608p1\n",
    ),
    // just below a power of two
    (
        b"det 8388608p0 8388608p-25 8388608p-23 8388608p-23",
        b"1 8388608p0\n",
    ),
    // the largest exponents
    (
        b"sum 8388608p200 8388608p200 8388608p200 8388608p200",
        b"1 8388608p424\n",
    ),
    // the largest figures
    (
        b"det 16777215p200 -16777215p200 16777215p200 16777215p200",
        b"1 16777214p425\n",
    ),
    // the smallest exponents
    (
        b"mul 8388608p-200 0p0 -8388608p-200 0p0",
        b"1 -8388608p-377 0p0\n",
    ),
    // a fresh lane
    (b"read 0", b"1 0 8388608p-23 0p0\n"),
    // the last lane
    (b"read 9", b"1 0 8388608p-23 0p0\n"),
    // a fresh lane is fresh again
    (b"restart 0", b"1 0\n"),
];

pub const TOO_LONG: [Line; 10] = [
    // 80 bytes that are no verb
    (
        b"xxxxxxxxxxxxxxxxxxxxxxxxxxxxxxxxxxxxxxxxxxxxxxxxxxxxxxxxxxxxxxxxxxxxxxxxxxxxxxxx",
        b"1 no 43 1\n",
    ),
    // 81 bytes that are no verb
    (
        b"xxxxxxxxxxxxxxxxxxxxxxxxxxxxxxxxxxxxxxxxxxxxxxxxxxxxxxxxxxxxxxxxxxxxxxxxxxxxxxxxx",
        b"1 no 41 0\n",
    ),
    // 80 bytes of a call and of spaces
    (
        b"read 0                                                                          ",
        b"1 no 42 0\n",
    ),
    // 81 bytes of a call and of spaces
    (
        b"read 0                                                                           ",
        b"1 no 41 0\n",
    ),
    // 80 spaces
    (
        b"                                                                                ",
        b"1 no 43 1\n",
    ),
    // 81 spaces
    (
        b"                                                                                 ",
        b"1 no 41 0\n",
    ),
    // 80 bytes, a byte 13 the last of them
    (
        b"xxxxxxxxxxxxxxxxxxxxxxxxxxxxxxxxxxxxxxxxxxxxxxxxxxxxxxxxxxxxxxxxxxxxxxxxxxxxxxx\r",
        b"1 no 43 1\n",
    ),
    // a byte 13 counts
    (
        b"xxxxxxxxxxxxxxxxxxxxxxxxxxxxxxxxxxxxxxxxxxxxxxxxxxxxxxxxxxxxxxxxxxxxxxxxxxxxxxxx\r",
        b"1 no 41 0\n",
    ),
    // a call with a last word of 72 bytes
    (
        b"turn 3 0000000000000000000000000000000000000000000000000000000000000000000000000",
        b"1 no 42 0\n",
    ),
    // a call with a last word of 73 bytes
    (
        b"turn 3 00000000000000000000000000000000000000000000000000000000000000000000000000",
        b"1 no 41 0\n",
    ),
];

pub const UNKNOWN_VERBS: [Line; 21] = [
    // capitals
    (b"SUM 0p0 0p0 0p0 0p0", b"1 no 43 1\n"),
    // a capital
    (b"Read 0", b"1 no 43 1\n"),
    // a verb and a letter
    (b"reads 0", b"1 no 43 1\n"),
    // a verb less a letter
    (b"rea 0", b"1 no 43 1\n"),
    // a verb and a byte 9
    (b"read\t0", b"1 no 43 1\n"),
    // a verb and a byte 0
    (b"read\x00 0", b"1 no 43 1\n"),
    // two verbs in one
    (b"turnread 3", b"1 no 43 1\n"),
    // a longer name
    (b"determinant 0p0 0p0 0p0 0p0", b"1 no 43 1\n"),
    // a number for a verb
    (b"0p0 0p0 0p0 0p0 0p0", b"1 no 43 1\n"),
    // a lane for a verb
    (b"3", b"1 no 43 1\n"),
    // a space before the verb
    (b" read 0", b"1 no 43 1\n"),
    // one space
    (b" ", b"1 no 43 1\n"),
    // a byte 13 alone
    (b"\r", b"1 no 43 1\n"),
    // a byte 9 alone
    (b"\t", b"1 no 43 1\n"),
    // a byte 0 alone
    (b"\x00", b"1 no 43 1\n"),
    // a byte above 127 alone
    (b"\xff", b"1 no 43 1\n"),
    // letters above 127
    (b"s\xc3\xbcm 0p0 0p0 0p0 0p0", b"1 no 43 1\n"),
    // a space of two bytes
    (b"read\xc2\xa00", b"1 no 43 1\n"),
    // no verb and too few words
    (b"add", b"1 no 43 1\n"),
    // no verb and too many words
    (b"add 1 2 3 4 5 6 7", b"1 no 43 1\n"),
    // no verb and no number
    (b"add x x x x", b"1 no 43 1\n"),
];

pub const WORD_COUNTS: [Line; 17] = [
    // a verb alone
    (b"sum", b"1 no 42 0\n"),
    // a verb alone
    (b"read", b"1 no 42 0\n"),
    // a verb and a byte less
    (b"sum 0p0 0p0 0p0", b"1 no 42 0\n"),
    // one number too many
    (b"sum 0p0 0p0 0p0 0p0 0p0", b"1 no 42 0\n"),
    // one number too few
    (b"det 0p0 0p0 0p0", b"1 no 42 0\n"),
    // one number too many
    (b"mul 0p0 0p0 0p0 0p0 0p0", b"1 no 42 0\n"),
    // one number too few
    (b"turn 3 0p0", b"1 no 42 0\n"),
    // one number too many
    (b"turn 3 0p0 0p0 0p0", b"1 no 42 0\n"),
    // no lane
    (b"restart", b"1 no 42 0\n"),
    // two lanes
    (b"restart 3 3", b"1 no 42 0\n"),
    // two lanes
    (b"read 3 3", b"1 no 42 0\n"),
    // a space behind the last word
    (b"read 0 ", b"1 no 42 0\n"),
    // a doubled space
    (b"read  0", b"1 no 42 0\n"),
    // a doubled space
    (b"sum 0p0 0p0  0p0 0p0", b"1 no 42 0\n"),
    // too few words, and one is no number
    (b"sum x", b"1 no 42 0\n"),
    // too many words, and one has the other mark
    (b"turn 3 0e0 0p0 0p0", b"1 no 42 0\n"),
    // too many words, and the first is no lane
    (b"read x 0", b"1 no 42 0\n"),
];

pub const NUMBER_WORDS: [Line; 61] = [
    // a word that is no number
    (b"sum -0p0 0p0 0p0 0p0", b"1 no 44 2\n"),
    // a word that is no number
    (b"sum 0p0 0p-0 0p0 0p0", b"1 no 44 3\n"),
    // a word that is no number
    (b"sum 0p0 0p0 -0p5 0p0", b"1 no 44 4\n"),
    // a word that is no number
    (b"sum 0p0 0p0 0p0 00p0", b"1 no 44 5\n"),
    // a word that is no number
    (b"sum 0p00 0p0 0p0 0p0", b"1 no 44 2\n"),
    // a word that is no number
    (b"sum 0p0 0p05 0p0 0p0", b"1 no 44 3\n"),
    // a word that is no number
    (b"sum 0p0 0p0 01p0 0p0", b"1 no 44 4\n"),
    // a word that is no number
    (b"sum 0p0 0p0 0p0 -01p0", b"1 no 44 5\n"),
    // a word that is no number
    (b"sum 1p01 0p0 0p0 0p0", b"1 no 44 2\n"),
    // a word that is no number
    (b"sum 0p0 1p-01 0p0 0p0", b"1 no 44 3\n"),
    // a word that is no number
    (b"sum 0p0 0p0 123456789p0 0p0", b"1 no 44 4\n"),
    // a word that is no number
    (b"sum 0p0 0p0 0p0 -123456789p0", b"1 no 44 5\n"),
    // a word that is no number
    (b"sum 000000000p0 0p0 0p0 0p0", b"1 no 44 2\n"),
    // a word that is no number
    (b"sum 0p0 4294967296p0 0p0 0p0", b"1 no 44 3\n"),
    // a word that is no number
    (b"sum 0p0 0p0 1p12345 0p0", b"1 no 44 4\n"),
    // a word that is no number
    (b"sum 0p0 0p0 0p0 1p-12345", b"1 no 44 5\n"),
    // a word that is no number
    (b"sum 1p00000 0p0 0p0 0p0", b"1 no 44 2\n"),
    // a word that is no number
    (b"sum 0p0 1P0 0p0 0p0", b"1 no 44 3\n"),
    // a word that is no number
    (b"sum 0p0 0p0 0E0 0p0", b"1 no 44 4\n"),
    // a word that is no number
    (b"sum 0p0 0p0 0p0 1x0", b"1 no 44 5\n"),
    // a word that is no number
    (b"sum +1p0 0p0 0p0 0p0", b"1 no 44 2\n"),
    // a word that is no number
    (b"sum 0p0 1p+1 0p0 0p0", b"1 no 44 3\n"),
    // a word that is no number
    (b"sum 0p0 0p0 --1p0 0p0", b"1 no 44 4\n"),
    // a word that is no number
    (b"sum 0p0 0p0 0p0 1p--1", b"1 no 44 5\n"),
    // a word that is no number
    (b"sum 1p 0p0 0p0 0p0", b"1 no 44 2\n"),
    // a word that is no number
    (b"sum 0p0 p1 0p0 0p0", b"1 no 44 3\n"),
    // a word that is no number
    (b"sum 0p0 0p0 -p1 0p0", b"1 no 44 4\n"),
    // a word that is no number
    (b"sum 0p0 0p0 0p0 1p-", b"1 no 44 5\n"),
    // a word that is no number
    (b"sum p 0p0 0p0 0p0", b"1 no 44 2\n"),
    // a word that is no number
    (b"sum 0p0 - 0p0 0p0", b"1 no 44 3\n"),
    // a word that is no number
    (b"sum 0p0 0p0 1 0p0", b"1 no 44 4\n"),
    // a word that is no number
    (b"sum 0p0 0p0 0p0 1.5p0", b"1 no 44 5\n"),
    // a word that is no number
    (b"sum 1pp0 0p0 0p0 0p0", b"1 no 44 2\n"),
    // a word that is no number
    (b"sum 0p0 1p0p0 0p0 0p0", b"1 no 44 3\n"),
    // a word that is no number
    (b"sum 0p0 0p0 1p0e0 0p0", b"1 no 44 4\n"),
    // a word that is no number
    (b"sum 0p0 0p0 0p0 0e0x", b"1 no 44 5\n"),
    // a word that is no number
    (b"sum x0p0 0p0 0p0 0p0", b"1 no 44 2\n"),
    // a word that is no number
    (b"sum 0p0 0p0\r 0p0 0p0", b"1 no 44 3\n"),
    // a word that is no number
    (b"sum 0p0 0p0 0p0\t 0p0", b"1 no 44 4\n"),
    // a word that is no number
    (b"sum 0p0 0p0 0p0 \t0p0", b"1 no 44 5\n"),
    // a word that is no number
    (b"sum 0p\x000 0p0 0p0 0p0", b"1 no 44 2\n"),
    // a word that is no number
    (b"sum 0p0 0p0\x00 0p0 0p0", b"1 no 44 3\n"),
    // a word that is no number
    (b"sum 0p0 0p0 /p0 0p0", b"1 no 44 4\n"),
    // a word that is no number
    (b"sum 0p0 0p0 0p0 :p0", b"1 no 44 5\n"),
    // a word that is no number
    (b"sum 1p/ 0p0 0p0 0p0", b"1 no 44 2\n"),
    // a word that is no number
    (b"sum 0p0 1p: 0p0 0p0", b"1 no 44 3\n"),
    // a word that is no number
    (b"sum 0p0 0p0 1\xb9p0 0p0", b"1 no 44 4\n"),
    // a word that is no number
    (b"sum 0p0 0p0 0p0 \xb9p0", b"1 no 44 5\n"),
    // a word that is no number
    (b"sum 1p\xb2 0p0 0p0 0p0", b"1 no 44 2\n"),
    // a word that is no number
    (b"sum 0p0 \xef\xbc\x91p0 0p0 0p0", b"1 no 44 3\n"),
    // a word that is no number
    (b"sum 0p0 0p0  0p0", b"1 no 44 4\n"),
    // no number in a determinant
    (b"det 0p0 0p0 0p0 x", b"1 no 44 5\n"),
    // no number in a product
    (b"mul x 0p0 0p0 0p0", b"1 no 44 2\n"),
    // no number in a turn
    (b"turn 3 x 0p0", b"1 no 44 3\n"),
    // no number in a turn
    (b"turn 3 0p0 x", b"1 no 44 4\n"),
    // a space for the last number
    (b"turn 3 0p0 ", b"1 no 44 4\n"),
    // a doubled space, and a number too few
    (b"sum 0p0  0p0 0p0", b"1 no 44 3\n"),
    // two words that are no numbers: the left one counts
    (b"sum 0p0 x x 0p0", b"1 no 44 3\n"),
    // no number on the right of one that no method accepts
    (b"sum 1p0 x 0p0 0p0", b"1 no 44 3\n"),
    // no number on the right of another mark
    (b"sum 0e0 x 0p0 0p0", b"1 no 45 2\n"),
    // no number on the left of another mark
    (b"sum x 0e0 0p0 0p0", b"1 no 44 2\n"),
];

pub const OTHER_MARKS: [Line; 8] = [
    // the other kind's mark
    (b"sum 0e0 0p0 0p0 0p0", b"1 no 45 2\n"),
    // the other kind's mark
    (b"det 0p0 8388608e-23 0p0 0p0", b"1 no 45 3\n"),
    // the other kind's mark
    (b"mul 0p0 0p0 -1e-1 0p0", b"1 no 45 4\n"),
    // the other kind's mark
    (b"sum 0p0 0p0 0p0 1000000e-6", b"1 no 45 5\n"),
    // the other kind's mark
    (b"turn 3 1000000e-6 0e0", b"1 no 45 3\n"),
    // the other kind's mark
    (b"turn 3 0p0 0e0", b"1 no 45 4\n"),
    // no figure of either kind, by its mark
    (b"sum 99999999e9999 0p0 0p0 0p0", b"1 no 45 2\n"),
    // another mark on the right of a number that no method accepts
    (b"sum 1p0 0e0 0p0 0p0", b"1 no 45 3\n"),
];

pub const NO_LANES: [Line; 31] = [
    // a word that is no lane
    (b"read 00", b"1 no 44 2\n"),
    // a word that is no lane
    (b"read 01", b"1 no 44 2\n"),
    // a word that is no lane
    (b"read 010", b"1 no 44 2\n"),
    // a word that is no lane
    (b"read 100", b"1 no 44 2\n"),
    // a word that is no lane
    (b"read -1", b"1 no 44 2\n"),
    // a word that is no lane
    (b"read -0", b"1 no 44 2\n"),
    // a word that is no lane
    (b"read +3", b"1 no 44 2\n"),
    // a word that is no lane
    (b"read 3p0", b"1 no 44 2\n"),
    // a word that is no lane
    (b"read x", b"1 no 44 2\n"),
    // a word that is no lane
    (b"read ", b"1 no 44 2\n"),
    // a word that is no lane
    (b"read 3\r", b"1 no 44 2\n"),
    // a word that is no lane
    (b"read \t3", b"1 no 44 2\n"),
    // a word that is no lane
    (b"read 3.", b"1 no 44 2\n"),
    // a word that is no lane
    (b"read \xb3", b"1 no 44 2\n"),
    // a word that is no lane
    (b"read :", b"1 no 44 2\n"),
    // a word that is no lane
    (b"read /", b"1 no 44 2\n"),
    // no lane to restart
    (b"restart 03", b"1 no 44 2\n"),
    // no lane to turn
    (b"turn 03 0p0 0p0", b"1 no 44 2\n"),
    // no lane, and no number
    (b"turn x x x", b"1 no 44 2\n"),
    // no lane, and another mark
    (b"turn 256 0e0 0p0", b"1 no 44 2\n"),
    // no lane, and numbers that no method accepts
    (b"turn 00 1p0 1p0", b"1 no 44 2\n"),
    // the first lane that is not there
    (b"read 10", b"1 no 31 2\n"),
    // lane 11
    (b"restart 11", b"1 no 31 2\n"),
    // lane 19
    (b"read 19", b"1 no 31 2\n"),
    // lane 20
    (b"read 20", b"1 no 31 2\n"),
    // lane 90
    (b"restart 90", b"1 no 31 2\n"),
    // the last lane that is not there
    (b"read 99", b"1 no 31 2\n"),
    // lane 10 turned
    (b"turn 10 8388608p-23 0p0", b"1 no 31 2\n"),
    // lane 99, and numbers that no method accepts
    (b"turn 99 1p0 8388608p201", b"1 no 31 2\n"),
    // lane 10, and no number
    (b"turn 10 x 0p0", b"1 no 44 3\n"),
    // lane 10, and another mark
    (b"turn 10 0p0 0e0", b"1 no 45 4\n"),
];

pub const NO_FIGURES: [Line; 14] = [
    // zero with an exponent
    (b"sum 0p5 0p0 0p0 0p0", b"1 no 21 2\n"),
    // zero with an exponent
    (b"sum 0p0 0p-5 0p0 0p0", b"1 no 21 3\n"),
    // zero with an exponent that no method accepts either
    (b"sum 0p0 0p0 0p201 0p0", b"1 no 21 4\n"),
    // too few digits
    (b"sum 0p0 0p0 0p0 1p0", b"1 no 21 5\n"),
    // one below the least significand
    (b"det 8388607p0 0p0 0p0 0p0", b"1 no 21 2\n"),
    // one below the least significand
    (b"det 0p0 -8388607p0 0p0 0p0", b"1 no 21 3\n"),
    // one above the largest significand
    (b"det 0p0 0p0 16777216p0 0p0", b"1 no 21 4\n"),
    // one above the largest significand
    (b"det 0p0 0p0 0p0 -16777216p0", b"1 no 21 5\n"),
    // one beyond the exponents of figures
    (b"mul 8388608p2001 0p0 0p0 0p0", b"1 no 21 2\n"),
    // one beyond the exponents of figures
    (b"mul 0p0 8388608p-2001 0p0 0p0", b"1 no 21 3\n"),
    // the largest number
    (b"mul 0p0 0p0 99999999p9999 0p0", b"1 no 21 4\n"),
    // the smallest number
    (b"mul 0p0 0p0 0p0 -99999999p-9999", b"1 no 21 5\n"),
    // a turn by no figure
    (b"turn 3 1p0 0p0", b"1 no 21 3\n"),
    // a turn by no figure
    (b"turn 3 0p0 0p1", b"1 no 21 4\n"),
];

pub const FAR_OPERANDS: [Line; 16] = [
    // one beyond the exponents of operands
    (b"sum 8388608p201 0p0 0p0 0p0", b"1 no 22 2\n"),
    // one beyond the exponents of operands
    (b"sum 0p0 -8388608p-201 0p0 0p0", b"1 no 22 3\n"),
    // the largest exponent of figures
    (b"det 0p0 0p0 8388608p2000 0p0", b"1 no 22 4\n"),
    // the smallest exponent of figures
    (b"det 0p0 0p0 0p0 16777215p-2000", b"1 no 22 5\n"),
    // one beyond the exponents of operands
    (b"mul -16777215p201 0p0 0p0 0p0", b"1 no 22 2\n"),
    // one beyond the exponents of operands
    (b"mul 0p0 0p0 0p0 8388608p-201", b"1 no 22 5\n"),
    // a turn by an operand that is too far
    (b"turn 3 8388608p201 0p0", b"1 no 22 3\n"),
    // a turn by an operand that is too far
    (b"turn 3 0p0 8388608p-201", b"1 no 22 4\n"),
    // no figure on the right of one too far
    (b"sum 8388608p201 1p0 0p0 0p0", b"1 no 22 2\n"),
    // no figure on the left of one too far
    (b"sum 1p0 8388608p201 0p0 0p0", b"1 no 21 2\n"),
    // the second operand before the fourth
    (b"det 0p0 8388608p201 0p0 1p0", b"1 no 22 3\n"),
    // the second operand before the third
    (b"det 0p0 1p0 8388608p201 0p0", b"1 no 21 3\n"),
    // the second operand before the third
    (b"mul 0p0 8388608p201 1p0 0p0", b"1 no 22 3\n"),
    // the third operand before the fourth
    (b"mul 0p0 0p0 1p0 8388608p201", b"1 no 21 4\n"),
    // the real part before the imaginary one
    (b"turn 3 8388608p201 1p0", b"1 no 22 3\n"),
    // the real part before the imaginary one
    (b"turn 3 1p0 8388608p201", b"1 no 21 3\n"),
];

pub const DECIMAL_LINES: [Line; 30] = [
    // 2 x 3 + 5 x 7 = 41
    (
        b"sum 2000000e-6 3000000e-6 5000000e-6 7000000e-6",
        b"1 4100000e-5\n",
    ),
    // 2 x 7 - 3 x 5 = -1
    (
        b"det 2000000e-6 3000000e-6 5000000e-6 7000000e-6",
        b"1 -1000000e-6\n",
    ),
    // (2 + 3i)(5 + 7i) = -11 + 29i
    (
        b"mul 2000000e-6 3000000e-6 5000000e-6 7000000e-6",
        b"1 -1100000e-5 2900000e-5\n",
    ),
    // zeros alone
    (b"mul 0e0 0e0 0e0 0e0", b"1 0e0 0e0\n"),
    // nearly all is cancelled
    (
        b"det 1000001e-6 1000000e-6 1000002e-6 1000001e-6",
        b"1 1000000e-18\n",
    ),
    // a tie, to the even neighbour
    (b"sum 1500000e-6 1000001e-6 0e0 0e0", b"1 1500002e-6\n"),
    // a tie, to a power of ten
    (
        b"sum 9999999e0 1000000e-6 5000000e-7 1000000e-6",
        b"1 1000000e1\n",
    ),
    // the largest exponents
    (b"sum 1000000e200 1000000e200 0e0 0e0", b"1 1000000e406\n"),
    // the smallest exponents
    (
        b"sum -1000000e-200 1000000e-200 0e0 0e0",
        b"1 -1000000e-394\n",
    ),
    // a fresh lane
    (b"read 0", b"1 0 1000000e-6 0e0\n"),
    // zero with an exponent
    (b"sum 0e5 0e0 0e0 0e0", b"1 no 21 2\n"),
    // one below the least significand
    (b"sum 0e0 999999e0 0e0 0e0", b"1 no 21 3\n"),
    // one above the largest significand
    (b"det 0e0 0e0 10000000e0 0e0", b"1 no 21 4\n"),
    // a significand of the binary kind
    (b"det 0e0 0e0 0e0 16777215e0", b"1 no 21 5\n"),
    // one beyond the exponents of figures
    (b"mul 1000000e2001 0e0 0e0 0e0", b"1 no 21 2\n"),
    // one beyond the exponents of operands
    (b"mul 0e0 1000000e201 0e0 0e0", b"1 no 22 3\n"),
    // the smallest exponent of figures
    (b"turn 3 1000000e-2000 0e0", b"1 no 22 3\n"),
    // the second operand before the fourth
    (b"det 0e0 1000000e201 0e0 1e0", b"1 no 22 3\n"),
    // the other kind's mark
    (b"sum 0e0 0e0 0p0 0e0", b"1 no 45 4\n"),
    // the other kind's mark
    (b"turn 3 1000000e-6 8388608p-23", b"1 no 45 4\n"),
    // no number with the other mark
    (b"sum 0p0x 0e0 0e0 0e0", b"1 no 44 2\n"),
    // no number
    (b"sum 0e0 0e0 0e0 0e-0", b"1 no 44 5\n"),
    // no number
    (b"sum 0E0 0e0 0e0 0e0", b"1 no 44 2\n"),
    // no number on the right of another mark
    (b"sum 0p0 x 0e0 0e0", b"1 no 45 2\n"),
    // no number with two marks
    (b"sum 1e0p0 0e0 0e0 0e0", b"1 no 44 2\n"),
    // lane 10
    (b"read 10", b"1 no 31 2\n"),
    // no lane
    (b"read 010", b"1 no 44 2\n"),
    // unknown verb
    (b"Sum 0e0 0e0 0e0 0e0", b"1 no 43 1\n"),
    // too few words
    (b"sum 0e0 0e0 0e0", b"1 no 42 0\n"),
    // 81 bytes
    (
        b"eeeeeeeeeeeeeeeeeeeeeeeeeeeeeeeeeeeeeeeeeeeeeeeeeeeeeeeeeeeeeeeeeeeeeeeeeeeeeeeee",
        b"1 no 41 0\n",
    ),
];

// The sums, determinants and complex products that the program shows. (Two of the sums are shown on consoles too, by
// the other program, as calls of another type.)
use checked_calls::calls::{Arrangement, Call};
use rounding::figure;
use sentences::Four;

// 16777215/4 times 16777219, a tie that the methods take to either side.
const DIFFERING: Call = Call::Sum(
    figure!(16777215, 0),
    figure!(8388610, -2),
    figure!(16777215, 0),
    figure!(8388609, -2),
);

// -35184371040256, of which Kahan's answer is exactly 3/2 units of the last place off, the most that it can be.
const WORST: Call = Call::Sum(
    figure!(8390656, 0),
    figure!(8391680, 0),
    figure!(-11010048, 0),
    figure!(9590882, 0),
);

// A sum with a refused operand: 201 is past the exponents that a method takes.
const REFUSED: Call = Call::Sum(
    figure!(8388608, 0),
    figure!(8388608, 201),
    figure!(0, 0),
    figure!(0, 0),
);

// Determinants that cancel in every leading digit.
const NEAR_BINARY: Call = Call::Determinant(
    figure!(8388609, -23),
    figure!(8388608, -23),
    figure!(8388610, -23),
    figure!(8388609, -23),
);

const NEAR_DECIMAL: Call = Call::Determinant(
    figure!(1000001, -6),
    figure!(1000000, -6),
    figure!(1000002, -6),
    figure!(1000001, -6),
);

// The sum of two products that cancel the same way.
const SUM_DECIMAL: Call = Call::Sum(
    figure!(1000001, -6),
    figure!(1000001, -6),
    figure!(-1000002, -6),
    figure!(1000000, -6),
);

pub const CALLS: [(Arrangement, Call); 9] = [
    (Arrangement::Binary, DIFFERING),
    (Arrangement::Symmetric, DIFFERING),
    (Arrangement::Binary, WORST),
    (Arrangement::Symmetric, WORST),
    (Arrangement::Decimal, SUM_DECIMAL),
    (Arrangement::Binary, NEAR_BINARY),
    (Arrangement::Symmetric, NEAR_BINARY),
    (Arrangement::Decimal, NEAR_DECIMAL),
    (Arrangement::Binary, REFUSED),
];

// Factors a + bi and c + di whose real part cancels.
pub const PRODUCTS: [Four; 3] = [
    Four {
        by: Arrangement::Binary,
        a: figure!(8388609, -23),
        b: figure!(8388608, -23),
        c: figure!(8388609, -23),
        d: figure!(8388610, -23),
    },
    Four {
        by: Arrangement::Symmetric,
        a: figure!(8388609, -23),
        b: figure!(8388608, -23),
        c: figure!(8388609, -23),
        d: figure!(8388610, -23),
    },
    Four {
        by: Arrangement::Decimal,
        a: figure!(1000001, -6),
        b: figure!(1000000, -6),
        c: figure!(1000001, -6),
        d: figure!(1000002, -6),
    },
];

// Operations of the binary kind with their answers, written by vectors/make: do not edit by hand.
use crate::rows::{Pair, Triple};
use rounding::figure;

pub const PRODUCTS: [Pair; 22] = [
    // random operands
    Pair {
        x: figure!(-11325564, -23),
        y: figure!(12379617, 25),
        answer: figure!(-16713875, 25),
    },
    // random operands
    Pair {
        x: figure!(-15655993, 11),
        y: figure!(-8487235, 13),
        answer: figure!(15840064, 47),
    },
    // random operands
    Pair {
        x: figure!(16234293, 13),
        y: figure!(-10215572, 0),
        answer: figure!(-9884989, 37),
    },
    // random operands
    Pair {
        x: figure!(8670760, -24),
        y: figure!(-9366386, 7),
        answer: figure!(-9681426, 6),
    },
    // random operands
    Pair {
        x: figure!(9845934, 21),
        y: figure!(15949597, 2),
        answer: figure!(9360235, 47),
    },
    // random operands
    Pair {
        x: figure!(8598362, -23),
        y: figure!(-14581105, 2),
        answer: figure!(-14945700, 2),
    },
    // a tie: the significand below is even
    Pair {
        x: figure!(9984863, 24),
        y: figure!(12582912, -8),
        answer: figure!(14977294, 39),
    },
    // a tie: the significand below is even
    Pair {
        x: figure!(-9779067, 19),
        y: figure!(12582912, 28),
        answer: figure!(-14668600, 70),
    },
    // a tie: the significand above is even
    Pair {
        x: figure!(9404905, -14),
        y: figure!(12582912, 28),
        answer: figure!(14107358, 37),
    },
    // a tie: the significand above is even
    Pair {
        x: figure!(-10193933, -27),
        y: figure!(12582912, -16),
        answer: figure!(-15290900, -20),
    },
    // one below a tie
    Pair {
        x: figure!(12305455, -6),
        y: figure!(10747185, -11),
        answer: figure!(15765309, 6),
    },
    // one below a tie
    Pair {
        x: figure!(-13510521, 27),
        y: figure!(14642487, -18),
        answer: figure!(-11791445, 33),
    },
    // one above a tie
    Pair {
        x: figure!(12672051, 8),
        y: figure!(13696763, -13),
        answer: figure!(10345345, 19),
    },
    // one above a tie
    Pair {
        x: figure!(-10858621, 7),
        y: figure!(9783509, -18),
        answer: figure!(-12664249, 12),
    },
    // just below a power of the radix, to which it is rounded
    Pair {
        x: figure!(12708982, 3),
        y: figure!(11073860, -8),
        answer: figure!(8388608, 19),
    },
    // just above a power of the radix
    Pair {
        x: figure!(12708982, 3),
        y: figure!(-11073861, -8),
        answer: figure!(-8388609, 19),
    },
    // the largest significands
    Pair {
        x: figure!(16777215, 5),
        y: figure!(16777215, -9),
        answer: figure!(16777214, 20),
    },
    // the largest significand and a power of the radix: exact
    Pair {
        x: figure!(-16777215, 5),
        y: figure!(8388608, 11),
        answer: figure!(-16777215, 39),
    },
    // the least significands: exact
    Pair {
        x: figure!(8388608, -4),
        y: figure!(-8388608, -6),
        answer: figure!(-8388608, 13),
    },
    // next above the least significands
    Pair {
        x: figure!(8388609, -4),
        y: figure!(8388609, 6),
        answer: figure!(8388610, 25),
    },
    // zero on the left
    Pair {
        x: figure!(0, 0),
        y: figure!(-11635604, -1),
        answer: figure!(0, 0),
    },
    // zero on the right
    Pair {
        x: figure!(-9713874, -13),
        y: figure!(0, 0),
        answer: figure!(0, 0),
    },
];

pub const SUMS: [Pair; 28] = [
    // random operands
    Pair {
        x: figure!(-14802705, 7),
        y: figure!(14820735, 2),
        answer: figure!(-14339557, 7),
    },
    // random operands
    Pair {
        x: figure!(-15560364, 2),
        y: figure!(9231905, 12),
        answer: figure!(9216709, 12),
    },
    // random operands
    Pair {
        x: figure!(-9920464, 27),
        y: figure!(-10781389, 22),
        answer: figure!(-10257382, 27),
    },
    // random operands
    Pair {
        x: figure!(-14793000, -24),
        y: figure!(-8910040, -6),
        answer: figure!(-8910096, -6),
    },
    // random operands
    Pair {
        x: figure!(13921893, 24),
        y: figure!(8966205, 16),
        answer: figure!(13956917, 24),
    },
    // random operands
    Pair {
        x: figure!(8556669, 26),
        y: figure!(11230519, 20),
        answer: figure!(8732146, 26),
    },
    // a tie: the even significand stays
    Pair {
        x: figure!(15277114, 4),
        y: figure!(8388608, -20),
        answer: figure!(15277114, 4),
    },
    // a tie: the odd significand goes up
    Pair {
        x: figure!(15277115, 4),
        y: figure!(8388608, -20),
        answer: figure!(15277116, 4),
    },
    // a tie from above: the even significand stays
    Pair {
        x: figure!(15277114, -7),
        y: figure!(-8388608, -31),
        answer: figure!(15277114, -7),
    },
    // a tie from above: the odd significand goes down
    Pair {
        x: figure!(15277115, -7),
        y: figure!(-8388608, -31),
        answer: figure!(15277114, -7),
    },
    // a tie of a negative sum
    Pair {
        x: figure!(-15277115, 4),
        y: figure!(-8388608, -20),
        answer: figure!(-15277116, 4),
    },
    // just above a tie
    Pair {
        x: figure!(15277114, 4),
        y: figure!(8388609, -20),
        answer: figure!(15277115, 4),
    },
    // just below a tie
    Pair {
        x: figure!(15277115, 4),
        y: figure!(16777215, -21),
        answer: figure!(15277115, 4),
    },
    // a carry to the next power, exact
    Pair {
        x: figure!(16777215, 9),
        y: figure!(8388608, -14),
        answer: figure!(8388608, 10),
    },
    // a carry to the next power by a tie
    Pair {
        x: figure!(16777215, 9),
        y: figure!(8388608, -15),
        answer: figure!(8388608, 10),
    },
    // no carry: just below the tie
    Pair {
        x: figure!(16777215, 9),
        y: figure!(16777215, -16),
        answer: figure!(16777215, 9),
    },
    // below a power of the radix figures stand closer: exact
    Pair {
        x: figure!(8388608, 2),
        y: figure!(-8388608, -22),
        answer: figure!(16777215, 1),
    },
    // a tie below a power of the radix, to the power
    Pair {
        x: figure!(8388608, 2),
        y: figure!(-8388608, -23),
        answer: figure!(8388608, 2),
    },
    // past that tie
    Pair {
        x: figure!(8388608, 2),
        y: figure!(-8388609, -23),
        answer: figure!(16777215, 1),
    },
    // the last figure below a power of the radix and the power: few digits are left
    Pair {
        x: figure!(8388608, 3),
        y: figure!(-16777215, 2),
        answer: figure!(8388608, -21),
    },
    // neighbours: few digits are left
    Pair {
        x: figure!(15277117, -5),
        y: figure!(-15277114, -5),
        answer: figure!(12582912, -27),
    },
    // nearly all is cancelled over two powers
    Pair {
        x: figure!(8388609, 8),
        y: figure!(-16777215, 7),
        answer: figure!(12582912, -15),
    },
    // all is cancelled
    Pair {
        x: figure!(15277115, -12),
        y: figure!(-15277115, -12),
        answer: figure!(0, 0),
    },
    // far apart: the larger one stays
    Pair {
        x: figure!(-15277115, 60),
        y: figure!(16777215, 7),
        answer: figure!(-15277115, 60),
    },
    // far apart, the smaller one first
    Pair {
        x: figure!(-8388608, -80),
        y: figure!(15277114, 75),
        answer: figure!(15277114, 75),
    },
    // far below a power of the radix: the power stays
    Pair {
        x: figure!(8388608, 70),
        y: figure!(-8388608, -70),
        answer: figure!(8388608, 70),
    },
    // zero on the left
    Pair {
        x: figure!(0, 0),
        y: figure!(-16370864, -25),
        answer: figure!(-16370864, -25),
    },
    // zero on the right
    Pair {
        x: figure!(-13077220, 20),
        y: figure!(0, 0),
        answer: figure!(-13077220, 20),
    },
];

pub const FUSED: [Triple; 24] = [
    // random operands
    Triple {
        x: figure!(14224505, 9),
        y: figure!(14185157, -1),
        z: figure!(-15139689, 15),
        answer: figure!(12026721, 32),
    },
    // random operands
    Triple {
        x: figure!(10035480, -4),
        y: figure!(9765741, 9),
        z: figure!(13693635, 27),
        answer: figure!(9264896, 29),
    },
    // random operands
    Triple {
        x: figure!(-9470173, 12),
        y: figure!(14172639, 8),
        z: figure!(-15403093, 29),
        answer: figure!(-16000894, 43),
    },
    // random operands
    Triple {
        x: figure!(-16755599, 2),
        y: figure!(-16140107, -15),
        z: figure!(12400490, 9),
        answer: figure!(9609717, 12),
    },
    // random operands
    Triple {
        x: figure!(-8644991, 6),
        y: figure!(-12123161, 7),
        z: figure!(-15212919, 47),
        answer: figure!(-15206819, 47),
    },
    // random operands
    Triple {
        x: figure!(-10863359, -12),
        y: figure!(9348460, 5),
        z: figure!(-9750768, -6),
        answer: figure!(-12106382, 16),
    },
    // the product's rounding error: a rounded product would leave nothing
    Triple {
        x: figure!(10249297, 4),
        y: figure!(12622671, -7),
        z: figure!(-15422523, 20),
        answer: figure!(16777212, -5),
    },
    // the product's rounding error: a rounded product would leave nothing
    Triple {
        x: figure!(-14035677, 4),
        y: figure!(13959819, -7),
        z: figure!(11678666, 21),
        answer: figure!(-16777214, -4),
    },
    // a tie of the product
    Triple {
        x: figure!(9231243, 1),
        y: figure!(12582912, 2),
        z: figure!(0, 0),
        answer: figure!(13846864, 26),
    },
    // a tie that a small addend breaks upwards: a rounded product would stay
    Triple {
        x: figure!(9231243, 1),
        y: figure!(12582912, 2),
        z: figure!(8388608, -57),
        answer: figure!(13846865, 26),
    },
    // a tie that a small addend breaks downwards
    Triple {
        x: figure!(8619865, 1),
        y: figure!(12582912, 2),
        z: figure!(-8388608, -57),
        answer: figure!(12929797, 26),
    },
    // the same with all signs turned
    Triple {
        x: figure!(-8619865, 1),
        y: figure!(12582912, 2),
        z: figure!(8388608, -57),
        answer: figure!(-12929797, 26),
    },
    // the product is half a last place: a tie, the even one stays
    Triple {
        x: figure!(8388608, 0),
        y: figure!(8388608, -47),
        z: figure!(13142642, 0),
        answer: figure!(13142642, 0),
    },
    // the product is half a last place: a tie, the odd one goes up
    Triple {
        x: figure!(8388608, 0),
        y: figure!(8388608, -47),
        z: figure!(13142643, 0),
        answer: figure!(13142644, 0),
    },
    // the product is just above half a last place
    Triple {
        x: figure!(8388608, 0),
        y: figure!(8388609, -47),
        z: figure!(13142642, 0),
        answer: figure!(13142643, 0),
    },
    // a carry to the next power by a tie
    Triple {
        x: figure!(8388608, 0),
        y: figure!(8388608, -47),
        z: figure!(16777215, 0),
        answer: figure!(8388608, 1),
    },
    // a tie below a power of the radix, to the power
    Triple {
        x: figure!(8388608, 0),
        y: figure!(-8388608, -48),
        z: figure!(8388608, 0),
        answer: figure!(8388608, 0),
    },
    // all is cancelled
    Triple {
        x: figure!(13142643, 6),
        y: figure!(8388608, -2),
        z: figure!(-13142643, 27),
        answer: figure!(0, 0),
    },
    // few digits are left
    Triple {
        x: figure!(13142643, 6),
        y: figure!(-8388608, -2),
        z: figure!(13142641, 27),
        answer: figure!(-8388608, 5),
    },
    // the product far above the addend
    Triple {
        x: figure!(13142643, 20),
        y: figure!(16777215, 15),
        z: figure!(-13142642, -60),
        answer: figure!(13142642, 59),
    },
    // the addend far above the product
    Triple {
        x: figure!(13142643, -40),
        y: figure!(16777215, -35),
        z: figure!(-8388608, 60),
        answer: figure!(-8388608, 60),
    },
    // zero on the left
    Triple {
        x: figure!(0, 0),
        y: figure!(10804083, 3),
        z: figure!(-9053460, -5),
        answer: figure!(-9053460, -5),
    },
    // zero in the middle
    Triple {
        x: figure!(15482756, 3),
        y: figure!(0, 0),
        z: figure!(12521919, -5),
        answer: figure!(12521919, -5),
    },
    // the addend is zero
    Triple {
        x: figure!(13294451, 3),
        y: figure!(11254952, -5),
        z: figure!(0, 0),
        answer: figure!(8918548, 22),
    },
];

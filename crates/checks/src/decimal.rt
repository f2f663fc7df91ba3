// Operations of the decimal kind with their answers, written by vectors/make: do not edit by hand.
use crate::rows::{Pair, Triple};
use rounding::figure;

pub const PRODUCTS: [Pair; 22] = [
    // random operands
    Pair {
        x: figure!(-6053319, 863),
        y: figure!(5811068, 373),
        answer: figure!(-3517625, 1243),
    },
    // random operands
    Pair {
        x: figure!(-8018128, 172),
        y: figure!(-8298514, -472),
        answer: figure!(6653855, -293),
    },
    // random operands
    Pair {
        x: figure!(2554275, 782),
        y: figure!(9862583, -462),
        answer: figure!(2519175, 327),
    },
    // random operands
    Pair {
        x: figure!(4296345, -360),
        y: figure!(-8356467, 354),
        answer: figure!(-3590227, 1),
    },
    // random operands
    Pair {
        x: figure!(5227295, -430),
        y: figure!(3016205, -875),
        answer: figure!(1576659, -1298),
    },
    // random operands
    Pair {
        x: figure!(-6197575, 50),
        y: figure!(-2781064, 507),
        answer: figure!(1723585, 564),
    },
    // a tie: the significand below is even
    Pair {
        x: figure!(2918463, 617),
        y: figure!(1500000, 719),
        answer: figure!(4377694, 1342),
    },
    // a tie: the significand below is even
    Pair {
        x: figure!(-6779489, -214),
        y: figure!(5000000, 400),
        answer: figure!(-3389744, 193),
    },
    // a tie: the significand above is even
    Pair {
        x: figure!(6976527, -580),
        y: figure!(5000000, 622),
        answer: figure!(3488264, 49),
    },
    // a tie: the significand above is even
    Pair {
        x: figure!(-6067449, -126),
        y: figure!(1500000, 9),
        answer: figure!(-9101174, -111),
    },
    // one below a tie
    Pair {
        x: figure!(1486649, -856),
        y: figure!(2584151, 522),
        answer: figure!(3841725, -328),
    },
    // one below a tie
    Pair {
        x: figure!(-1060789, -306),
        y: figure!(4733891, -575),
        answer: figure!(-5021659, -875),
    },
    // one above a tie
    Pair {
        x: figure!(3652719, -273),
        y: figure!(1040879, -179),
        answer: figure!(3802039, -446),
    },
    // one above a tie
    Pair {
        x: figure!(-2383203, -125),
        y: figure!(3021867, 228),
        answer: figure!(-7201723, 109),
    },
    // just below a power of the radix, to which it is rounded
    Pair {
        x: figure!(1205945, 3),
        y: figure!(8292252, -8),
        answer: figure!(1000000, 2),
    },
    // just above a power of the radix
    Pair {
        x: figure!(1205945, 3),
        y: figure!(-8292253, -8),
        answer: figure!(-1000000, 2),
    },
    // the largest significands
    Pair {
        x: figure!(9999999, 5),
        y: figure!(9999999, -9),
        answer: figure!(9999998, 3),
    },
    // the largest significand and a power of the radix: exact
    Pair {
        x: figure!(-9999999, 5),
        y: figure!(1000000, 11),
        answer: figure!(-9999999, 22),
    },
    // the least significands: exact
    Pair {
        x: figure!(1000000, -4),
        y: figure!(-1000000, -6),
        answer: figure!(-1000000, -4),
    },
    // next above the least significands
    Pair {
        x: figure!(1000001, -4),
        y: figure!(1000001, 6),
        answer: figure!(1000002, 8),
    },
    // zero on the left
    Pair {
        x: figure!(0, 0),
        y: figure!(-5085809, 287),
        answer: figure!(0, 0),
    },
    // zero on the right
    Pair {
        x: figure!(4915155, 779),
        y: figure!(0, 0),
        answer: figure!(0, 0),
    },
];

pub const SUMS: [Pair; 28] = [
    // random operands
    Pair {
        x: figure!(-8425276, 370),
        y: figure!(-1778959, 364),
        answer: figure!(-8425278, 370),
    },
    // random operands
    Pair {
        x: figure!(5896294, -678),
        y: figure!(-7282570, -673),
        answer: figure!(-7282511, -673),
    },
    // random operands
    Pair {
        x: figure!(-2376327, 883),
        y: figure!(1356457, 883),
        answer: figure!(-1019870, 883),
    },
    // random operands
    Pair {
        x: figure!(-1212732, 811),
        y: figure!(4753664, 805),
        answer: figure!(-1212727, 811),
    },
    // random operands
    Pair {
        x: figure!(-2226668, -240),
        y: figure!(8742535, -236),
        answer: figure!(8742312, -236),
    },
    // random operands
    Pair {
        x: figure!(-6416145, 177),
        y: figure!(-8832287, 173),
        answer: figure!(-6417028, 177),
    },
    // a tie: the even significand stays
    Pair {
        x: figure!(5132554, 4),
        y: figure!(5000000, -3),
        answer: figure!(5132554, 4),
    },
    // a tie: the odd significand goes up
    Pair {
        x: figure!(5132555, 4),
        y: figure!(5000000, -3),
        answer: figure!(5132556, 4),
    },
    // a tie from above: the even significand stays
    Pair {
        x: figure!(5132554, -7),
        y: figure!(-5000000, -14),
        answer: figure!(5132554, -7),
    },
    // a tie from above: the odd significand goes down
    Pair {
        x: figure!(5132555, -7),
        y: figure!(-5000000, -14),
        answer: figure!(5132554, -7),
    },
    // a tie of a negative sum
    Pair {
        x: figure!(-5132555, 4),
        y: figure!(-5000000, -3),
        answer: figure!(-5132556, 4),
    },
    // just above a tie
    Pair {
        x: figure!(5132554, 4),
        y: figure!(5000001, -3),
        answer: figure!(5132555, 4),
    },
    // just below a tie
    Pair {
        x: figure!(5132555, 4),
        y: figure!(4999999, -3),
        answer: figure!(5132555, 4),
    },
    // a carry to the next power, exact
    Pair {
        x: figure!(9999999, 9),
        y: figure!(1000000, 3),
        answer: figure!(1000000, 10),
    },
    // a carry to the next power by a tie
    Pair {
        x: figure!(9999999, 9),
        y: figure!(5000000, 2),
        answer: figure!(1000000, 10),
    },
    // no carry: just below the tie
    Pair {
        x: figure!(9999999, 9),
        y: figure!(4999999, 2),
        answer: figure!(9999999, 9),
    },
    // below a power of the radix figures stand closer: exact
    Pair {
        x: figure!(1000000, 2),
        y: figure!(-5000000, -5),
        answer: figure!(9999995, 1),
    },
    // a tie below a power of the radix, to the power
    Pair {
        x: figure!(1000000, 2),
        y: figure!(-5000000, -6),
        answer: figure!(1000000, 2),
    },
    // past that tie
    Pair {
        x: figure!(1000000, 2),
        y: figure!(-5000001, -6),
        answer: figure!(9999999, 1),
    },
    // the last figure below a power of the radix and the power: few digits are left
    Pair {
        x: figure!(1000000, 3),
        y: figure!(-9999999, 2),
        answer: figure!(1000000, -4),
    },
    // neighbours: few digits are left
    Pair {
        x: figure!(5132557, -5),
        y: figure!(-5132554, -5),
        answer: figure!(3000000, -11),
    },
    // nearly all is cancelled over two powers
    Pair {
        x: figure!(1000001, 8),
        y: figure!(-9999999, 7),
        answer: figure!(1100000, 2),
    },
    // all is cancelled
    Pair {
        x: figure!(5132555, -12),
        y: figure!(-5132555, -12),
        answer: figure!(0, 0),
    },
    // far apart: the larger one stays
    Pair {
        x: figure!(-5132555, 60),
        y: figure!(9999999, 41),
        answer: figure!(-5132555, 60),
    },
    // far apart, the smaller one first
    Pair {
        x: figure!(-1000000, -80),
        y: figure!(5132554, 75),
        answer: figure!(5132554, 75),
    },
    // far below a power of the radix: the power stays
    Pair {
        x: figure!(1000000, 70),
        y: figure!(-1000000, -70),
        answer: figure!(1000000, 70),
    },
    // zero on the left
    Pair {
        x: figure!(0, 0),
        y: figure!(4003988, -400),
        answer: figure!(4003988, -400),
    },
    // zero on the right
    Pair {
        x: figure!(8422609, 451),
        y: figure!(0, 0),
        answer: figure!(8422609, 451),
    },
];

pub const FUSED: [Triple; 24] = [
    // random operands
    Triple {
        x: figure!(-4004565, -349),
        y: figure!(6214835, -176),
        z: figure!(-7167969, -518),
        answer: figure!(-9656740, -518),
    },
    // random operands
    Triple {
        x: figure!(-3418638, 229),
        y: figure!(-1644649, -438),
        z: figure!(4323293, -208),
        answer: figure!(5622503, -203),
    },
    // random operands
    Triple {
        x: figure!(8528833, -241),
        y: figure!(-4725154, 370),
        z: figure!(8926154, 134),
        answer: figure!(-3940743, 136),
    },
    // random operands
    Triple {
        x: figure!(-2176853, 32),
        y: figure!(-5194007, 354),
        z: figure!(2122765, 388),
        answer: figure!(1130680, 393),
    },
    // random operands
    Triple {
        x: figure!(-3091324, -211),
        y: figure!(-8112964, -133),
        z: figure!(-4017036, -332),
        answer: figure!(-4017011, -332),
    },
    // random operands
    Triple {
        x: figure!(-8372195, -161),
        y: figure!(8472557, 216),
        z: figure!(6017109, 64),
        answer: figure!(5946175, 64),
    },
    // the product's rounding error: a rounded product would leave nothing
    Triple {
        x: figure!(3279573, 4),
        y: figure!(1555363, -7),
        z: figure!(-5100926, 3),
        answer: figure!(4999990, -4),
    },
    // the product's rounding error: a rounded product would leave nothing
    Triple {
        x: figure!(-6259927, 4),
        y: figure!(1070137, -7),
        z: figure!(6698979, 3),
        answer: figure!(-4999990, -4),
    },
    // a tie of the product
    Triple {
        x: figure!(1229807, 1),
        y: figure!(3500000, 2),
        z: figure!(0, 0),
        answer: figure!(4304324, 9),
    },
    // a tie that a small addend breaks upwards: a rounded product would stay
    Triple {
        x: figure!(1229807, 1),
        y: figure!(3500000, 2),
        z: figure!(1000000, -23),
        answer: figure!(4304325, 9),
    },
    // a tie that a small addend breaks downwards
    Triple {
        x: figure!(2688161, 1),
        y: figure!(3500000, 2),
        z: figure!(-1000000, -23),
        answer: figure!(9408563, 9),
    },
    // the same with all signs turned
    Triple {
        x: figure!(-2688161, 1),
        y: figure!(3500000, 2),
        z: figure!(1000000, -23),
        answer: figure!(-9408563, 9),
    },
    // the product is half a last place: a tie, the even one stays
    Triple {
        x: figure!(1000000, 0),
        y: figure!(5000000, -13),
        z: figure!(7870704, 0),
        answer: figure!(7870704, 0),
    },
    // the product is half a last place: a tie, the odd one goes up
    Triple {
        x: figure!(1000000, 0),
        y: figure!(5000000, -13),
        z: figure!(7870705, 0),
        answer: figure!(7870706, 0),
    },
    // the product is just above half a last place
    Triple {
        x: figure!(1000000, 0),
        y: figure!(5000001, -13),
        z: figure!(7870704, 0),
        answer: figure!(7870705, 0),
    },
    // a carry to the next power by a tie
    Triple {
        x: figure!(1000000, 0),
        y: figure!(5000000, -13),
        z: figure!(9999999, 0),
        answer: figure!(1000000, 1),
    },
    // a tie below a power of the radix, to the power
    Triple {
        x: figure!(1000000, 0),
        y: figure!(-5000000, -14),
        z: figure!(1000000, 0),
        answer: figure!(1000000, 0),
    },
    // all is cancelled
    Triple {
        x: figure!(7870705, 6),
        y: figure!(1000000, -2),
        z: figure!(-7870705, 10),
        answer: figure!(0, 0),
    },
    // few digits are left
    Triple {
        x: figure!(7870705, 6),
        y: figure!(-1000000, -2),
        z: figure!(7870703, 10),
        answer: figure!(-2000000, 4),
    },
    // the product far above the addend
    Triple {
        x: figure!(7870705, 20),
        y: figure!(9999999, 15),
        z: figure!(-7870704, -60),
        answer: figure!(7870704, 42),
    },
    // the addend far above the product
    Triple {
        x: figure!(7870705, -40),
        y: figure!(9999999, -35),
        z: figure!(-1000000, 60),
        answer: figure!(-1000000, 60),
    },
    // zero on the left
    Triple {
        x: figure!(0, 0),
        y: figure!(9437644, 3),
        z: figure!(4125037, -5),
        answer: figure!(4125037, -5),
    },
    // zero in the middle
    Triple {
        x: figure!(8903467, 3),
        y: figure!(0, 0),
        z: figure!(-7675878, -5),
        answer: figure!(-7675878, -5),
    },
    // the addend is zero
    Triple {
        x: figure!(-9318016, 3),
        y: figure!(2427412, -5),
        z: figure!(0, 0),
        answer: figure!(-2261866, 5),
    },
];

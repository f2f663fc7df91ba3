// A run of a decimal console by Kahan's method, written by vectors/make_runs: do not edit by hand.
use crate::rows::Row;
use console::Reading;
use histories::Call::*;
use rounding::Refusal::*;
use rounding::figure;
use runs::Answer::*;

pub const RUN: [Row; 242] = [
    (Turn(0, figure!(1000000, 200), figure!(0, 0)), Ok(Count(1))),
    (
        Turn(0, figure!(1000000, 200), figure!(0, 0)),
        Err(PhasorRange),
    ),
    (
        Turn(0, figure!(1000000, 201), figure!(0, 0)),
        Err(OperandRange),
    ),
    (
        Read(0),
        Ok(Shown(Reading {
            count: 1,
            real: figure!(1000000, 200),
            imaginary: figure!(0, 0),
        })),
    ),
    (Turn(2, figure!(0, 0), figure!(1000000, -200)), Ok(Count(1))),
    (
        Turn(2, figure!(1000000, -200), figure!(0, 0)),
        Err(PhasorRange),
    ),
    (
        Turn(2, figure!(0, 0), figure!(1000000, -200)),
        Err(PhasorRange),
    ),
    (
        Read(2),
        Ok(Shown(Reading {
            count: 1,
            real: figure!(0, 0),
            imaginary: figure!(1000000, -200),
        })),
    ),
    (Turn(4, figure!(0, 0), figure!(0, 0)), Ok(Count(1))),
    (
        Turn(4, figure!(8275191, -6), figure!(-4176979, -6)),
        Ok(Count(2)),
    ),
    (
        Read(4),
        Ok(Shown(Reading {
            count: 2,
            real: figure!(0, 0),
            imaginary: figure!(0, 0),
        })),
    ),
    (
        Determinant(
            figure!(-8967627, -7),
            figure!(8364915, -6),
            figure!(6777574, -7),
            figure!(999999, 0),
        ),
        Err(OperandNoFigure),
    ),
    (
        Turn(3, figure!(-6857027, -7), figure!(-2445010, -7)),
        Ok(Count(1)),
    ),
    (
        Turn(9, figure!(9320244, -6), figure!(-3038617, -7)),
        Ok(Count(1)),
    ),
    (
        Turn(0, figure!(2486212, -7), figure!(1, 0)),
        Err(OperandNoFigure),
    ),
    (Restart(9), Ok(Count(0))),
    (
        Turn(8, figure!(1220782, -6), figure!(-8900826, -7)),
        Ok(Count(1)),
    ),
    (
        Turn(99, figure!(-2115260, -7), figure!(-1719530, -7)),
        Err(NoLane),
    ),
    (
        Turn(7, figure!(6054983, -7), figure!(5630807, -6)),
        Ok(Count(1)),
    ),
    (
        Turn(3, figure!(-10000000, -3), figure!(6806703, -7)),
        Err(OperandNoFigure),
    ),
    (
        Turn(7, figure!(9375020, -6), figure!(-4426755, -7)),
        Ok(Count(2)),
    ),
    (
        Turn(7, figure!(5388982, -7), figure!(-9498500, -7)),
        Ok(Count(3)),
    ),
    (Turn(7, figure!(0, 0), figure!(-4435703, -7)), Ok(Count(4))),
    (
        Turn(1, figure!(6851354, -7), figure!(-1951389, -7)),
        Ok(Count(1)),
    ),
    (
        Turn(3, figure!(3091074, -7), figure!(6046869, -6)),
        Ok(Count(2)),
    ),
    (
        Turn(1, figure!(-1141067, -7), figure!(9187728, -7)),
        Ok(Count(2)),
    ),
    (
        Turn(3, figure!(2436439, -6), figure!(-4921246, -7)),
        Ok(Count(3)),
    ),
    (
        Sum(
            figure!(2285743, -7),
            figure!(7988762, -7),
            figure!(0, 0),
            figure!(9173492, -6),
        ),
        Ok(Value(figure!(1826026, -7))),
    ),
    (
        Sum(
            figure!(-6672842, -7),
            figure!(-1810331, -7),
            figure!(-5279454, -7),
            figure!(-8757834, -7),
        ),
        Ok(Value(figure!(5831663, -7))),
    ),
    (
        Turn(3, figure!(5598780, -7), figure!(7630630, -7)),
        Ok(Count(4)),
    ),
    (
        Turn(3, figure!(-8835527, -7), figure!(7480303, -7)),
        Ok(Count(5)),
    ),
    (Restart(0), Ok(Count(0))),
    (
        Read(7),
        Ok(Shown(Reading {
            count: 4,
            real: figure!(9112673, -6),
            imaginary: figure!(-2408113, -5),
        })),
    ),
    (
        Turn(7, figure!(-2019543, -7), figure!(1535422, -7)),
        Ok(Count(5)),
    ),
    (
        Turn(0, figure!(-4583818, -7), figure!(-1041471, -6)),
        Ok(Count(1)),
    ),
    (
        Turn(0, figure!(-2784249, -6), figure!(9250512, -7)),
        Ok(Count(2)),
    ),
    (Restart(8), Ok(Count(0))),
    (
        Turn(8, figure!(0, 5), figure!(-9899471, -7)),
        Err(OperandNoFigure),
    ),
    (
        Read(7),
        Ok(Shown(Reading {
            count: 5,
            real: figure!(1857127, -6),
            imaginary: figure!(6262468, -6),
        })),
    ),
    (
        Turn(7, figure!(5873028, -7), figure!(2388710, -6)),
        Ok(Count(6)),
    ),
    (
        Read(3),
        Ok(Shown(Reading {
            count: 5,
            real: figure!(-3860421, -6),
            imaginary: figure!(1136663, -5),
        })),
    ),
    (Turn(3, figure!(0, 0), figure!(-7243213, -6)), Ok(Count(6))),
    (
        Turn(0, figure!(8783878, -7), figure!(7615080, -7)),
        Ok(Count(3)),
    ),
    (
        Turn(3, figure!(1, 0), figure!(-8681186, -7)),
        Err(OperandNoFigure),
    ),
    (
        Read(8),
        Ok(Shown(Reading {
            count: 0,
            real: figure!(1000000, -6),
            imaginary: figure!(0, 0),
        })),
    ),
    (
        Turn(3, figure!(2943072, -7), figure!(-2580867, -6)),
        Ok(Count(7)),
    ),
    (Turn(3, figure!(3847102, -7), figure!(0, 0)), Ok(Count(8))),
    (Turn(1, figure!(0, 0), figure!(7932543, -7)), Ok(Count(3))),
    (
        Turn(1, figure!(1549636, -7), figure!(5626886, -7)),
        Ok(Count(4)),
    ),
    (
        Turn(8, figure!(1839694, -6), figure!(-8998149, -7)),
        Ok(Count(1)),
    ),
    (
        Turn(9, figure!(-5423355, -7), figure!(9243396, -7)),
        Ok(Count(1)),
    ),
    (
        Turn(7, figure!(-7647473, -7), figure!(9680943, -6)),
        Ok(Count(7)),
    ),
    (Restart(8), Ok(Count(0))),
    (
        Product(
            figure!(-8448822, -7),
            figure!(7293997, -6),
            figure!(8620386, -7),
            figure!(4077922, -7),
        ),
        Ok(Parts(figure!(-3702756, -6), figure!(5943171, -6))),
    ),
    (Turn(7, figure!(9509631, -6), figure!(0, 0)), Ok(Count(8))),
    (
        Turn(3, figure!(7558074, -7), figure!(8210781, -7)),
        Ok(Count(9)),
    ),
    (
        Product(
            figure!(-6338299, -6),
            figure!(-1002602, -7),
            figure!(4228049, -7),
            figure!(-2230728, -7),
        ),
        Ok(Parts(figure!(-2702229, -6), figure!(1371512, -6))),
    ),
    (
        Determinant(
            figure!(-6741020, -7),
            figure!(7087098, -7),
            figure!(-6848369, -6),
            figure!(4041882, -7),
        ),
        Ok(Value(figure!(4581042, -6))),
    ),
    (
        Read(3),
        Ok(Shown(Reading {
            count: 9,
            real: figure!(9254861, -5),
            imaginary: figure!(-2894139, -5),
        })),
    ),
    (
        Turn(9, figure!(-8725192, -6), figure!(4360939, -7)),
        Ok(Count(2)),
    ),
    (
        Turn(3, figure!(1691215, -7), figure!(-3934950, -7)),
        Ok(Count(10)),
    ),
    (
        Turn(7, figure!(5479419, -6), figure!(-7529315, -7)),
        Ok(Count(9)),
    ),
    (
        Turn(7, figure!(-8401468, -7), figure!(-7899666, -7)),
        Ok(Count(10)),
    ),
    (
        Turn(9, figure!(-1241823, -7), figure!(2000618, -6)),
        Ok(Count(3)),
    ),
    (
        Turn(7, figure!(9026163, -7), figure!(-5544898, -6)),
        Ok(Count(11)),
    ),
    (
        Read(7),
        Ok(Shown(Reading {
            count: 11,
            real: figure!(5032003, -2),
            imaginary: figure!(1717383, -2),
        })),
    ),
    (
        Sum(
            figure!(-1040696, -7),
            figure!(-6008180, -6),
            figure!(-4340337, -6),
            figure!(-8522149, -7),
        ),
        Ok(Value(figure!(4324169, -6))),
    ),
    (
        Determinant(
            figure!(9504985, -6),
            figure!(5578224, -6),
            figure!(8760311, -7),
            figure!(-2391603, -7),
        ),
        Ok(Value(figure!(-7159913, -6))),
    ),
    (
        Turn(8, figure!(6081262, -7), figure!(2428721, -6)),
        Ok(Count(1)),
    ),
    (
        Turn(0, figure!(6967306, -7), figure!(-4995645, -7)),
        Ok(Count(4)),
    ),
    (
        Determinant(
            figure!(8954799, -7),
            figure!(-1918230, -6),
            figure!(2064560, -6),
            figure!(-6569297, -7),
        ),
        Ok(Value(figure!(3372034, -6))),
    ),
    (
        Turn(9, figure!(7079269, -7), figure!(4069418, -7)),
        Ok(Count(4)),
    ),
    (
        Read(3),
        Ok(Shown(Reading {
            count: 10,
            real: figure!(4263668, -6),
            imaginary: figure!(-4131203, -5),
        })),
    ),
    (
        Read(7),
        Ok(Shown(Reading {
            count: 11,
            real: figure!(5032003, -2),
            imaginary: figure!(1717383, -2),
        })),
    ),
    (
        Determinant(
            figure!(7410095, -7),
            figure!(6621277, -6),
            figure!(-4139403, -7),
            figure!(8986514, -6),
        ),
        Ok(Value(figure!(9399905, -6))),
    ),
    (
        Turn(0, figure!(-4241034, -7), figure!(9897380, -7)),
        Ok(Count(5)),
    ),
    (
        Turn(8, figure!(8741231, -7), figure!(-1954914, -6)),
        Ok(Count(2)),
    ),
    (
        Read(8),
        Ok(Shown(Reading {
            count: 2,
            real: figure!(5279518, -6),
            imaginary: figure!(9341667, -7),
        })),
    ),
    (
        Turn(7, figure!(4848653, -7), figure!(-1386643, -7)),
        Ok(Count(12)),
    ),
    (
        Turn(3, figure!(-3160081, -6), figure!(6930894, -7)),
        Ok(Count(11)),
    ),
    (
        Read(8),
        Ok(Shown(Reading {
            count: 2,
            real: figure!(5279518, -6),
            imaginary: figure!(9341667, -7),
        })),
    ),
    (
        Turn(0, figure!(1146128, -6), figure!(1365225, -7)),
        Ok(Count(6)),
    ),
    (
        Turn(1, figure!(7138754, -7), figure!(-8284618, -7)),
        Ok(Count(5)),
    ),
    (
        Turn(7, figure!(6863639, -6), figure!(9504069, -7)),
        Ok(Count(13)),
    ),
    (
        Turn(9, figure!(-8253725, -6), figure!(6473540, -7)),
        Ok(Count(5)),
    ),
    (
        Turn(3, figure!(-4573084, -6), figure!(6032111, -7)),
        Ok(Count(12)),
    ),
    (Restart(1), Ok(Count(0))),
    (
        Turn(0, figure!(-9182306, -6), figure!(-3334802, -6)),
        Ok(Count(7)),
    ),
    (
        Sum(
            figure!(7783036, -7),
            figure!(3307332, -6),
            figure!(6422658, -7),
            figure!(3884247, -7),
        ),
        Ok(Value(figure!(2823580, -6))),
    ),
    (
        Turn(3, figure!(-1784665, -7), figure!(7598996, -6)),
        Ok(Count(13)),
    ),
    (
        Turn(3, figure!(3515838, -6), figure!(-5919211, -7)),
        Ok(Count(14)),
    ),
    (
        Turn(8, figure!(0, 5), figure!(7313977, -6)),
        Err(OperandNoFigure),
    ),
    (
        Turn(0, figure!(-7059903, -7), figure!(-7197539, -7)),
        Ok(Count(8)),
    ),
    (
        Turn(9, figure!(3160744, -7), figure!(-2169574, -6)),
        Ok(Count(6)),
    ),
    (
        Read(7),
        Ok(Shown(Reading {
            count: 13,
            real: figure!(1825246, -1),
            imaginary: figure!(3471354, -2),
        })),
    ),
    (
        Turn(7, figure!(-5739784, -7), figure!(6184805, -7)),
        Ok(Count(14)),
    ),
    (
        Turn(1, figure!(2916045, -7), figure!(-3003274, -6)),
        Ok(Count(1)),
    ),
    (
        Read(7),
        Ok(Shown(Reading {
            count: 14,
            real: figure!(-1262348, -1),
            imaginary: figure!(9296309, -2),
        })),
    ),
    (
        Sum(
            figure!(2413470, -7),
            figure!(-3494755, -7),
            figure!(-6649920, -7),
            figure!(9582665, -7),
        ),
        Ok(Value(figure!(-7215845, -7))),
    ),
    (
        Turn(3, figure!(-1570012, -6), figure!(-3944309, -7)),
        Ok(Count(15)),
    ),
    (
        Turn(3, figure!(5426926, -7), figure!(-8305485, -6)),
        Ok(Count(16)),
    ),
    (
        Turn(7, figure!(-9504357, -7), figure!(-8939344, -7)),
        Ok(Count(15)),
    ),
    (
        Turn(8, figure!(-7570821, -7), figure!(-7882541, -7)),
        Ok(Count(3)),
    ),
    (
        Determinant(
            figure!(5939326, -7),
            figure!(0, 0),
            figure!(-8496328, -7),
            figure!(-6763920, -7),
        ),
        Ok(Value(figure!(-4017313, -7))),
    ),
    (
        Turn(3, figure!(-5260894, -7), figure!(5957747, -7)),
        Ok(Count(17)),
    ),
    (Turn(3, figure!(3442308, -7), figure!(0, 0)), Ok(Count(18))),
    (
        Turn(3, figure!(-1835571, -7), figure!(-9143043, -6)),
        Ok(Count(19)),
    ),
    (
        Turn(7, figure!(-6301325, -7), figure!(-2461962, -7)),
        Ok(Count(16)),
    ),
    (
        Sum(
            figure!(5482740, -7),
            figure!(7381433, -7),
            figure!(4854431, -7),
            figure!(3928011, -7),
        ),
        Ok(Value(figure!(5953874, -7))),
    ),
    (
        Turn(3, figure!(6485303, -7), figure!(-1434032, -6)),
        Ok(Count(20)),
    ),
    (
        Turn(3, figure!(5365856, -7), figure!(0, 5)),
        Err(OperandNoFigure),
    ),
    (
        Read(3),
        Ok(Shown(Reading {
            count: 20,
            real: figure!(4419647, -1),
            imaginary: figure!(7738195, -1),
        })),
    ),
    (
        Turn(7, figure!(1114792, -7), figure!(-4921237, -7)),
        Ok(Count(17)),
    ),
    (
        Read(7),
        Ok(Shown(Reading {
            count: 17,
            real: figure!(-4579318, -2),
            imaginary: figure!(5271476, -2),
        })),
    ),
    (
        Turn(10, figure!(-3364257, -7), figure!(7286012, -7)),
        Err(NoLane),
    ),
    (
        Turn(7, figure!(3455121, -7), figure!(-5894426, -7)),
        Ok(Count(18)),
    ),
    (
        Turn(0, figure!(8579848, -6), figure!(6564489, -7)),
        Ok(Count(9)),
    ),
    (
        Product(
            figure!(8882708, -7),
            figure!(8848332, -7),
            figure!(7490268, -7),
            figure!(-9231825, -7),
        ),
        Ok(Parts(figure!(1482201, -6), figure!(-1572723, -7))),
    ),
    (
        Turn(9, figure!(-2439279, -6), figure!(1969493, -7)),
        Ok(Count(7)),
    ),
    (
        Turn(3, figure!(-5965515, -7), figure!(-2147483648, 0)),
        Err(OperandNoFigure),
    ),
    (
        Turn(8, figure!(-8405958, -7), figure!(-4382576, -6)),
        Ok(Count(4)),
    ),
    (
        Turn(0, figure!(-7610831, -7), figure!(-7365604, -6)),
        Ok(Count(10)),
    ),
    (
        Turn(9, figure!(8020251, -7), figure!(-7861281, -6)),
        Ok(Count(8)),
    ),
    (Restart(7), Ok(Count(0))),
    (
        Turn(3, figure!(-3954049, -7), figure!(-7122569, -6)),
        Ok(Count(21)),
    ),
    (
        Turn(7, figure!(-9749851, -7), figure!(-2001172, -7)),
        Ok(Count(1)),
    ),
    (
        Turn(9, figure!(4894503, -6), figure!(7220345, -7)),
        Ok(Count(9)),
    ),
    (
        Turn(7, figure!(7428281, -7), figure!(-5030601, -7)),
        Ok(Count(2)),
    ),
    (
        Turn(1, figure!(-4916128, -7), figure!(4884533, -7)),
        Ok(Count(2)),
    ),
    (Turn(3, figure!(0, 0), figure!(-6612874, -6)), Ok(Count(22))),
    (
        Turn(3, figure!(9657208, -7), figure!(-5057053, -7)),
        Ok(Count(23)),
    ),
    (
        Turn(3, figure!(-1690870, -7), figure!(8836764, -7)),
        Ok(Count(24)),
    ),
    (
        Turn(0, figure!(8161277, -7), figure!(-8019612, -7)),
        Ok(Count(11)),
    ),
    (
        Turn(7, figure!(-7780550, -7), figure!(1546749, -7)),
        Ok(Count(3)),
    ),
    (
        Turn(0, figure!(-8648254, -7), figure!(4619187, -7)),
        Ok(Count(12)),
    ),
    (
        Turn(7, figure!(7725920, -6), figure!(5721912, -7)),
        Ok(Count(4)),
    ),
    (Turn(99, figure!(0, 0), figure!(-1772462, -6)), Err(NoLane)),
    (
        Product(
            figure!(-8343506, -7),
            figure!(-9999999, -201),
            figure!(4909134, -6),
            figure!(3170383, -6),
        ),
        Err(OperandRange),
    ),
    (
        Read(7),
        Ok(Shown(Reading {
            count: 4,
            real: figure!(4775441, -6),
            imaginary: figure!(-2703550, -6),
        })),
    ),
    (
        Read(7),
        Ok(Shown(Reading {
            count: 4,
            real: figure!(4775441, -6),
            imaginary: figure!(-2703550, -6),
        })),
    ),
    (
        Turn(3, figure!(4815588, -7), figure!(7373236, -6)),
        Ok(Count(25)),
    ),
    (
        Read(1),
        Ok(Shown(Reading {
            count: 2,
            real: figure!(1323602, -6),
            imaginary: figure!(1618883, -6),
        })),
    ),
    (
        Turn(3, figure!(-1148885, -7), figure!(-9294260, -6)),
        Ok(Count(26)),
    ),
    (
        Turn(3, figure!(5522844, -6), figure!(6143179, -6)),
        Ok(Count(27)),
    ),
    (
        Turn(3, figure!(-9068190, -6), figure!(-7023185, -7)),
        Ok(Count(28)),
    ),
    (
        Turn(7, figure!(-1668849, -7), figure!(9939699, -7)),
        Ok(Count(5)),
    ),
    (
        Turn(1, figure!(-3612892, -6), figure!(4095173, -7)),
        Ok(Count(3)),
    ),
    (
        Turn(0, figure!(-8543608, -7), figure!(-1745185, -7)),
        Ok(Count(13)),
    ),
    (
        Turn(7, figure!(1229320, -7), figure!(9924599, -7)),
        Ok(Count(6)),
    ),
    (
        Turn(7, figure!(-3164516, -6), figure!(-4833795, -7)),
        Ok(Count(7)),
    ),
    (
        Turn(3, figure!(8793042, -7), figure!(-4669046, -7)),
        Ok(Count(29)),
    ),
    (
        Turn(10, figure!(4588642, -7), figure!(-3484492, -7)),
        Err(NoLane),
    ),
    (
        Turn(3, figure!(0, 5), figure!(-5902378, -6)),
        Err(OperandNoFigure),
    ),
    (
        Turn(7, figure!(7576351, -7), figure!(1223572, -6)),
        Ok(Count(8)),
    ),
    (
        Turn(7, figure!(-7741958, -7), figure!(7645670, -7)),
        Ok(Count(9)),
    ),
    (
        Read(7),
        Ok(Shown(Reading {
            count: 9,
            real: figure!(-2763079, -5),
            imaginary: figure!(2304844, -6),
        })),
    ),
    (Turn(3, figure!(0, 0), figure!(2357287, -6)), Ok(Count(30))),
    (
        Product(
            figure!(0, 0),
            figure!(7727301, -7),
            figure!(-7070367, -6),
            figure!(6326891, -6),
        ),
        Ok(Parts(figure!(-4888979, -6), figure!(-5463485, -6))),
    ),
    (
        Turn(9, figure!(-1211630, -7), figure!(6030630, -7)),
        Ok(Count(10)),
    ),
    (
        Turn(0, figure!(-8050175, -7), figure!(-9211463, -6)),
        Ok(Count(14)),
    ),
    (
        Turn(0, figure!(-9281225, -7), figure!(-3511197, -7)),
        Ok(Count(15)),
    ),
    (
        Turn(3, figure!(-7402731, -6), figure!(-4545764, -7)),
        Ok(Count(31)),
    ),
    (
        Read(3),
        Ok(Shown(Reading {
            count: 31,
            real: figure!(1631734, 6),
            imaginary: figure!(3324380, 6),
        })),
    ),
    (
        Turn(3, figure!(-3885142, -7), figure!(-2117271, -7)),
        Ok(Count(32)),
    ),
    (
        Read(0),
        Ok(Shown(Reading {
            count: 15,
            real: figure!(-2280277, -2),
            imaginary: figure!(-4760118, -3),
        })),
    ),
    (
        Turn(1, figure!(-6589952, -7), figure!(-1607656, -7)),
        Ok(Count(4)),
    ),
    (Restart(1), Ok(Count(0))),
    (
        Read(3),
        Ok(Shown(Reading {
            count: 32,
            real: figure!(6990951, 4),
            imaginary: figure!(-1637051, 6),
        })),
    ),
    (
        Turn(8, figure!(2435923, -6), figure!(-2656192, -6)),
        Ok(Count(5)),
    ),
    (
        Turn(3, figure!(9189632, -7), figure!(-2147483648, 0)),
        Err(OperandNoFigure),
    ),
    (Turn(3, figure!(0, 0), figure!(-8240572, -7)), Ok(Count(33))),
    (
        Sum(
            figure!(8421836, -7),
            figure!(1902093, -6),
            figure!(8204050, -7),
            figure!(-8081801, -7),
        ),
        Ok(Value(figure!(9388765, -7))),
    ),
    (Turn(3, figure!(0, 0), figure!(-6329110, -7)), Ok(Count(34))),
    (
        Sum(
            figure!(0, 5),
            figure!(-2280334, -7),
            figure!(0, 0),
            figure!(8927193, -7),
        ),
        Err(OperandNoFigure),
    ),
    (
        Turn(1, figure!(-2774443, -6), figure!(9839184, -7)),
        Ok(Count(1)),
    ),
    (
        Turn(7, figure!(-6731833, -7), figure!(5132112, -6)),
        Ok(Count(10)),
    ),
    (
        Turn(9, figure!(-9351294, -7), figure!(-3456914, -6)),
        Ok(Count(11)),
    ),
    (Restart(3), Ok(Count(0))),
    (
        Read(3),
        Ok(Shown(Reading {
            count: 0,
            real: figure!(1000000, -6),
            imaginary: figure!(0, 0),
        })),
    ),
    (
        Product(
            figure!(-3959729, -6),
            figure!(7700159, -6),
            figure!(-3545059, -7),
            figure!(-3180436, -7),
        ),
        Ok(Parts(figure!(3852733, -6), figure!(-1470386, -6))),
    ),
    (
        Turn(3, figure!(7501411, -7), figure!(7313487, -7)),
        Ok(Count(1)),
    ),
    (
        Product(
            figure!(-8379105, -7),
            figure!(-3549604, -7),
            figure!(1435923, -7),
            figure!(-3985779, -6),
        ),
        Ok(Parts(figure!(-1535111, -6), figure!(3288756, -6))),
    ),
    (
        Turn(1, figure!(9656666, -7), figure!(-5879876, -7)),
        Ok(Count(2)),
    ),
    (
        Turn(1, figure!(-3283785, -6), figure!(-8208460, -7)),
        Ok(Count(3)),
    ),
    (Turn(0, figure!(0, 0), figure!(-4620815, -7)), Ok(Count(16))),
    (
        Product(
            figure!(-1865079, -7),
            figure!(8042517, -6),
            figure!(-9299090, -7),
            figure!(1841152, -6),
        ),
        Ok(Parts(figure!(-1463406, -5), figure!(-7822198, -6))),
    ),
    (
        Turn(7, figure!(-4716526, -6), figure!(2674338, -6)),
        Ok(Count(11)),
    ),
    (Restart(0), Ok(Count(0))),
    (
        Turn(3, figure!(8016204, -6), figure!(4778761, -7)),
        Ok(Count(2)),
    ),
    (
        Turn(3, figure!(-7044177, -7), figure!(3206922, -7)),
        Ok(Count(3)),
    ),
    (
        Sum(
            figure!(-8044415, -7),
            figure!(8233510, -7),
            figure!(-1679507, -6),
            figure!(-8555870, -6),
        ),
        Ok(Value(figure!(1370730, -5))),
    ),
    (
        Turn(9, figure!(6320432, -7), figure!(1055848, -7)),
        Ok(Count(12)),
    ),
    (
        Read(8),
        Ok(Shown(Reading {
            count: 5,
            real: figure!(3527105, -6),
            imaginary: figure!(9417686, -5),
        })),
    ),
    (Turn(7, figure!(7166401, -7), figure!(0, 0)), Ok(Count(12))),
    (
        Turn(99, figure!(-8972329, -7), figure!(2160126, -7)),
        Err(NoLane),
    ),
    (
        Turn(0, figure!(3809048, -7), figure!(-7096925, -7)),
        Ok(Count(1)),
    ),
    (
        Turn(3, figure!(-6109876, -7), figure!(-2603501, -6)),
        Ok(Count(4)),
    ),
    (
        Turn(8, figure!(2521185, -7), figure!(7864264, -7)),
        Ok(Count(6)),
    ),
    (
        Turn(3, figure!(3795948, -7), figure!(2669652, -7)),
        Ok(Count(5)),
    ),
    (
        Turn(3, figure!(1485744, -7), figure!(2459648, -7)),
        Ok(Count(6)),
    ),
    (
        Turn(9, figure!(1960659, -7), figure!(-5398934, -6)),
        Ok(Count(13)),
    ),
    (
        Turn(7, figure!(5927893, -6), figure!(1132328, -7)),
        Ok(Count(13)),
    ),
    (
        Turn(9, figure!(1469388, -7), figure!(-1598759, -6)),
        Ok(Count(14)),
    ),
    (
        Turn(3, figure!(9335293, -7), figure!(-6043493, -6)),
        Ok(Count(7)),
    ),
    (
        Turn(7, figure!(-6972519, -7), figure!(-9944678, -7)),
        Ok(Count(14)),
    ),
    (
        Turn(9, figure!(9523037, -7), figure!(-8341387, -6)),
        Ok(Count(15)),
    ),
    (
        Turn(7, figure!(9005394, -7), figure!(-8644075, -7)),
        Ok(Count(15)),
    ),
    (
        Read(7),
        Ok(Shown(Reading {
            count: 15,
            real: figure!(-1265010, -3),
            imaginary: figure!(-4850307, -3),
        })),
    ),
    (
        Turn(1, figure!(5267689, -7), figure!(5297926, -7)),
        Ok(Count(4)),
    ),
    (Restart(3), Ok(Count(0))),
    (
        Turn(7, figure!(6064168, -7), figure!(6460135, -7)),
        Ok(Count(16)),
    ),
    (
        Turn(1, figure!(9538340, -7), figure!(1980352, -6)),
        Ok(Count(5)),
    ),
    (
        Determinant(
            figure!(-5376006, -6),
            figure!(1425969, -6),
            figure!(4947984, -6),
            figure!(-8234960, -6),
        ),
        Ok(Value(figure!(3721552, -5))),
    ),
    (
        Read(7),
        Ok(Shown(Reading {
            count: 16,
            real: figure!(2366241, -3),
            imaginary: figure!(-3758522, -3),
        })),
    ),
    (
        Turn(9, figure!(0, 5), figure!(-8603210, -7)),
        Err(OperandNoFigure),
    ),
    (
        Sum(
            figure!(3042078, -6),
            figure!(3094178, -7),
            figure!(-2340829, -6),
            figure!(-9710838, -6),
        ),
        Ok(Value(figure!(2367268, -5))),
    ),
    (
        Read(1),
        Ok(Shown(Reading {
            count: 5,
            real: figure!(5526821, -6),
            imaginary: figure!(1765504, -5),
        })),
    ),
    (Turn(1, figure!(0, 0), figure!(-5581002, -7)), Ok(Count(6))),
    (
        Turn(7, figure!(4550399, -7), figure!(4695725, -7)),
        Ok(Count(17)),
    ),
    (
        Turn(8, figure!(-4416726, -7), figure!(-6940274, -7)),
        Ok(Count(7)),
    ),
    (
        Determinant(
            figure!(8770325, -6),
            figure!(-10000000, -3),
            figure!(8316439, -6),
            figure!(-6110456, -7),
        ),
        Err(OperandNoFigure),
    ),
    (
        Turn(255, figure!(8771794, -7), figure!(5489655, -7)),
        Err(NoLane),
    ),
    (
        Sum(
            figure!(-5924707, -7),
            figure!(-2776903, -7),
            figure!(-3140844, -6),
            figure!(-8196211, -7),
        ),
        Ok(Value(figure!(2738825, -6))),
    ),
    (
        Read(7),
        Ok(Shown(Reading {
            count: 17,
            real: figure!(2841633, -3),
            imaginary: figure!(-5991558, -4),
        })),
    ),
    (
        Turn(3, figure!(-5821983, -6), figure!(8312919, -7)),
        Ok(Count(1)),
    ),
    (
        Turn(9, figure!(1292080, -7), figure!(-4035729, -7)),
        Ok(Count(16)),
    ),
    (
        Turn(9, figure!(1530194, -7), figure!(6899326, -7)),
        Ok(Count(17)),
    ),
    (
        Read(7),
        Ok(Shown(Reading {
            count: 17,
            real: figure!(2841633, -3),
            imaginary: figure!(-5991558, -4),
        })),
    ),
    (
        Turn(8, figure!(-2454239, -7), figure!(-4580977, -6)),
        Ok(Count(8)),
    ),
    (
        Turn(3, figure!(-7716720, -6), figure!(6121314, -7)),
        Ok(Count(2)),
    ),
    (
        Turn(3, figure!(3491863, -7), figure!(4103116, -6)),
        Ok(Count(3)),
    ),
    (
        Read(0),
        Ok(Shown(Reading {
            count: 1,
            real: figure!(3809048, -7),
            imaginary: figure!(-7096925, -7),
        })),
    ),
    (
        Read(1),
        Ok(Shown(Reading {
            count: 6,
            real: figure!(9853281, -6),
            imaginary: figure!(-3084520, -6),
        })),
    ),
    (
        Read(2),
        Ok(Shown(Reading {
            count: 1,
            real: figure!(0, 0),
            imaginary: figure!(1000000, -200),
        })),
    ),
    (
        Read(3),
        Ok(Shown(Reading {
            count: 3,
            real: figure!(5645369, -5),
            imaginary: figure!(1787668, -4),
        })),
    ),
    (
        Read(4),
        Ok(Shown(Reading {
            count: 2,
            real: figure!(0, 0),
            imaginary: figure!(0, 0),
        })),
    ),
    (
        Read(5),
        Ok(Shown(Reading {
            count: 0,
            real: figure!(1000000, -6),
            imaginary: figure!(0, 0),
        })),
    ),
    (
        Read(6),
        Ok(Shown(Reading {
            count: 0,
            real: figure!(1000000, -6),
            imaginary: figure!(0, 0),
        })),
    ),
    (
        Read(7),
        Ok(Shown(Reading {
            count: 17,
            real: figure!(2841633, -3),
            imaginary: figure!(-5991558, -4),
        })),
    ),
    (
        Read(8),
        Ok(Shown(Reading {
            count: 8,
            real: figure!(1665423, -4),
            imaginary: figure!(-2419494, -4),
        })),
    ),
    (
        Read(9),
        Ok(Shown(Reading {
            count: 17,
            real: figure!(8086908, -1),
            imaginary: figure!(1308056, -1),
        })),
    ),
    (Read(10), Err(NoLane)),
];

// A run of a binary console by the symmetric method, written by vectors/make_runs: do not edit by hand.
use crate::rows::Row;
use console::Reading;
use histories::Call::*;
use rounding::Refusal::*;
use rounding::figure;
use runs::Answer::*;

pub const RUN: [Row; 242] = [
    (Turn(0, figure!(8388608, 200), figure!(0, 0)), Ok(Count(1))),
    (
        Turn(0, figure!(8388608, 200), figure!(0, 0)),
        Err(PhasorRange),
    ),
    (
        Turn(0, figure!(8388608, 201), figure!(0, 0)),
        Err(OperandRange),
    ),
    (
        Read(0),
        Ok(Shown(Reading {
            count: 1,
            real: figure!(8388608, 200),
            imaginary: figure!(0, 0),
        })),
    ),
    (Turn(2, figure!(0, 0), figure!(8388608, -200)), Ok(Count(1))),
    (
        Turn(2, figure!(8388608, -200), figure!(0, 0)),
        Err(PhasorRange),
    ),
    (
        Turn(2, figure!(0, 0), figure!(8388608, -200)),
        Err(PhasorRange),
    ),
    (
        Read(2),
        Ok(Shown(Reading {
            count: 1,
            real: figure!(0, 0),
            imaginary: figure!(8388608, -200),
        })),
    ),
    (Turn(4, figure!(0, 0), figure!(0, 0)), Ok(Count(1))),
    (
        Turn(4, figure!(-8691460, -24), figure!(-11661813, -24)),
        Ok(Count(2)),
    ),
    (
        Read(4),
        Ok(Shown(Reading {
            count: 2,
            real: figure!(0, 0),
            imaginary: figure!(0, 0),
        })),
    ),
    (
        Turn(7, figure!(14384467, -24), figure!(14104907, -24)),
        Ok(Count(1)),
    ),
    (
        Turn(9, figure!(-12117430, -24), figure!(11641265, -24)),
        Ok(Count(1)),
    ),
    (
        Turn(3, figure!(13905233, -24), figure!(-10836290, -23)),
        Ok(Count(1)),
    ),
    (
        Turn(7, figure!(-9271531, -23), figure!(-9667437, -23)),
        Ok(Count(2)),
    ),
    (
        Turn(3, figure!(-15735037, -24), figure!(11763468, -24)),
        Ok(Count(2)),
    ),
    (
        Sum(
            figure!(9289578, -24),
            figure!(-13397897, -24),
            figure!(-13936423, -24),
            figure!(-16244711, -24),
        ),
        Ok(Value(figure!(12151284, -25))),
    ),
    (
        Sum(
            figure!(14478169, -24),
            figure!(-15412268, -24),
            figure!(16338530, -24),
            figure!(-14294877, -24),
        ),
        Ok(Value(figure!(-13610682, -23))),
    ),
    (
        Turn(0, figure!(8868709, -24), figure!(11741324, -24)),
        Ok(Count(2)),
    ),
    (
        Turn(7, figure!(-14767243, -24), figure!(0, 0)),
        Ok(Count(3)),
    ),
    (Restart(1), Ok(Count(0))),
    (
        Read(7),
        Ok(Shown(Reading {
            count: 3,
            real: figure!(-10047086, -29),
            imaginary: figure!(14156566, -23),
        })),
    ),
    (
        Turn(10, figure!(0, 0), figure!(-10966746, -23)),
        Err(NoLane),
    ),
    (
        Turn(1, figure!(12112475, -23), figure!(-13350428, -24)),
        Ok(Count(1)),
    ),
    (
        Turn(3, figure!(8530852, -24), figure!(10610362, -24)),
        Ok(Count(3)),
    ),
    (
        Turn(0, figure!(-11140928, -23), figure!(10825579, -23)),
        Ok(Count(3)),
    ),
    (
        Turn(7, figure!(-16392746, -23), figure!(-16590066, -24)),
        Ok(Count(4)),
    ),
    (
        Sum(
            figure!(14022730, -23),
            figure!(15978065, -23),
            figure!(10423440, -24),
            figure!(-10245725, -23),
        ),
        Ok(Value(figure!(10172024, -22))),
    ),
    (
        Determinant(
            figure!(8958319, -23),
            figure!(-10764631, -23),
            figure!(10348279, -24),
            figure!(-15826725, -24),
        ),
        Ok(Value(figure!(-14488910, -26))),
    ),
    (
        Read(3),
        Ok(Shown(Reading {
            count: 3,
            real: figure!(-8962714, -23),
            imaginary: figure!(16655549, -24),
        })),
    ),
    (
        Product(
            figure!(12355642, -23),
            figure!(0, 0),
            figure!(11856564, -24),
            figure!(12932414, -24),
        ),
        Ok(Parts(figure!(8731810, -23), figure!(9524124, -23))),
    ),
    (
        Read(3),
        Ok(Shown(Reading {
            count: 3,
            real: figure!(-8962714, -23),
            imaginary: figure!(16655549, -24),
        })),
    ),
    (
        Read(3),
        Ok(Shown(Reading {
            count: 3,
            real: figure!(-8962714, -23),
            imaginary: figure!(16655549, -24),
        })),
    ),
    (
        Turn(3, figure!(-16777215, -201), figure!(16631523, -24)),
        Err(OperandRange),
    ),
    (
        Turn(7, figure!(-11445637, -24), figure!(-16077220, -24)),
        Ok(Count(5)),
    ),
    (
        Turn(8, figure!(8950220, -24), figure!(-15836458, -23)),
        Ok(Count(1)),
    ),
    (
        Sum(
            figure!(-8674023, -23),
            figure!(12284756, -23),
            figure!(-15376854, -23),
            figure!(15881542, -24),
        ),
        Ok(Value(figure!(-13629337, -22))),
    ),
    (
        Turn(1, figure!(9913436, -24), figure!(8642136, -24)),
        Ok(Count(2)),
    ),
    (
        Determinant(
            figure!(-11134422, -24),
            figure!(-14850178, -24),
            figure!(-10333375, -24),
            figure!(11443276, -24),
        ),
        Ok(Value(figure!(-16740961, -24))),
    ),
    (
        Product(
            figure!(-9811639, -24),
            figure!(8578413, -24),
            figure!(8871946, -24),
            figure!(12146570, -24),
        ),
        Ok(Parts(figure!(-11399188, -24), figure!(-10268818, -26))),
    ),
    (
        Turn(9, figure!(-15722079, -24), figure!(16328103, -24)),
        Ok(Count(2)),
    ),
    (Turn(1, figure!(9279102, -23), figure!(0, 0)), Ok(Count(3))),
    (
        Turn(3, figure!(1, 0), figure!(-10559935, -23)),
        Err(OperandNoFigure),
    ),
    (
        Turn(7, figure!(9237795, -24), figure!(14227865, -24)),
        Ok(Count(6)),
    ),
    (
        Sum(
            figure!(14844651, -24),
            figure!(11439738, -24),
            figure!(14178992, -24),
            figure!(14803529, -23),
        ),
        Ok(Value(figure!(8785980, -22))),
    ),
    (
        Turn(3, figure!(-12972589, -23), figure!(-9459686, -24)),
        Ok(Count(4)),
    ),
    (
        Turn(3, figure!(13214227, -24), figure!(-8400878, -24)),
        Ok(Count(5)),
    ),
    (
        Product(
            figure!(15741925, -24),
            figure!(14007253, -23),
            figure!(-10578503, -24),
            figure!(14583428, -23),
        ),
        Ok(Parts(figure!(-14657096, -22), figure!(9703095, -24))),
    ),
    (
        Sum(
            figure!(10395141, -23),
            figure!(8536299, -24),
            figure!(-16045706, -23),
            figure!(9239309, -24),
        ),
        Ok(Value(figure!(-14189530, -25))),
    ),
    (
        Turn(7, figure!(-13878716, -24), figure!(8388608, 2001)),
        Err(OperandNoFigure),
    ),
    (
        Turn(9, figure!(-14619456, -24), figure!(-12541242, -23)),
        Ok(Count(3)),
    ),
    (
        Turn(9, figure!(-9950039, -24), figure!(8401172, -24)),
        Ok(Count(4)),
    ),
    (
        Turn(3, figure!(8491003, -23), figure!(-9610464, -23)),
        Ok(Count(6)),
    ),
    (
        Turn(9, figure!(-16634976, -24), figure!(-12307484, -23)),
        Ok(Count(5)),
    ),
    (
        Turn(3, figure!(-10938228, -23), figure!(8388607, 0)),
        Err(OperandNoFigure),
    ),
    (
        Turn(3, figure!(15340769, -23), figure!(13086192, -23)),
        Ok(Count(7)),
    ),
    (
        Turn(7, figure!(-12112837, -24), figure!(15492534, -24)),
        Ok(Count(7)),
    ),
    (
        Turn(0, figure!(15893173, -23), figure!(15304872, -24)),
        Err(PhasorRange),
    ),
    (
        Turn(3, figure!(14527613, -23), figure!(16659116, -24)),
        Ok(Count(8)),
    ),
    (
        Read(9),
        Ok(Shown(Reading {
            count: 5,
            real: figure!(-13075095, -22),
            imaginary: figure!(13426319, -24),
        })),
    ),
    (
        Turn(7, figure!(10282467, -24), figure!(-13168177, -24)),
        Ok(Count(8)),
    ),
    (
        Turn(7, figure!(10131535, -23), figure!(9776569, -23)),
        Ok(Count(9)),
    ),
    (
        Turn(3, figure!(12079289, -24), figure!(-12691848, -24)),
        Ok(Count(9)),
    ),
    (
        Product(
            figure!(13519576, -24),
            figure!(-11585895, -24),
            figure!(9426745, -23),
            figure!(16055618, -23),
        ),
        Ok(Parts(figure!(9341964, -22), figure!(12856468, -24))),
    ),
    (
        Turn(3, figure!(-16620971, -24), figure!(16587508, -24)),
        Ok(Count(10)),
    ),
    (
        Read(3),
        Ok(Shown(Reading {
            count: 10,
            real: figure!(14419299, -20),
            imaginary: figure!(10329009, -19),
        })),
    ),
    (
        Turn(0, figure!(9902840, -24), figure!(8388608, 201)),
        Err(OperandRange),
    ),
    (
        Sum(
            figure!(11882161, -24),
            figure!(13594251, -24),
            figure!(-13672504, -23),
            figure!(8879367, -24),
        ),
        Ok(Value(figure!(-9689007, -25))),
    ),
    (
        Read(3),
        Ok(Shown(Reading {
            count: 10,
            real: figure!(14419299, -20),
            imaginary: figure!(10329009, -19),
        })),
    ),
    (
        Turn(7, figure!(-15037170, -23), figure!(0, 0)),
        Ok(Count(10)),
    ),
    (
        Turn(3, figure!(11974499, -24), figure!(-11766574, -24)),
        Ok(Count(11)),
    ),
    (
        Read(3),
        Ok(Shown(Reading {
            count: 11,
            real: figure!(12389957, -19),
            imaginary: figure!(9262999, -21),
        })),
    ),
    (
        Turn(1, figure!(0, 5), figure!(-14657933, -24)),
        Err(OperandNoFigure),
    ),
    (
        Turn(0, figure!(12813371, -24), figure!(-11033351, -24)),
        Ok(Count(4)),
    ),
    (
        Turn(9, figure!(16315192, -23), figure!(-16777215, -201)),
        Err(OperandRange),
    ),
    (
        Turn(7, figure!(-13553238, -23), figure!(13587393, -23)),
        Ok(Count(11)),
    ),
    (
        Turn(9, figure!(15538706, -23), figure!(-10616712, -24)),
        Ok(Count(6)),
    ),
    (
        Read(7),
        Ok(Shown(Reading {
            count: 11,
            real: figure!(10340722, -19),
            imaginary: figure!(-15362834, -19),
        })),
    ),
    (Read(10), Err(NoLane)),
    (Restart(7), Ok(Count(0))),
    (
        Read(3),
        Ok(Shown(Reading {
            count: 11,
            real: figure!(12389957, -19),
            imaginary: figure!(9262999, -21),
        })),
    ),
    (
        Read(7),
        Ok(Shown(Reading {
            count: 0,
            real: figure!(8388608, -23),
            imaginary: figure!(0, 0),
        })),
    ),
    (
        Turn(255, figure!(-16623624, -23), figure!(-9057294, -23)),
        Err(NoLane),
    ),
    (
        Read(3),
        Ok(Shown(Reading {
            count: 11,
            real: figure!(12389957, -19),
            imaginary: figure!(9262999, -21),
        })),
    ),
    (
        Turn(7, figure!(-15497598, -23), figure!(0, 0)),
        Ok(Count(1)),
    ),
    (
        Determinant(
            figure!(-15093171, -24),
            figure!(11749304, -24),
            figure!(12679906, -24),
            figure!(-12153123, -24),
        ),
        Ok(Value(figure!(16426608, -27))),
    ),
    (
        Read(7),
        Ok(Shown(Reading {
            count: 1,
            real: figure!(-15497598, -23),
            imaginary: figure!(0, 0),
        })),
    ),
    (
        Turn(8, figure!(9583129, -24), figure!(14291336, -24)),
        Ok(Count(2)),
    ),
    (
        Turn(3, figure!(-14113166, -24), figure!(9858388, -24)),
        Ok(Count(12)),
    ),
    (
        Determinant(
            figure!(10767926, -24),
            figure!(-16295937, -23),
            figure!(9570340, -23),
            figure!(-13436369, -24),
        ),
        Ok(Value(figure!(14279748, -23))),
    ),
    (
        Turn(7, figure!(11140304, -24), figure!(0, 5)),
        Err(OperandNoFigure),
    ),
    (
        Read(8),
        Ok(Shown(Reading {
            count: 2,
            real: figure!(16046148, -23),
            imaginary: figure!(-10467472, -24),
        })),
    ),
    (
        Turn(1, figure!(-15365144, -24), figure!(12999051, -24)),
        Ok(Count(4)),
    ),
    (
        Turn(3, figure!(9380608, -24), figure!(1, 0)),
        Err(OperandNoFigure),
    ),
    (
        Turn(7, figure!(-10391027, -24), figure!(11710347, -23)),
        Ok(Count(2)),
    ),
    (
        Sum(
            figure!(-9003734, -24),
            figure!(12340138, -24),
            figure!(-10607400, -24),
            figure!(-13054382, -23),
        ),
        Ok(Value(figure!(9884762, -24))),
    ),
    (Read(10), Err(NoLane)),
    (
        Turn(0, figure!(-9163888, -24), figure!(11243251, -24)),
        Ok(Count(5)),
    ),
    (
        Sum(
            figure!(-15998605, -23),
            figure!(16278487, -24),
            figure!(13855889, -24),
            figure!(14311232, -24),
        ),
        Ok(Value(figure!(-9613375, -23))),
    ),
    (
        Turn(3, figure!(-13825583, -23), figure!(12368339, -24)),
        Ok(Count(13)),
    ),
    (
        Turn(7, figure!(10366387, -23), figure!(-10635153, -23)),
        Ok(Count(3)),
    ),
    (
        Turn(1, figure!(13048173, -24), figure!(11525009, -23)),
        Ok(Count(5)),
    ),
    (
        Product(
            figure!(-15834897, -24),
            figure!(13344931, -24),
            figure!(-10351248, -24),
            figure!(11346444, -24),
        ),
        Ok(Parts(figure!(11914667, -28), figure!(-9471371, -23))),
    ),
    (
        Determinant(
            figure!(13834510, -23),
            figure!(12852144, -23),
            figure!(11054025, -24),
            figure!(-2147483648, 0),
        ),
        Err(OperandNoFigure),
    ),
    (
        Turn(0, figure!(9083760, -24), figure!(10049445, -24)),
        Ok(Count(6)),
    ),
    (
        Turn(7, figure!(10729573, -24), figure!(14124651, -23)),
        Ok(Count(4)),
    ),
    (
        Determinant(
            figure!(12028050, -23),
            figure!(0, 0),
            figure!(-14824381, -23),
            figure!(16512532, -24),
        ),
        Ok(Value(figure!(11838291, -23))),
    ),
    (
        Turn(3, figure!(-15376551, -24), figure!(13084930, -24)),
        Ok(Count(14)),
    ),
    (Turn(7, figure!(0, 0), figure!(-8393856, -23)), Ok(Count(5))),
    (
        Turn(7, figure!(16756829, -24), figure!(-10488785, -24)),
        Ok(Count(6)),
    ),
    (
        Turn(8, figure!(8760571, -24), figure!(14032315, -24)),
        Ok(Count(3)),
    ),
    (
        Read(0),
        Ok(Shown(Reading {
            count: 6,
            real: figure!(15722407, 199),
            imaginary: figure!(-10969145, 199),
        })),
    ),
    (
        Determinant(
            figure!(9420854, -24),
            figure!(14553472, -24),
            figure!(14486086, -23),
            figure!(-15765261, -24),
        ),
        Ok(Value(figure!(-8496164, -22))),
    ),
    (
        Turn(3, figure!(-15251819, -24), figure!(-13576781, -24)),
        Ok(Count(15)),
    ),
    (
        Turn(9, figure!(12783420, -24), figure!(14346568, -23)),
        Ok(Count(7)),
    ),
    (
        Turn(8, figure!(-14631131, -24), figure!(-9171718, -23)),
        Ok(Count(4)),
    ),
    (
        Turn(7, figure!(10943602, -24), figure!(9105675, -24)),
        Ok(Count(7)),
    ),
    (
        Sum(
            figure!(10453170, -24),
            figure!(-11021134, -24),
            figure!(10210409, -24),
            figure!(12864605, -23),
        ),
        Ok(Value(figure!(8791683, -24))),
    ),
    (
        Read(7),
        Ok(Shown(Reading {
            count: 7,
            real: figure!(-10797346, -21),
            imaginary: figure!(-15484940, -21),
        })),
    ),
    (
        Read(7),
        Ok(Shown(Reading {
            count: 7,
            real: figure!(-10797346, -21),
            imaginary: figure!(-15484940, -21),
        })),
    ),
    (
        Turn(1, figure!(-9513315, -24), figure!(13521339, -24)),
        Ok(Count(6)),
    ),
    (
        Turn(3, figure!(-13286934, -24), figure!(14076834, -24)),
        Ok(Count(16)),
    ),
    (
        Turn(3, figure!(16558111, -24), figure!(-2147483648, 0)),
        Err(OperandNoFigure),
    ),
    (Read(255), Err(NoLane)),
    (
        Read(3),
        Ok(Shown(Reading {
            count: 16,
            real: figure!(10524376, -21),
            imaginary: figure!(9843772, -17),
        })),
    ),
    (
        Read(1),
        Ok(Shown(Reading {
            count: 6,
            real: figure!(10346420, -22),
            imaginary: figure!(-8526511, -23),
        })),
    ),
    (
        Turn(3, figure!(13013583, -24), figure!(16232054, -24)),
        Ok(Count(17)),
    ),
    (
        Sum(
            figure!(-11448061, -23),
            figure!(12381330, -24),
            figure!(10678405, -24),
            figure!(-11699318, -24),
        ),
        Ok(Value(figure!(-12171701, -23))),
    ),
    (
        Read(7),
        Ok(Shown(Reading {
            count: 7,
            real: figure!(-10797346, -21),
            imaginary: figure!(-15484940, -21),
        })),
    ),
    (
        Turn(3, figure!(-8696353, -23), figure!(11657408, -24)),
        Ok(Count(18)),
    ),
    (
        Turn(3, figure!(10670677, -24), figure!(9147182, -24)),
        Ok(Count(19)),
    ),
    (
        Turn(7, figure!(10615563, -24), figure!(10302579, -23)),
        Ok(Count(8)),
    ),
    (
        Turn(9, figure!(-15172194, -23), figure!(15692967, -24)),
        Ok(Count(8)),
    ),
    (
        Read(3),
        Ok(Shown(Reading {
            count: 19,
            real: figure!(10377729, -17),
            imaginary: figure!(-14953119, -18),
        })),
    ),
    (
        Turn(7, figure!(-2147483648, 0), figure!(-14884925, -24)),
        Err(OperandNoFigure),
    ),
    (
        Turn(3, figure!(0, 0), figure!(-11082937, -24)),
        Ok(Count(20)),
    ),
    (Restart(3), Ok(Count(0))),
    (
        Turn(3, figure!(13095835, -24), figure!(-14438937, -23)),
        Ok(Count(1)),
    ),
    (
        Turn(3, figure!(13917605, -24), figure!(-14116508, -23)),
        Ok(Count(2)),
    ),
    (Restart(3), Ok(Count(0))),
    (Read(255), Err(NoLane)),
    (
        Read(9),
        Ok(Shown(Reading {
            count: 8,
            real: figure!(12536906, -19),
            imaginary: figure!(9446459, -22),
        })),
    ),
    (
        Turn(7, figure!(-8531404, -24), figure!(-16255741, -24)),
        Ok(Count(9)),
    ),
    (
        Turn(7, figure!(11167337, -24), figure!(-12669153, -24)),
        Ok(Count(10)),
    ),
    (
        Turn(8, figure!(9387500, -23), figure!(13791037, -24)),
        Ok(Count(5)),
    ),
    (Turn(3, figure!(15904573, -24), figure!(0, 0)), Ok(Count(1))),
    (
        Turn(3, figure!(-11951951, -24), figure!(-15243170, -24)),
        Ok(Count(2)),
    ),
    (
        Turn(3, figure!(16391511, -23), figure!(13655835, -24)),
        Ok(Count(3)),
    ),
    (
        Turn(99, figure!(0, 0), figure!(-10008226, -24)),
        Err(NoLane),
    ),
    (
        Turn(7, figure!(16155539, -24), figure!(13296330, -24)),
        Ok(Count(11)),
    ),
    (
        Determinant(
            figure!(12719811, -24),
            figure!(8696519, -23),
            figure!(8990342, -24),
            figure!(-10338306, -24),
        ),
        Ok(Value(figure!(-8579214, -23))),
    ),
    (
        Turn(7, figure!(12280725, -24), figure!(13457829, -24)),
        Ok(Count(12)),
    ),
    (
        Turn(3, figure!(16498733, -24), figure!(-9793225, -24)),
        Ok(Count(4)),
    ),
    (
        Turn(7, figure!(-11995047, -24), figure!(-15494656, -23)),
        Ok(Count(13)),
    ),
    (
        Determinant(
            figure!(11920756, -24),
            figure!(8745512, -24),
            figure!(11249653, -23),
            figure!(-16730765, -24),
        ),
        Ok(Value(figure!(-11808018, -23))),
    ),
    (
        Turn(1, figure!(10647914, -24), figure!(16389144, -24)),
        Ok(Count(7)),
    ),
    (Turn(3, figure!(0, 0), figure!(8548456, -23)), Ok(Count(5))),
    (
        Turn(7, figure!(-9270652, -24), figure!(9983149, -23)),
        Ok(Count(14)),
    ),
    (Restart(3), Ok(Count(0))),
    (
        Read(8),
        Ok(Shown(Reading {
            count: 5,
            real: figure!(9877227, -22),
            imaginary: figure!(-12788650, -22),
        })),
    ),
    (
        Read(7),
        Ok(Shown(Reading {
            count: 14,
            real: figure!(-9336508, -18),
            imaginary: figure!(-8519031, -18),
        })),
    ),
    (Turn(7, figure!(9571802, -24), figure!(0, 0)), Ok(Count(15))),
    (
        Turn(7, figure!(11013158, -23), figure!(10469365, -24)),
        Ok(Count(16)),
    ),
    (
        Turn(3, figure!(-9841714, -24), figure!(-8755576, -24)),
        Ok(Count(1)),
    ),
    (
        Turn(3, figure!(-16734275, -23), figure!(14110426, -24)),
        Ok(Count(2)),
    ),
    (
        Product(
            figure!(16360963, -24),
            figure!(12127128, -23),
            figure!(14550477, -23),
            figure!(-15997104, -24),
        ),
        Ok(Parts(figure!(12876354, -22), figure!(13235031, -23))),
    ),
    (
        Turn(3, figure!(-9080769, -23), figure!(-8960897, -23)),
        Ok(Count(3)),
    ),
    (
        Read(8),
        Ok(Shown(Reading {
            count: 5,
            real: figure!(9877227, -22),
            imaginary: figure!(-12788650, -22),
        })),
    ),
    (
        Read(3),
        Ok(Shown(Reading {
            count: 3,
            real: figure!(-9704292, -23),
            imaginary: figure!(-9696469, -22),
        })),
    ),
    (
        Turn(3, figure!(15378715, -24), figure!(-12706619, -24)),
        Ok(Count(4)),
    ),
    (
        Turn(7, figure!(-14350739, -24), figure!(10954762, -24)),
        Ok(Count(17)),
    ),
    (
        Read(3),
        Ok(Shown(Reading {
            count: 4,
            real: figure!(-11791534, -22),
            imaginary: figure!(-10426624, -23),
        })),
    ),
    (
        Turn(3, figure!(15073572, -24), figure!(12534531, -24)),
        Ok(Count(5)),
    ),
    (
        Read(9),
        Ok(Shown(Reading {
            count: 8,
            real: figure!(12536906, -19),
            imaginary: figure!(9446459, -22),
        })),
    ),
    (
        Turn(7, figure!(-2147483648, 0), figure!(-10859581, -24)),
        Err(OperandNoFigure),
    ),
    (
        Turn(1, figure!(12786193, -24), figure!(-11932770, -23)),
        Ok(Count(8)),
    ),
    (
        Turn(8, figure!(-12404894, -24), figure!(9058341, -23)),
        Ok(Count(6)),
    ),
    (
        Turn(3, figure!(9249935, -24), figure!(11119083, -23)),
        Ok(Count(6)),
    ),
    (
        Read(9),
        Ok(Shown(Reading {
            count: 8,
            real: figure!(12536906, -19),
            imaginary: figure!(9446459, -22),
        })),
    ),
    (
        Turn(3, figure!(-14237213, -23), figure!(-13693185, -24)),
        Ok(Count(7)),
    ),
    (
        Turn(3, figure!(-13412274, -24), figure!(-14729501, -24)),
        Ok(Count(8)),
    ),
    (
        Turn(0, figure!(9488153, -23), figure!(-2147483648, 0)),
        Err(OperandNoFigure),
    ),
    (
        Product(
            figure!(-12339115, -23),
            figure!(-8842469, -24),
            figure!(13240589, -24),
            figure!(0, 0),
        ),
        Ok(Parts(figure!(-9738037, -23), figure!(-13956964, -25))),
    ),
    (
        Turn(3, figure!(-11524870, -24), figure!(-2147483648, 0)),
        Err(OperandNoFigure),
    ),
    (
        Determinant(
            figure!(13033852, -24),
            figure!(10606210, -24),
            figure!(-15094837, -24),
            figure!(0, 0),
        ),
        Ok(Value(figure!(9542645, -24))),
    ),
    (
        Turn(3, figure!(-8878947, -24), figure!(13977726, -24)),
        Ok(Count(9)),
    ),
    (
        Turn(3, figure!(-14050784, -23), figure!(-16777215, -201)),
        Err(OperandRange),
    ),
    (
        Read(3),
        Ok(Shown(Reading {
            count: 9,
            real: figure!(-9985394, -20),
            imaginary: figure!(13068982, -21),
        })),
    ),
    (
        Turn(3, figure!(-15456171, -24), figure!(-8738471, -24)),
        Ok(Count(10)),
    ),
    (
        Determinant(
            figure!(-14918412, -24),
            figure!(-11365523, -24),
            figure!(-9503164, -24),
            figure!(13022161, -24),
        ),
        Ok(Value(figure!(-9008598, -23))),
    ),
    (
        Product(
            figure!(14288554, -24),
            figure!(-9277235, -24),
            figure!(-14217570, -23),
            figure!(-13186737, -24),
        ),
        Ok(Parts(figure!(-15754506, -23), figure!(8986005, -25))),
    ),
    (
        Turn(3, figure!(-10429596, -24), figure!(-14513713, -24)),
        Ok(Count(11)),
    ),
    (
        Turn(8, figure!(12814021, -24), figure!(9306748, -24)),
        Ok(Count(7)),
    ),
    (
        Product(
            figure!(10272994, -24),
            figure!(11115368, -24),
            figure!(11533227, -23),
            figure!(0, 0),
        ),
        Ok(Parts(figure!(14124009, -24), figure!(15282162, -24))),
    ),
    (
        Turn(7, figure!(11691176, -24), figure!(0, 0)),
        Ok(Count(18)),
    ),
    (
        Turn(3, figure!(0, 5), figure!(-15985944, -24)),
        Err(OperandNoFigure),
    ),
    (
        Read(3),
        Ok(Shown(Reading {
            count: 11,
            real: figure!(-8543004, -20),
            imaginary: figure!(-10393207, -20),
        })),
    ),
    (
        Turn(7, figure!(10556727, -24), figure!(14779766, -23)),
        Ok(Count(19)),
    ),
    (Read(99), Err(NoLane)),
    (
        Read(3),
        Ok(Shown(Reading {
            count: 11,
            real: figure!(-8543004, -20),
            imaginary: figure!(-10393207, -20),
        })),
    ),
    (
        Turn(3, figure!(-9464514, -24), figure!(12269620, -24)),
        Ok(Count(12)),
    ),
    (
        Turn(8, figure!(-12972028, -24), figure!(15739509, -24)),
        Ok(Count(8)),
    ),
    (
        Turn(7, figure!(14433762, -24), figure!(12648887, -24)),
        Ok(Count(20)),
    ),
    (
        Turn(1, figure!(-13164263, -23), figure!(-12873756, -24)),
        Ok(Count(9)),
    ),
    (
        Read(3),
        Ok(Shown(Reading {
            count: 12,
            real: figure!(12420182, -20),
            imaginary: figure!(-12307662, -25),
        })),
    ),
    (
        Turn(3, figure!(-14523881, -24), figure!(12808386, -24)),
        Ok(Count(13)),
    ),
    (
        Turn(3, figure!(-10061546, -23), figure!(9785582, -24)),
        Ok(Count(14)),
    ),
    (
        Turn(9, figure!(15318201, -24), figure!(-12571714, -24)),
        Ok(Count(9)),
    ),
    (
        Turn(3, figure!(15383768, -23), figure!(-14026415, -24)),
        Ok(Count(15)),
    ),
    (
        Turn(7, figure!(11240780, -24), figure!(-16668469, -24)),
        Ok(Count(21)),
    ),
    (
        Turn(11, figure!(12534128, -23), figure!(8743056, -24)),
        Err(NoLane),
    ),
    (Read(255), Err(NoLane)),
    (
        Turn(10, figure!(-13447850, -24), figure!(15397952, -24)),
        Err(NoLane),
    ),
    (
        Turn(3, figure!(-8935951, -24), figure!(9401230, -24)),
        Ok(Count(16)),
    ),
    (
        Turn(3, figure!(15832628, -24), figure!(15671937, -24)),
        Ok(Count(17)),
    ),
    (
        Turn(1, figure!(13009301, -24), figure!(-9157477, -23)),
        Ok(Count(10)),
    ),
    (
        Turn(1, figure!(13572673, -24), figure!(0, 0)),
        Ok(Count(11)),
    ),
    (Read(10), Err(NoLane)),
    (
        Sum(
            figure!(15918436, -24),
            figure!(-14497017, -24),
            figure!(14553756, -23),
            figure!(-12640702, -24),
        ),
        Ok(Value(figure!(-8921462, -22))),
    ),
    (
        Turn(3, figure!(16458736, -24), figure!(-15181544, -23)),
        Ok(Count(18)),
    ),
    (
        Sum(
            figure!(-10633595, -24),
            figure!(-14946895, -23),
            figure!(-11468929, -23),
            figure!(-11251741, -24),
        ),
        Ok(Value(figure!(8582611, -22))),
    ),
    (
        Determinant(
            figure!(-13304568, -23),
            figure!(-14927489, -24),
            figure!(12072689, -24),
            figure!(12987594, -23),
        ),
        Ok(Value(figure!(-15227865, -23))),
    ),
    (
        Determinant(
            figure!(13674010, -23),
            figure!(13710674, -23),
            figure!(-8513653, -24),
            figure!(14258158, -24),
        ),
        Ok(Value(figure!(9289209, -22))),
    ),
    (
        Turn(8, figure!(0, 5), figure!(11032779, -24)),
        Err(OperandNoFigure),
    ),
    (
        Read(3),
        Ok(Shown(Reading {
            count: 18,
            real: figure!(9368279, -17),
            imaginary: figure!(15977490, -19),
        })),
    ),
    (
        Turn(3, figure!(-12933056, -24), figure!(-15104176, -24)),
        Ok(Count(19)),
    ),
    (
        Determinant(
            figure!(11723874, -24),
            figure!(10383156, -24),
            figure!(8388608, 2001),
            figure!(-8987199, -23),
        ),
        Err(OperandNoFigure),
    ),
    (
        Turn(3, figure!(9953262, -24), figure!(-8468451, -23)),
        Ok(Count(20)),
    ),
    (
        Turn(3, figure!(9802347, -24), figure!(15256223, -24)),
        Ok(Count(21)),
    ),
    (
        Turn(3, figure!(15115486, -23), figure!(12661436, -24)),
        Ok(Count(22)),
    ),
    (
        Turn(3, figure!(-15402158, -24), figure!(-9736289, -24)),
        Ok(Count(23)),
    ),
    (
        Read(0),
        Ok(Shown(Reading {
            count: 6,
            real: figure!(15722407, 199),
            imaginary: figure!(-10969145, 199),
        })),
    ),
    (
        Read(1),
        Ok(Shown(Reading {
            count: 11,
            real: figure!(-11193373, -21),
            imaginary: figure!(16459071, -21),
        })),
    ),
    (
        Read(2),
        Ok(Shown(Reading {
            count: 1,
            real: figure!(0, 0),
            imaginary: figure!(8388608, -200),
        })),
    ),
    (
        Read(3),
        Ok(Shown(Reading {
            count: 23,
            real: figure!(-9356746, -16),
            imaginary: figure!(13232799, -16),
        })),
    ),
    (
        Read(4),
        Ok(Shown(Reading {
            count: 2,
            real: figure!(0, 0),
            imaginary: figure!(0, 0),
        })),
    ),
    (
        Read(5),
        Ok(Shown(Reading {
            count: 0,
            real: figure!(8388608, -23),
            imaginary: figure!(0, 0),
        })),
    ),
    (
        Read(6),
        Ok(Shown(Reading {
            count: 0,
            real: figure!(8388608, -23),
            imaginary: figure!(0, 0),
        })),
    ),
    (
        Read(7),
        Ok(Shown(Reading {
            count: 21,
            real: figure!(11207100, -21),
            imaginary: figure!(10054701, -17),
        })),
    ),
    (
        Read(8),
        Ok(Shown(Reading {
            count: 8,
            real: figure!(-13015986, -22),
            imaginary: figure!(-10241426, -21),
        })),
    ),
    (
        Read(9),
        Ok(Shown(Reading {
            count: 9,
            real: figure!(12331463, -19),
            imaginary: figure!(-16632384, -20),
        })),
    ),
    (Read(10), Err(NoLane)),
];

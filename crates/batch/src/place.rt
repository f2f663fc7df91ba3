// The place of the word at fault in a line whose call was refused.
ghost use Rattle.std.specs.Prelude.{◌≡◌, ◌+◌, ◌<◌, ◌≤◌, IfSome, length, position};
ghost use Rattle.rounding.specs.Refusals.{number};
ghost use Rattle.bounds.specs.Fours.{fault};
ghost use Rattle.batch.specs.Places.{is_fault, operand_place, fault_place, place_of};

use histories::Call;
use kinds::Kind;
use kinds::format::Format;
use methods::check_operand;
use rounding::{Figure, Refusal};

// A method would not accept the figure.
fn is_fault(format: Format, figure: Figure) -> bool
    ensures { result ≡ is_fault (fault format.radix format.precision figure) }
{
    check_operand(format, figure).is_err()
}

// The first figure at fault.
fn first_fault(format: Format, figures: &[Figure]) -> Option<usize>
    ensures first { result ≡ position (λ figure. is_fault (fault format.radix format.precision figure)) figures.now }
    ensures within { IfSome result (λ index. index < length figures.now) }
{
    figures.iter().position(|figure| is_fault(format, *figure))
}

// The place of the first figure at fault, of those whose words stand from a place on.
fn operand_place(format: Format, from: u8, figures: &[Figure]) -> u8
    requires { from + length figures.now ≤ 255 }
    ensures { result ≡ operand_place format.radix format.precision from figures.now }
{
    match first_fault(format, figures) {
        Some(index) => from + index as u8,
        None => 0,
    }
}

// The place of a call's operand at fault.
fn fault_place<K: Kind>(call: Call) -> u8
    ensures { result ≡ fault_place K.RADIX K.PRECISION call }
{
    let format = Format::of::<K>();
    match call {
        Call::Sum(a, b, c, d) | Call::Determinant(a, b, c, d) | Call::Product(a, b, c, d) => {
            operand_place(format, 2, &[a, b, c, d])
        }
        Call::Turn(_, c, d) => operand_place(format, 3, &[c, d]),
        Call::Restart(_) | Call::Read(_) => 0,
    }
}

// The place of the word for which a call was refused.
pub(crate) fn place_of<K: Kind>(call: Call, refusal: Refusal) -> u8
    ensures { result ≡ place_of K.RADIX K.PRECISION call (number refusal) }
{
    match refusal {
        Refusal::NoLane => 2,
        Refusal::OperandNoFigure | Refusal::OperandRange => fault_place::<K>(call),
        _ => 0,
    }
}

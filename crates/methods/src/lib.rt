// Methods for ab + cd: which operands they accept, the interface (`method`), and Kahan's method (`kahan`).
#![tactic(auto)]

ghost use Rattle.std.specs.Prelude.{◌≡◌};
ghost use Rattle.rounding.specs.Refusals.{fault_of};
ghost use Rattle.bounds.specs.Fours.{fault, faults};

use figures::is_figure;
use kinds::format::Format;
use rounding::{Figure, Refusal};

pub mod kahan;
pub mod method;

// Refuses an operand that is no figure of the kind, or whose exponent is outside -200..200: with other refusals than an
// operation, and one test more.
pub fn check_operand(format: Format, f: Figure) -> Result<(), Refusal>
    ensures { fault_of result ≡ fault format.radix format.precision f }
{
    if !is_figure(format, f) {
        return Err(Refusal::OperandNoFigure);
    }
    if !f.reaches(200) {
        return Err(Refusal::OperandRange);
    }
    Ok(())
}

// Refuses four operands, which stand apart as in `Method::apply`, by the first thing that is wrong with them, from the
// left.
pub fn check_operands(
    format: Format,
    a: Figure,
    b: Figure,
    c: Figure,
    d: Figure,
) -> Result<(), Refusal>
    ensures { fault_of result ≡ faults format.radix format.precision a b c d }
{
    check_operand(format, a)?;
    check_operand(format, b)?;
    check_operand(format, c)?;
    check_operand(format, d)
}

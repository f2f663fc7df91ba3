// The calls of a console as values, and histories of them. What a history says of a lane, and what it means that the
// lanes track a history, stands in specs/.
#![tactic(auto)]

use rounding::Figure;

// A call of a console, as histories record it; calls made with no console are another enum, of `checked_calls`. The
// operands of the first three are a, b, c, d; a turn has the lane and the factor c + di.
#[derive(Clone, Copy)]
pub enum Call {
    Sum(Figure, Figure, Figure, Figure),
    Determinant(Figure, Figure, Figure, Figure),
    Product(Figure, Figure, Figure, Figure),
    Turn(u8, Figure, Figure),
    Restart(u8),
    Read(u8),
}

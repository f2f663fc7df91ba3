// Turning phasors: exact complex numbers, how far from one a phasor lies, and how far a turn can carry it. The theorems
// stand in proofs/.
#![tactic(auto)]

use rounding::Figure;

// A complex number of two figures.
#[derive(Clone, Copy)]
pub struct Phasor {
    pub real: Figure,
    pub imaginary: Figure,
}

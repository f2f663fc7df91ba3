// Ten lanes, each with a turning phasor and the number of its turns.
#![tactic(auto)]

ghost use Rattle.std.specs.Prelude.{◌≡◌, List, replicate};
ghost use Rattle.lanes.specs.declared.Lane.{Lane};
ghost use Rattle.lanes.specs.Lanes.{found, put, fresh_lane};

use figures::one;
use kinds::Kind;
use phasors::Phasor;
use rounding::Figure;
use std::marker::Model;

// A phasor, and how often it was turned since it was fresh.
#[derive(Clone, Copy)]
pub struct Lane {
    pub phasor: Phasor,
    pub count: u32,
}

// The ten lanes, numbered 0 to 9. Only the functions here know how they lie in memory; contracts see a list of ten
// records.
#[derive(Drop)]
pub struct Lanes {
    lanes: [Lane; 10],
}

impl Model for Lanes {
    ghost Value = { List Lane };

    ghost view = { λ table. table.lanes };
}

impl Lanes {
    // Ten lanes that are all the same.
    pub fn all(lane: Lane) -> Lanes
        ensures { result ≡ replicate 10 lane }
    {
        Lanes { lanes: [lane; 10] }
    }

    // The lane of this number, if there is one.
    pub fn get(&self, number: u8) -> Option<Lane>
        ensures { result ≡ found self.now number }
    {
        self.lanes.get(number as usize).copied()
    }

    // Puts a lane in the place of the one of this number; where there is none, nothing changes. (Through `get_mut`, the
    // search does not prove the clause, and an answer by hand would stand before the edits of this function.)
    pub fn set(&mut self, number: u8, lane: Lane)
        ensures { self.new ≡ put self.old number lane }
    {
        if number > 9 {
            return;
        }
        self.lanes[number as usize] = lane;
    }
}

// A lane that was not yet turned: one and zero.
pub fn fresh_lane<K: Kind>() -> Lane
    ensures { result ≡ fresh_lane K.RADIX K.PRECISION }
{
    Lane {
        phasor: Phasor {
            real: one::<K>(),
            imaginary: Figure { s: 0, q: 0 },
        },
        count: 0,
    }
}

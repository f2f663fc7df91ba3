// A console: one method, and ten lanes whose phasors turn. The operands of a call stand apart, as in `products`; so do
// c and d of a turn, as its refusals are of c before d. What is proved of a call, for any radix, precision and method,
// is the contract of a function with no body beside it: named on `new` itself, the theorem was not found, and an answer
// by hand would stand before the edits of the call. Clauses name radix, precision, allowance and function of the method
// one by one, since the laws of histories hold of any, and a definition cannot name a bound's members; that a call
// leaves the method is no fact about one value, so that each call says it.
#![tactic(auto)]

ghost use Rattle.std.specs.Prelude.{◌≡◌, ◌+◌, ◌≤◌, [], IfOk};
ghost use Rattle.rounding.specs.Refusals.{unless, coded};
ghost use Rattle.figures.specs.Figures.{opposite};
ghost use Rattle.bounds.specs.Fours.{faults};
ghost use Rattle.lanes.specs.Lanes.{at, fresh_lanes};
ghost use Rattle.lanes.specs.Turning.{no_lane, turn_fault, after_turn, after_restart};
ghost use Rattle.histories.specs.declared.Call.TheVariants.{Sum, Determinant, Product, Turn, Restart, Read};
ghost use Rattle.histories.specs.Tracking.{TrackHistory, event, KeepsTrack};
ghost use Rattle.console.specs.Readings.{reading_of, ReportsTrack};
ghost use Rattle.console.specs.Steps.{turn_steps};
ghost use Rattle.console.specs.Laws.{FourLaw, TurnLaw, RestartLaw};

use kinds::format::Format;
use lanes::{Lane, Lanes, fresh_lane};
use methods::check_operand;
use methods::method::Method;
use products::{complex_product, determinant, sum};
use rounding::{Figure, Refusal};
use std::marker::Model;
use turning::turned;

mod turning;

// A method and ten lanes. Nothing but the calls below changes them.
#[derive(Drop)]
pub struct Console<M: Method> {
    method: M,
    lanes: Lanes,
}

impl<M: Method> Model for Console<M> {
    ghost use Rattle.lanes.specs.Turning.{FewTurns};
    ghost use Rattle.console.specs.State.{State};

    ghost Value = { State M };

    ghost view = { λ console. record { method = console.method; lanes = console.lanes } };

    ghost invariant = { λ console. FewTurns console.lanes };
}

// What a lane shows: its count, and both parts of its phasor. Users see it; a `Lane` is what the table holds.
#[derive(Clone, Copy, Debug, PartialEq, Eq)]
pub struct Reading {
    pub count: u32,
    pub real: Figure,
    pub imaginary: Figure,
}

impl From<Lane> for Reading {
    ghost from_gives = { λ lane reading. reading ≡ reading_of lane };

    fn from(lane: Lane) -> Reading {
        Reading {
            count: lane.count,
            real: lane.phasor.real,
            imaginary: lane.phasor.imaginary,
        }
    }
}

impl<M: Method> Console<M> {
    // What is proved of a new console.
    fn new_law(method: &M)
        ensures { TrackHistory M.Arith.RADIX M.Arith.PRECISION
            (M.Method.num method.now) (M.Method.den method.now)
            [] (fresh_lanes M.Arith.RADIX M.Arith.PRECISION) }
    {}

    // A console with ten fresh lanes. They track the empty history.
    pub fn new(method: M) -> Self
        ensures method { result.method ≡ method }
        ensures lanes { result.lanes ≡ fresh_lanes M.Arith.RADIX M.Arith.PRECISION }
        ensures track { TrackHistory M.Arith.RADIX M.Arith.PRECISION (M.Method.num method)
            (M.Method.den method) [] result.lanes }
    {
        Self::new_law(&method);
        Console {
            method,
            lanes: Lanes::all(fresh_lane::<M::Arith>()),
        }
    }

    // What is proved of a sum, a determinant and a complex product.
    fn four_law(&self, a: Figure, b: Figure, c: Figure, d: Figure)
        ensures { FourLaw M.Arith.RADIX M.Arith.PRECISION
            (M.Method.num self.now.method) (M.Method.den self.now.method)
            (M.Method.answer self.now.method) self.now.lanes a b c d }
    {}

    // ab + cd. No lane changes.
    pub fn sum(&self, a: Figure, b: Figure, c: Figure, d: Figure) -> Result<Figure, Refusal>
        ensures answer { coded result ≡ unless (faults M.Arith.RADIX M.Arith.PRECISION a b c d)
            (M.Method.answer self.now.method a b c d) }
        ensures track { KeepsTrack M.Arith.RADIX M.Arith.PRECISION
            (M.Method.num self.now.method) (M.Method.den self.now.method)
            (event (Sum a b c d) (coded result))
            self.now.lanes self.now.lanes }
    {
        self.four_law(a, b, c, d);
        sum(&self.method, a, b, c, d)
    }

    // ad - bc. No lane changes.
    pub fn determinant(&self, a: Figure, b: Figure, c: Figure, d: Figure) -> Result<Figure, Refusal>
        ensures answer { coded result ≡ unless (faults M.Arith.RADIX M.Arith.PRECISION a b c d)
            (M.Method.answer self.now.method a d (opposite b) c) }
        ensures track { KeepsTrack M.Arith.RADIX M.Arith.PRECISION
            (M.Method.num self.now.method) (M.Method.den self.now.method)
            (event (Determinant a b c d) (coded result))
            self.now.lanes self.now.lanes }
    {
        self.four_law(a, b, c, d);
        determinant(&self.method, a, b, c, d)
    }

    // (a + bi)(c + di): the real and the imaginary part. No lane changes.
    pub fn complex_product(
        &self,
        a: Figure,
        b: Figure,
        c: Figure,
        d: Figure,
    ) -> Result<(Figure, Figure), Refusal>
        ensures answer { coded result ≡ unless (faults M.Arith.RADIX M.Arith.PRECISION a b c d) (
          M.Method.answer self.now.method a c (opposite b) d,
          M.Method.answer self.now.method a d b c,
        ) }
        ensures track { KeepsTrack M.Arith.RADIX M.Arith.PRECISION
            (M.Method.num self.now.method) (M.Method.den self.now.method)
            (event (Product a b c d) (coded result))
            self.now.lanes self.now.lanes }
    {
        self.four_law(a, b, c, d);
        complex_product(&self.method, a, b, c, d)
    }

    // The lane of this number.
    fn lane(&self, number: u8) -> Result<Lane, Refusal>
        ensures few { IfOk result (λ lane. lane.count ≤ 1000000) }
        ensures lane { coded result ≡ unless (no_lane number) (at self.now.lanes number) }
    {
        self.lanes.get(number).ok_or(Refusal::NoLane)
    }

    // The lane of this number, turned by c + di.
    fn turned_lane(&self, lane: u8, c: Figure, d: Figure) -> Result<Lane, Refusal>
        ensures steps { coded result ≡ turn_steps M.Arith.RADIX M.Arith.PRECISION
            (M.Method.answer self.now.method) self.now.lanes lane c d }
        ensures few { IfOk result (λ turned. turned.count ≤ 1000000) }
    {
        let old = self.lane(lane)?;
        let format = Format::of::<M::Arith>();
        check_operand(format, c)?;
        check_operand(format, d)?;
        turned(&self.method, old, c, d)
    }

    // What is proved of a turn.
    fn turn_law(&self, lane: u8, c: Figure, d: Figure)
        ensures { TurnLaw M.Arith.RADIX M.Arith.PRECISION
            (M.Method.num self.now.method) (M.Method.den self.now.method)
            (M.Method.answer self.now.method) self.now.lanes lane c d }
    {}

    // Turns a lane by c + di: its phasor becomes its complex product with c + di, and its count, which is
    // the answer, rises by one.
    #[tactic(auto, using(crate::proofs::FewTurns::few_put))]
    pub fn turn(&mut self, lane: u8, c: Figure, d: Figure) -> Result<u32, Refusal>
        ensures answer { coded result ≡ unless (turn_fault M.Arith.RADIX M.Arith.PRECISION
            (M.Method.answer self.old.method) self.old.lanes lane c d)
            ((at self.old.lanes lane).count + 1) }
        ensures few { IfOk result (λ count. count ≤ 1000000) }
        ensures lanes { self.new.lanes ≡ after_turn M.Arith.RADIX M.Arith.PRECISION
            (M.Method.answer self.old.method) self.old.lanes lane c d }
        ensures method { self.new.method ≡ self.old.method }
        ensures track { KeepsTrack M.Arith.RADIX M.Arith.PRECISION
            (M.Method.num self.old.method) (M.Method.den self.old.method)
            (event (Turn lane c d) (coded result))
            self.old.lanes self.new.lanes }
    {
        self.turn_law(lane, c, d);
        let new = self.turned_lane(lane, c, d)?;
        self.lanes.set(lane, new);
        Ok(new.count)
    }

    // What is proved of a restart.
    fn restart_law(&self, lane: u8)
        ensures { RestartLaw M.Arith.RADIX M.Arith.PRECISION
            (M.Method.num self.now.method) (M.Method.den self.now.method)
            self.now.lanes lane }
    {}

    // Makes a lane fresh again, and answers its count.
    pub fn restart(&mut self, lane: u8) -> Result<u32, Refusal>
        ensures answer { coded result ≡ unless (no_lane lane) 0 }
        ensures lanes { self.new.lanes ≡ after_restart M.Arith.RADIX M.Arith.PRECISION
            self.old.lanes lane }
        ensures method { self.new.method ≡ self.old.method }
        ensures track { KeepsTrack M.Arith.RADIX M.Arith.PRECISION
            (M.Method.num self.old.method) (M.Method.den self.old.method)
            (event (Restart lane) (coded result))
            self.old.lanes self.new.lanes }
    {
        self.restart_law(lane);
        self.lane(lane)?;
        let fresh = fresh_lane::<M::Arith>();
        self.lanes.set(lane, fresh);
        Ok(0)
    }

    // What a lane shows. No lane changes.
    pub fn read(&self, lane: u8) -> Result<Reading, Refusal>
        ensures answer { coded result ≡ unless (no_lane lane)
            (reading_of (at self.now.lanes lane)) }
        ensures few { IfOk result (λ reading. reading.count ≤ 1000000) }
        ensures track { KeepsTrack M.Arith.RADIX M.Arith.PRECISION
            (M.Method.num self.now.method) (M.Method.den self.now.method)
            (event (Read lane) (coded result))
            self.now.lanes self.now.lanes }
        ensures report { ReportsTrack M.Arith.RADIX M.Arith.PRECISION
            (M.Method.num self.now.method) (M.Method.den self.now.method)
            self.now.lanes lane (coded result) }
    {
        Ok(Reading::from(self.lane(lane)?))
    }
}

// Calls made of a console one after the other, and what all of them together promise.
#![tactic(auto)]

ghost use Rattle.std.specs.Prelude.{◌≡◌, IfOk};
ghost use Rattle.rounding.specs.Errors.{UlpIsLastPlace};
ghost use Rattle.rounding.specs.Nearest.{RoundsToNearest};
ghost use Rattle.rounding.specs.Refusals.{coded};
ghost use Rattle.bounds.specs.Accuracy.{KahanIsAccurate, SymmetricIsAccurate};
ghost use Rattle.lanes.specs.Lanes.{fresh_lanes};
ghost use Rattle.histories.specs.Tracking.{event, KeepsTrack};
ghost use Rattle.runs.specs.Answers.{answer_to, lanes_after, ShowsFew};
ghost use Rattle.runs.specs.Following.{FollowsTrack, CallLaw};
ghost use Rattle.runs.specs.Entries.{unmade, calls_of, answers_of, answers_to, lanes_after_all, RunTracked};

use console::{Console, Reading};
use histories::Call;
use methods::method::Method;
use rounding::{Figure, Refusal};

// What a console answers: the figure of a sum or a determinant, both parts of a complex product, the count after a turn
// or a restart, or what a reading shows.
#[derive(Clone, Copy, Debug, PartialEq, Eq)]
pub enum Answer {
    Value(Figure),
    Parts(Figure, Figure),
    Count(u32),
    Shown(Reading),
}

// A call with its answer once it was made.
#[derive(Clone, Copy)]
pub struct Entry {
    pub call: Call,
    pub answer: Result<Answer, Refusal>,
}

impl Entry {
    // A call that is yet to be made: the refusal in the place of its answer says nothing. (With an `Option` there,
    // every law of a run would have a case for an answer that is missing, which after the run none is.)
    pub fn new(call: Call) -> Entry
        ensures { result ≡ unmade call }
    {
        Entry {
            call,
            answer: Err(Refusal::NoLane),
        }
    }
}

// The answer to a call. A call is a value and no closure, since histories record it.
fn answer_to<M: Method>(console: &mut Console<M>, call: Call) -> Result<Answer, Refusal>
    ensures answer { coded result ≡ answer_to M.Arith.RADIX M.Arith.PRECISION
        (M.Method.answer console.old.method) console.old.lanes call }
    ensures few { IfOk result ShowsFew }
    ensures lanes { console.new.lanes ≡ lanes_after M.Arith.RADIX M.Arith.PRECISION
        (M.Method.answer console.old.method) console.old.lanes call }
    ensures method { console.new.method ≡ console.old.method }
{
    match call {
        Call::Sum(a, b, c, d) => console.sum(a, b, c, d).map(Answer::Value),
        Call::Determinant(a, b, c, d) => console.determinant(a, b, c, d).map(Answer::Value),
        Call::Product(a, b, c, d) => console
            .complex_product(a, b, c, d)
            .map(|(real, imaginary)| Answer::Parts(real, imaginary)),
        Call::Turn(i, c, d) => console.turn(i, c, d).map(Answer::Count),
        Call::Restart(i) => console.restart(i).map(Answer::Count),
        Call::Read(i) => console.read(i).map(Answer::Shown),
    }
}

// What is proved of a call, beside it as in `console`.
fn call_law<M: Method>(console: &Console<M>, call: Call)
    ensures { CallLaw M.Arith.RADIX M.Arith.PRECISION (M.Method.num console.now.method)
        (M.Method.den console.now.method) (M.Method.answer console.now.method)
        console.now.lanes call }
{}

// Makes a call of a console.
pub fn perform<M: Method>(console: &mut Console<M>, call: Call) -> Result<Answer, Refusal>
    ensures answer { coded result ≡ answer_to M.Arith.RADIX M.Arith.PRECISION
        (M.Method.answer console.old.method) console.old.lanes call }
    ensures few { IfOk result ShowsFew }
    ensures lanes { console.new.lanes ≡ lanes_after M.Arith.RADIX M.Arith.PRECISION
        (M.Method.answer console.old.method) console.old.lanes call }
    ensures method { console.new.method ≡ console.old.method }
    ensures track { KeepsTrack M.Arith.RADIX M.Arith.PRECISION
        (M.Method.num console.old.method) (M.Method.den console.old.method)
        (event call (coded result)) console.old.lanes console.new.lanes }
    ensures follows { FollowsTrack M.Arith.RADIX M.Arith.PRECISION
        (M.Method.num console.old.method) (M.Method.den console.old.method)
        (M.Method.answer console.old.method) console.old.lanes call (coded result) }
{
    call_law(console, call);
    answer_to(console, call)
}

// Makes the calls of the entries in order, and writes each answer beside its call. That the calls stay is said here and
// in `run`, since it is no fact about one value.
fn make_all<M: Method>(console: &mut Console<M>, entries: &mut [Entry])
    ensures calls { calls_of entries.new ≡ calls_of entries.old }
    ensures answers { answers_of entries.new ≡ answers_to M.Arith.RADIX M.Arith.PRECISION
        (M.Method.answer console.old.method) console.old.lanes
        (calls_of entries.old) }
    ensures lanes { console.new.lanes ≡ lanes_after_all M.Arith.RADIX M.Arith.PRECISION
        (M.Method.answer console.old.method) console.old.lanes
        (calls_of entries.old) }
    ensures method { console.new.method ≡ console.old.method }
    ensures tracked { console.old.lanes
        ≡ fresh_lanes M.Arith.RADIX M.Arith.PRECISION
        → RunTracked M.Arith.RADIX M.Arith.PRECISION (M.Method.num console.old.method)
        (M.Method.den console.old.method) (M.Method.answer console.old.method)
        entries.new console.new.lanes }
{
    for entry in entries.iter_mut() {
        entry.answer = perform(console, entry.call);
    }
}

// What is proved of rounding and of both methods: called in a body, so that an edit can leave it out.
fn methods_are_accurate()
    ensures rounding { RoundsToNearest }
    ensures place { UlpIsLastPlace }
    ensures kahan { KahanIsAccurate }
    ensures symmetric { SymmetricIsAccurate }
{}

// Makes the calls of the entries, in order, of a new console that holds the method, and writes each answer beside its
// call.
pub fn run<M: Method>(method: M, entries: &mut [Entry]) -> Console<M>
    ensures rounding { RoundsToNearest }
    ensures place { UlpIsLastPlace }
    ensures kahan { KahanIsAccurate }
    ensures symmetric { SymmetricIsAccurate }
    ensures tracked { RunTracked M.Arith.RADIX M.Arith.PRECISION (M.Method.num method)
        (M.Method.den method) (M.Method.answer method) entries.new result.lanes }
    ensures calls { calls_of entries.new ≡ calls_of entries.old }
    ensures answers { answers_of entries.new ≡ answers_to M.Arith.RADIX M.Arith.PRECISION
        (M.Method.answer method) (fresh_lanes M.Arith.RADIX M.Arith.PRECISION)
        (calls_of entries.old) }
    ensures lanes { result.lanes ≡ lanes_after_all M.Arith.RADIX M.Arith.PRECISION
        (M.Method.answer method) (fresh_lanes M.Arith.RADIX M.Arith.PRECISION)
        (calls_of entries.old) }
    ensures method { result.method ≡ method }
{
    methods_are_accurate();
    let mut console = Console::new(method);
    make_all(&mut console, entries);
    console
}

// A row of a batch: one line.
ghost use Rattle.std.specs.Prelude.{◌≡◌, IfOk};
ghost use Rattle.requests.specs.Faults.{stopped};
ghost use Rattle.runs.specs.Answers.{ShowsFew};
ghost use Rattle.batch.specs.Rows.{row_answer, row_lanes};

use crate::place::place_of;
use console::Console;
use methods::method::Method;
use requests::fault::Fault;
use requests::request;
use runs::{Answer, perform};

// Makes the call that a line asks for, if it asks for one.
pub(crate) fn answer<M: Method>(console: &mut Console<M>, line: &[u8]) -> Result<Answer, Fault>
    ensures answer { stopped result ≡ row_answer M.Arith.RADIX M.Arith.PRECISION M.Arith.MARK
        (M.Method.answer console.old.method) console.old.lanes line.now }
    ensures few { IfOk result ShowsFew }
    ensures lanes { console.new.lanes ≡ row_lanes M.Arith.RADIX M.Arith.PRECISION M.Arith.MARK
        (M.Method.answer console.old.method) console.old.lanes line.now }
    ensures method { console.new.method ≡ console.old.method }
{
    let call = request::<M::Arith>(line)?;
    perform(console, call).map_err(|refusal| Fault {
        refusal,
        place: place_of::<M::Arith>(call, refusal),
    })
}

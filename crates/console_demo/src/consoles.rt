// Scripts run on new consoles.
ghost use Rattle.std.specs.Prelude.{◌≡◌, map, IfOk};
ghost use Rattle.runs.specs.Entries.{unmade, calls_of, answers_of};
ghost use Rattle.console_demo.specs.Scripts.{said_calls, answers_by};

use crate::scripts::Said;
use checked_calls::calls::{Arrangement, BINARY, DECIMAL, SYMMETRIC};
use runs::{Entry, run};
use std::alloc::{AllocError, Global};

// Makes the calls of the entries of a new console by the arrangement's method. In each arm the console has another
// type, which no closure or `dyn` can name.
fn run_by(by: Arrangement, entries: &mut [Entry])
    ensures calls { calls_of entries.new ≡ calls_of entries.old }
    ensures answers { answers_of entries.new ≡ answers_by by (calls_of entries.old) }
{
    match by {
        Arrangement::Binary => {
            run(BINARY, entries);
        }
        Arrangement::Decimal => {
            run(DECIMAL, entries);
        }
        Arrangement::Symmetric => {
            run(SYMMETRIC, entries);
        }
    }
}

// The calls of a script, yet to be made.
fn entries_of(heap: Global, script: &[Said]) -> Result<Vec<Entry>, AllocError>
    ensures { IfOk result (λ v. v.items ≡ map (λ said. unmade said.call) script.now) }
{
    script
        .iter()
        .map(|said| Entry::new(said.call))
        .collect(heap)
}

// The entries with the answers of a new console beside their calls.
fn answered(by: Arrangement, mut entries: Vec<Entry>) -> Vec<Entry>
    ensures calls { calls_of result.items ≡ calls_of entries.items }
    ensures answers { answers_of result.items ≡ answers_by by (calls_of entries.items) }
{
    run_by(by, entries.as_mut_slice());
    entries
}

// The calls of a script, made of a new console, with their answers.
#[tactic(auto, using(crate::proofs::Unmade::calls_of_unmade))]
pub fn made_by(heap: Global, by: Arrangement, script: &[Said]) -> Result<Vec<Entry>, AllocError>
    ensures calls { IfOk result (λ v. calls_of v.items ≡ said_calls script.now) }
    ensures answers { IfOk result (λ v. answers_of v.items ≡ answers_by by (said_calls script.now)) }
{
    let entries = entries_of(heap, script)?;
    Ok(answered(by, entries))
}

// The program that shows the calls at work: calls with known answers; a heat that was decided wrongly, in both kinds,
// step by step; and consoles on which several users compute, turn lanes, restart and read them.
#![tactic(auto)]

mod consoles;
mod scripts;

use checked_calls::calls::Arrangement;
use checked_calls::checked_calls;
use consoles::made_by;
use heats::Heat;
use scripts::Said;
use sentences::consoles::Sentence as EntrySentence;
use sentences::operations::Sentence;

// Runs a script on a new console and prints each call with its answer.
fn show(rt: &(impl Print + AllocGlobal), by: Arrangement, script: &[Said]) -> anyhow::Result<()> {
    println!(rt; "One {by} console, several users")?;
    let entries = made_by(rt.alloc(), by, script)?;
    for (said, &entry) in script.iter().zip(entries.iter()) {
        println!(rt; "  [{}] {}", said.user, EntrySentence { by, entry })?;
    }
    Ok(())
}

fn main(rt: HostRuntime) -> anyhow::Result<()> {
    println!(rt; "Calls with known answers")?;
    for made in checked_calls() {
        println!(rt; "  {}", Sentence { made })?;
    }
    heats::show(&rt, Arrangement::Binary, Heat::BINARY)?;
    heats::show(&rt, Arrangement::Decimal, Heat::DECIMAL)?;
    show(&rt, Arrangement::Binary, &scripts::BINARY)?;
    show(&rt, Arrangement::Decimal, &scripts::DECIMAL)?;
    show(&rt, Arrangement::Symmetric, &scripts::SYMMETRIC)
}

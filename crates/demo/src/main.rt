// The program that shows the calls at work: calls with known answers; a heat that was decided wrongly, in both kinds,
// step by step; and sums, determinants and complex products by each method.
#![tactic(auto)]

mod shown;

use checked_calls::calls::{Answered, Arrangement, answer_of, product_of};
use checked_calls::checked_calls;
use heats::{Heat, show};
use sentences::operations::{ProductSentence, Sentence};
use shown::{CALLS, PRODUCTS};

fn main(rt: HostRuntime) -> anyhow::Result<()> {
    println!(rt; "Calls with known answers")?;
    for made in checked_calls() {
        println!(rt; "  {}", Sentence { made })?;
    }
    show(&rt, Arrangement::Binary, Heat::BINARY)?;
    show(&rt, Arrangement::Decimal, Heat::DECIMAL)?;
    println!(rt; "Sums, determinants and complex products")?;
    for (by, call) in CALLS {
        let answer = answer_of(by, call);
        let made = Answered { by, call, answer };
        println!(rt; "  {by}: {}", Sentence { made })?;
    }
    for four in PRODUCTS {
        let answer = product_of(four.by, four.a, four.b, four.c, four.d);
        let line = ProductSentence { four, answer };
        println!(rt; "  {}: {line}", four.by)?;
    }
    Ok(())
}

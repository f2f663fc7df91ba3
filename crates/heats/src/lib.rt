// A heat whose lanes' times agree in every leading digit: the difference of the times worked out in two ways, and who
// touched first by each.
#![tactic(auto)]

ghost use Rattle.std.specs.Prelude.{◌≡◌, IsOk, IfOk, OnOk, Ok};
ghost use Rattle.checked_calls.specs.Calls.{answer_of};
ghost use Rattle.heats.specs.Steps.{products_first, error_kept};

use anyhow::Context;
use checked_calls::calls::{Answered, Arrangement, Call, answer_of};
use figures::opposite;
use rounding::{Figure, figure};
use sentences::Shown;
use sentences::operations::Sentence;
use verdict::Verdict;

pub mod verdict;

// The difference ab - cd: the time of one lane less that of the other. It has no arrangement, as the fours that are
// printed have: that is asked for beside it.
#[derive(Clone, Copy)]
pub struct Heat {
    pub a: Figure,
    pub b: Figure,
    pub c: Figure,
    pub d: Figure,
}

// A heat of each kind in which both products round to the same figure.
impl Heat {
    pub const BINARY: Heat = Heat {
        a: figure!(8388609, -23),
        b: figure!(8388609, -23),
        c: figure!(8388610, -23),
        d: figure!(8388608, -23),
    };

    pub const DECIMAL: Heat = Heat {
        a: figure!(1000001, -6),
        b: figure!(1000001, -6),
        c: figure!(1000002, -6),
        d: figure!(1000000, -6),
    };
}

// Makes a call, prints a line that tells of it, and hands on what it answered.
fn act(rt: &impl Print, by: Arrangement, call: Call) -> anyhow::Result<Figure>
    ensures { IfOk result (λ f. answer_of by call ≡ Ok f) }
{
    let answer = answer_of(by, call);
    let made = Answered { by, call, answer };
    println!(rt; "  {}", Sentence { made })?;
    answer.context("a step of the heat was refused")
}

// Both products rounded, and then their difference.
pub fn products_first(rt: &impl Print, by: Arrangement, heat: Heat) -> anyhow::Result<Figure>
    ensures { IfOk result (λ f. products_first by heat ≡ Ok f) }
{
    let x = act(rt, by, Call::Multiply(heat.a, heat.b))?;
    let y = act(rt, by, Call::Multiply(heat.c, heat.d))?;
    act(rt, by, Call::Add(x, opposite(y)))
}

// One product rounded and its error kept, the other added to both.
pub fn error_kept(rt: &impl Print, by: Arrangement, heat: Heat) -> anyhow::Result<Figure>
    ensures { IfOk result (λ f. error_kept by heat ≡ Ok f) }
{
    let minus = opposite(heat.c);
    let w = act(rt, by, Call::Multiply(minus, heat.d))?;
    let e = act(rt, by, Call::Fused(minus, heat.d, opposite(w)))?;
    let f = act(rt, by, Call::Fused(heat.a, heat.b, w))?;
    act(rt, by, Call::Add(f, e))
}

// Prints the heat, each step of both ways, and the verdict of each. It ends well only where both have an answer.
pub fn show(rt: &impl Print, by: Arrangement, heat: Heat) -> anyhow::Result<()>
    ensures rounded { OnOk result (IsOk (products_first by heat)) }
    ensures exact { OnOk result (IsOk (error_kept by heat)) }
{
    let a = Shown { by, figure: heat.a };
    let b = Shown { by, figure: heat.b };
    let c = Shown { by, figure: heat.c };
    let d = Shown { by, figure: heat.d };
    println!(rt; "The first lane's time less the second's: {a} x {b} - {c} x {d}")?;
    println!(rt; " with both products rounded first")?;
    let rounded = products_first(rt, by, heat)?;
    println!(rt; "  the difference is {}", Verdict::from(rounded))?;
    println!(rt; " with one product rounded and its error kept")?;
    let exact = error_kept(rt, by, heat)?;
    println!(rt; "  the difference is {}", Verdict::from(exact))?;
    Ok(())
}

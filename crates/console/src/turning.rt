// A turn of a lane, step by step. Each step may refuse.
ghost use Rattle.std.specs.Prelude.{◌≡◌, ◌<◌, ◌≤◌, OnOk, IfOk};
ghost use Rattle.rounding.specs.Refusals.{coded, fault_of};
ghost use Rattle.lanes.specs.Turning.{full, strayed};
ghost use Rattle.console.specs.Steps.{product_steps, lane_steps};

use lanes::Lane;
use methods::method::Method;
use phasors::Phasor;
use products::complex_product;
use rounding::{Figure, Refusal};

// Refuses a lane that has been turned as often as a lane may be.
fn check_room(lane: Lane) -> Result<(), Refusal>
    ensures fault { fault_of result ≡ full lane }
    ensures few { OnOk result (lane.count < 1000000) }
{
    if lane.count < 1_000_000 {
        Ok(())
    } else {
        Err(Refusal::LaneFull)
    }
}

// Refuses a phasor of which a part has an exponent outside -200..200.
fn check_reach(phasor: Phasor) -> Result<(), Refusal>
    ensures { fault_of result ≡ strayed phasor }
{
    if phasor.real.reaches(200) && phasor.imaginary.reaches(200) {
        Ok(())
    } else {
        Err(Refusal::PhasorRange)
    }
}

// The complex product of a phasor with c + di, the phasor first.
fn product_by<M: Method>(
    method: &M,
    phasor: Phasor,
    c: Figure,
    d: Figure,
) -> Result<Phasor, Refusal>
    ensures { coded result ≡ product_steps M.Arith.RADIX M.Arith.PRECISION
        (M.Method.answer method.now) phasor c d }
{
    let (real, imaginary) = complex_product(method, phasor.real, phasor.imaginary, c, d)?;
    Ok(Phasor { real, imaginary })
}

// The lane turned by c + di.
pub(crate) fn turned<M: Method>(
    method: &M,
    lane: Lane,
    c: Figure,
    d: Figure,
) -> Result<Lane, Refusal>
    ensures steps { coded result ≡ lane_steps M.Arith.RADIX M.Arith.PRECISION
        (M.Method.answer method.now) lane c d }
    ensures few { IfOk result (λ turned. turned.count ≤ 1000000) }
{
    check_room(lane)?;
    let phasor = product_by(method, lane.phasor, c, d)?;
    check_reach(phasor)?;
    Ok(Lane {
        phasor,
        count: lane.count + 1,
    })
}

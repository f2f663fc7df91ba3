// Whole outputs, with the lines that close them.
ghost use Rattle.std.specs.Prelude.{◌≡◌, OnOk};
ghost use Rattle.outputs.specs.Outputs.{fresh_batch, output_of};

use checked_calls::calls::{BINARY, DECIMAL, SYMMETRIC};
use methods::method::Method;
use outputs::output;
use std::alloc::Global;
use std::test::Fail;

// Passes only where the whole output for a text is the one told.
fn output_stands<M: Method + Drop>(
    alloc: Global,
    method: M,
    text: &[u8],
    told: &[u8],
) -> Result<(), Fail>
    ensures { OnOk result (output_of (fresh_batch M.Arith.RADIX M.Arith.PRECISION M.Arith.MARK
        (M.Method.answer method) text.now) ≡ told.now) }
{
    let output = output(alloc, method, text)?;
    if output.as_slice() == told {
        Ok(())
    } else {
        Err(Fail::new(format_args!("{} bytes in place of {told:?}", output.len())))
    }
}

#[test]
fn short_outputs(rt: HostRuntime) -> Result<(), Fail> {
    output_stands(rt.alloc(), BINARY, b"", b"")?;
    output_stands(rt.alloc(), BINARY, b"\n", b"")?;
    output_stands(rt.alloc(), SYMMETRIC, b"restart 0", b"1 0\n")?;
    output_stands(
        rt.alloc(),
        DECIMAL,
        b"x\nread 0\n\nx\n",
        b"1 no 43 1\n2 0 1000000e-6 0e0\n",
    )
}

#[test]
fn too_long_a_text(rt: HostRuntime) -> Result<(), Fail> {
    let text = vec![in rt.alloc(); b'x'; 65_537]?;
    output_stands(rt.alloc(), BINARY, &text, b"0 no 61 0\n")?;
    output_stands(rt.alloc(), DECIMAL, &text, b"0 no 61 0\n")?;
    output_stands(rt.alloc(), SYMMETRIC, &text, b"0 no 61 0\n")?;
    output_stands(rt.alloc(), BINARY, &text[..65_536], b"1 no 41 0\n")
}

// 5,122 lines of at most 13 bytes leave fewer than 64 of 65,536.
#[test]
fn full_report(rt: HostRuntime) -> Result<(), Fail> {
    let mut text = Vec::new(rt.alloc());
    for _ in 0..32_768 {
        text.extend_from_slice(b"x\n")?;
    }
    let output = output(rt.alloc(), BINARY, &text)?;
    if output.len() == 65_489 && output.ends_with(b"\n5122 no 43 1\n0 no 51 0\n") {
        Ok(())
    } else {
        Err(Fail::new(format_args!("{} bytes", output.len())))
    }
}

// The form of a kind's significands, in machine words.
ghost use Rattle.std.specs.Prelude.{◌≡◌, ◌-◌, ◌*◌, ◌^◌, ◌<◌, ◌≤◌};
ghost use Rattle.kinds.specs.Kinds.{IsKind};

// The radix β, the precision p, the least significand β^(p-1) and the first number past the largest, β^p.
// The last five facts follow from those before; casts and sums in words rest on them.
#[derive(Clone, Copy)]
pub struct Format {
    pub radix: u64,
    pub precision: u32,
    pub least: u64,
    pub top: u64,
    ghost kind: { IsKind radix precision },
    ghost least_is: { least ≡ radix ^ (precision - 1) },
    ghost top_is: { top ≡ radix ^ precision },
    ghost radix_two: { 2 ≤ radix },
    ghost few_digits: { precision ≤ 24 },
    ghost least_below: { least < top },
    ghost product_above: { top ≤ top * top },
    ghost product_small: { top * top ≤ 281474976710656 },
}

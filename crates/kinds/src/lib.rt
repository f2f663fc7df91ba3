// Kinds of figures, and everything that knows powers of their radix.
#![tactic(auto)]

ghost use Rattle.std.specs.Prelude.{ℕ};
ghost use Rattle.kinds.specs.Kinds.{IsKind, IsMark};
ghost use Rattle.kinds.specs.Constants.{binary_is_kind, decimal_is_kind, p_is_mark, e_is_mark};

pub mod format;
pub mod powers;

// A kind of figures: its radix, its precision in digits, and the letter that marks its figures in text. Clauses, laws
// and proofs name each constant by the ghost member of the same name.
pub trait Kind {
    const RADIX: u32;

    const PRECISION: u32;

    const MARK: u8;

    ghost RADIX: { ℕ };

    ghost PRECISION: { ℕ };

    ghost MARK: { ℕ };

    ghost kind: { IsKind RADIX PRECISION };

    ghost marked: { IsMark MARK };
}

// 24 binary digits, marked p.
#[derive(Drop)]
pub struct Binary;

impl Kind for Binary {
    const RADIX: u32 = 2;

    const PRECISION: u32 = 24;

    const MARK: u8 = b'p';

    ghost RADIX = { 2 };

    ghost PRECISION = { 24 };

    ghost MARK = { 112 };

    ghost kind = { binary_is_kind };

    ghost marked = { p_is_mark };
}

// Seven decimal digits, marked e.
#[derive(Drop)]
pub struct Decimal;

impl Kind for Decimal {
    const RADIX: u32 = 10;

    const PRECISION: u32 = 7;

    const MARK: u8 = b'e';

    ghost RADIX = { 10 };

    ghost PRECISION = { 7 };

    ghost MARK = { 101 };

    ghost kind = { decimal_is_kind };

    ghost marked = { e_is_mark };
}

// The bytes after the operands of field ops and swaps: which are allowed, and what the flags say.
#![tactic(auto)]

ghost use Rattle.std.specs.Prelude.{◌≡◌, not, ◌||◌, ltb};
ghost use Rattle.word.specs.Fields.{field_ok, position_ok};
ghost use Rattle.word.specs.Swaps.{has_iz, has_os, swap_flags_ok, no_flags_ok};

// A field has a bit, and ends within the width.
pub fn field_ok(bits: u32, pos: u8, len: u8) -> bool
    ensures { result ≡ field_ok bits pos len }
{
    0 < len && pos as u32 + len as u32 <= bits
}

pub fn position_ok(bits: u32, pos: u8) -> bool
    ensures { result ≡ position_ok bits pos }
{
    pos as u32 <= bits
}

// One of OZ and OS, with IZ or without: 2 to 5.
pub fn swap_flags_ok(flags: u8) -> bool
    ensures { result ≡ swap_flags_ok flags }
{
    2 <= flags && flags <= 5
}

pub fn no_flags_ok(flags: u8) -> bool
    ensures { result ≡ no_flags_ok flags }
{
    flags == 0
}

// The input is said to be zero-extended.
fn has_iz(flags: u8) -> bool
    ensures { result ≡ has_iz flags }
{
    flags % 2 == 1
}

// The output is sign-extended.
pub fn has_os(flags: u8) -> bool
    ensures { result ≡ has_os flags }
{
    flags / 4 % 2 == 1
}

// An input below the limit, or not said to be zero-extended.
pub fn input_ok(flags: u8, a: u64, limit: u64) -> bool
    ensures { result ≡ (not (has_iz flags) || ltb a limit) }
{
    !has_iz(flags) || a < limit
}

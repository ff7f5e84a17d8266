// Between the widths.
ghost use Rattle.std.specs.Prelude.{◌≡◌, ◌%◌, ◌^◌};
ghost use Rattle.word.specs.Word.{extend_w};

use words::{Word, to_bits};

pub fn ext_i32_i64(a: u32) -> u64
    ensures { result ≡ extend_w 32 64 a }
{
    to_bits(a.to_signed())
}

pub fn extu_i32_i64(a: u32) -> u64
    ensures { result ≡ a }
{
    a as u64
}

pub fn trunc_i64_i32(a: u64) -> u32
    ensures { result ≡ a % 2 ^ 32 }
{
    (a % 0x1_0000_0000) as u32
}

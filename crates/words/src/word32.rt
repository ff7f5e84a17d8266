// Words of 32 bits. Each method is the type's own instruction: in 64 bits a division would not be a 32-bit one, and no pair of shifts a rotation.
ghost use Rattle.std.specs.Prelude.{refl};
ghost use Rattle.std.proofs.Common.{inl};

use super::Word;

impl Word for u32 {
    const BITS: u64 = 32;

    ghost BITS = { 32 };

    ghost value = { λ x. x };

    fn number(self) -> u64 {
        self as u64
    }

    fn low(x: u64) -> u32 {
        (x % 0x1_0000_0000) as u32
    }

    fn up(self, n: u64) -> u32 {
        self << n
    }

    fn down(self, n: u64) -> u32 {
        self >> n
    }

    fn to_signed(self) -> i64 {
        self.cast_signed() as i64
    }

    fn quotient(self, other: u32) -> u32 {
        (self.cast_signed() / other.cast_signed()).cast_unsigned()
    }

    fn remainder(self, other: u32) -> u32 {
        (self.cast_signed() % other.cast_signed()).cast_unsigned()
    }

    ghost widths = { inl refl };
}

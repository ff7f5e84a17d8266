// Words of 64 bits. Each method is the type's own instruction, as in `word32`.
ghost use Rattle.std.specs.Prelude.{refl};
ghost use Rattle.std.proofs.Common.{inr};

use super::Word;

impl Word for u64 {
    const BITS: u64 = 64;

    ghost BITS = { 64 };

    ghost value = { λ x. x };

    fn number(self) -> u64 {
        self
    }

    fn low(x: u64) -> u64 {
        x
    }

    fn up(self, n: u64) -> u64 {
        self << n
    }

    fn down(self, n: u64) -> u64 {
        self >> n
    }

    fn to_signed(self) -> i64 {
        self.cast_signed()
    }

    fn quotient(self, other: u64) -> u64 {
        (self.cast_signed() / other.cast_signed()).cast_unsigned()
    }

    fn remainder(self, other: u64) -> u64 {
        (self.cast_signed() % other.cast_signed()).cast_unsigned()
    }

    ghost widths = { inr refl };
}

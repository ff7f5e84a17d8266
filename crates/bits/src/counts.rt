// Bit counts.
ghost use Rattle.std.specs.Prelude.{◌≡◌};
ghost use Rattle.word.specs.Swaps.{clz_w, ctz_w, ctpop_w};

use words::Word;

// The zeros above the highest one of a, or b where it has none.
#[tactic(auto, using(word::proofs::Counts::leading_none, crate::proofs::Among::leading_fits, crate::proofs::Among::leading_among))]
pub fn clz<W: Word>(a: W, b: W) -> u64
    ensures { result ≡ clz_w W.BITS (W.value a) (W.value b) }
{
    let x = a.number();
    if x == 0 {
        return b.number();
    }
    x.leading_zeros() as u64 - (64 - W::BITS)
}

// The zeros below the lowest one of a, or b where it has none.
#[tactic(auto, using(word::proofs::Counts::trailing_none, crate::proofs::Among::trailing_among))]
pub fn ctz<W: Word>(a: W, b: W) -> u64
    ensures { result ≡ ctz_w W.BITS (W.value a) (W.value b) }
{
    let x = a.number();
    if x == 0 {
        b.number()
    } else {
        x.trailing_zeros() as u64
    }
}

// The ones of a.
#[tactic(auto, using(word::proofs::Counts::counted_ones))]
pub fn ctpop<W: Word>(a: W) -> u64
    ensures { result ≡ ctpop_w W.BITS (W.value a) }
{
    a.number().count_ones() as u64
}

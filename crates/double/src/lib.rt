// Double-word arithmetic on words: the high halves. The low ones are the single-word operations'.
#![tactic(auto)]

ghost use Rattle.std.specs.Prelude.{◌≡◌, ◌<◌, ◌^◌};
ghost use Rattle.word.specs.Double.{high_w, add2_w, sub2_w, muluh_w, mulsh_w, carry_w, borrow_w, taken_w};

use words::{Word, add, ones, sub, top};

// What a sum carries.
#[tactic(auto, using(crate::proofs::Halves::of_carry, crate::proofs::Halves::of_none))]
fn carry<W: Word>(a: W, b: W) -> W
    ensures { W.value result ≡ carry_w W.BITS (W.value a) (W.value b) }
{
    if ones::<W>().number() - a.number() < b.number() {
        W::low(1)
    } else {
        W::low(0)
    }
}

// What a difference borrows.
fn borrow<W: Word>(a: W, b: W) -> W
    ensures value { W.value result ≡ borrow_w (W.value a) (W.value b) }
    ensures first_fits { W.value a < 2 ^ W.BITS }
    ensures second_fits { W.value b < 2 ^ W.BITS }
{
    if a.number() < b.number() {
        W::low(1)
    } else {
        W::low(0)
    }
}

#[tactic(auto, using(crate::proofs::Halves::of_sum))]
pub fn add2_high<W: Word>(al: W, ah: W, bl: W, bh: W) -> W
    ensures { W.value result ≡ high_w W.BITS (add2_w W.BITS (W.value al) (W.value ah) (W.value bl) (W.value bh)) }
{
    add(add(ah, bh), carry(al, bl))
}

#[tactic(auto, using(crate::proofs::Halves::of_difference))]
pub fn sub2_high<W: Word>(al: W, ah: W, bl: W, bh: W) -> W
    ensures { W.value result ≡ high_w W.BITS (sub2_w W.BITS (W.value al) (W.value ah) (W.value bl) (W.value bh)) }
{
    // The number of a word comes with its bound, which the law needs of bh.
    let _high = bh.number();
    sub(sub(ah, bh), borrow(al, bl))
}

// The high half of the whole product.
#[tactic(auto, using(crate::proofs::Halves::of_product))]
pub fn muluh<W: Word>(a: W, b: W) -> W
    ensures { W.value result ≡ muluh_w W.BITS (W.value a) (W.value b) }
{
    let whole = a.number() as u128 * b.number() as u128;
    W::low((whole >> W::BITS) as u64)
}

// What the sign of a takes from the unsigned high half.
fn taken<W: Word>(a: W, b: W) -> W
    ensures value { W.value result ≡ taken_w W.BITS (W.value a) (W.value b) }
    ensures fits { W.value a < 2 ^ W.BITS }
{
    if a.number() < top::<W>().number() {
        W::low(0)
    } else {
        b
    }
}

#[tactic(auto, using(crate::proofs::Halves::of_signed))]
pub fn mulsh<W: Word>(a: W, b: W) -> W
    ensures { W.value result ≡ mulsh_w W.BITS (W.value a) (W.value b) }
{
    sub(sub(muluh(a, b), taken(a, b)), taken(b, a))
}

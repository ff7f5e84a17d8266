// Operations on words of the machine's widths, each written once over the width.
#![tactic(auto)]

ghost use Rattle.std.specs.Prelude.{◌≡◌, ◌<◌, ◌-◌, ◌/◌, ◌%◌, ◌^◌, ◌⊎◌, ℕ, false, bit_and, bit_or, bit_xor};
ghost use Rattle.word.specs.Word.{add_w, sub_w, mul_w, neg_w, not_w, andc_w, orc_w, eqv_w, nand_w, nor_w, shl_w, shr_w, sar_w, rotl_w, rotr_w, signed_w, bits_w, divs_w, rems_w, no_quotient, by_divisor, by_signed, by_count};

mod word32;
mod word64;

// An unsigned type of the machine: what its instructions give.
pub trait Word: Copy {
    const BITS: u64;

    ghost BITS: { ℕ };

    // The number that the bits are read as.
    ghost value: { Self → ℕ };

    fn number(self) -> u64
        ensures value { result ≡ value self }
        ensures fits { result < 2 ^ BITS };

    // The word of the low bits.
    fn low(x: u64) -> Self
        ensures { value result ≡ x % 2 ^ BITS };

    fn up(self, n: u64) -> Self
        requires { n < BITS }
        ensures { value result ≡ shl_w BITS (value self) n };

    fn down(self, n: u64) -> Self
        requires { n < BITS }
        ensures { value result ≡ shr_w BITS (value self) n };

    // The word read as signed.
    fn to_signed(self) -> i64
        ensures { result ≡ signed_w BITS (value self) };

    // Signed division, which truncates toward zero.
    fn quotient(self, other: Self) -> Self
        requires { no_quotient BITS (value self) (value other) ≡ false }
        ensures { value result ≡ divs_w BITS (value self) (value other) };

    fn remainder(self, other: Self) -> Self
        requires { no_quotient BITS (value self) (value other) ≡ false }
        ensures { value result ≡ rems_w BITS (value self) (value other) };

    ghost widths: { (BITS ≡ 32) ⊎ (BITS ≡ 64) };
}

// All ones; the top bit alone.
pub fn ones<W: Word>() -> W
    ensures { W.value result ≡ 2 ^ W.BITS - 1 }
{
    W::low(0xffff_ffff_ffff_ffff)
}

pub fn top<W: Word>() -> W
    ensures { W.value result ≡ 2 ^ (W.BITS - 1) }
{
    W::low(1).up(W::BITS - 1)
}

pub fn add<W: Word>(a: W, b: W) -> W
    ensures { W.value result ≡ add_w W.BITS (W.value a) (W.value b) }
{
    W::low(a.number().wrapping_add(b.number()))
}

pub fn sub<W: Word>(a: W, b: W) -> W
    ensures { W.value result ≡ sub_w W.BITS (W.value a) (W.value b) }
{
    W::low(a.number().wrapping_sub(b.number()))
}

pub fn mul<W: Word>(a: W, b: W) -> W
    ensures { W.value result ≡ mul_w W.BITS (W.value a) (W.value b) }
{
    W::low(a.number().wrapping_mul(b.number()))
}

pub fn neg<W: Word>(a: W) -> W
    ensures { W.value result ≡ neg_w W.BITS (W.value a) }
{
    W::low(0u64.wrapping_sub(a.number()))
}

pub fn not<W: Word>(a: W) -> W
    ensures { W.value result ≡ not_w W.BITS (W.value a) }
{
    W::low(!a.number())
}

pub fn and<W: Word>(a: W, b: W) -> W
    ensures { W.value result ≡ bit_and (W.value a) (W.value b) }
{
    W::low(a.number() & b.number())
}

#[tactic(auto, using(crate::proofs::Wraps::or_low))]
pub fn or<W: Word>(a: W, b: W) -> W
    ensures { W.value result ≡ bit_or (W.value a) (W.value b) }
{
    W::low(a.number() | b.number())
}

#[tactic(auto, using(crate::proofs::Wraps::xor_low))]
pub fn xor<W: Word>(a: W, b: W) -> W
    ensures { W.value result ≡ bit_xor (W.value a) (W.value b) }
{
    W::low(a.number() ^ b.number())
}

pub fn andc<W: Word>(a: W, b: W) -> W
    ensures { W.value result ≡ andc_w W.BITS (W.value a) (W.value b) }
{
    and(a, not(b))
}

pub fn orc<W: Word>(a: W, b: W) -> W
    ensures { W.value result ≡ orc_w W.BITS (W.value a) (W.value b) }
{
    or(a, not(b))
}

pub fn eqv<W: Word>(a: W, b: W) -> W
    ensures { W.value result ≡ eqv_w W.BITS (W.value a) (W.value b) }
{
    not(xor(a, b))
}

pub fn nand<W: Word>(a: W, b: W) -> W
    ensures { W.value result ≡ nand_w W.BITS (W.value a) (W.value b) }
{
    not(and(a, b))
}

pub fn nor<W: Word>(a: W, b: W) -> W
    ensures { W.value result ≡ nor_w W.BITS (W.value a) (W.value b) }
{
    not(or(a, b))
}

// The bits of a signed number, as many as the width has.
pub fn to_bits<W: Word>(z: i64) -> W
    ensures { W.value result ≡ bits_w 64 z % 2 ^ W.BITS }
{
    W::low(z.cast_unsigned())
}

// An arithmetic shift.
#[tactic(auto, unfolding(word::specs::Word::sar_w))]
pub fn down_signed<W: Word>(a: W, n: u64) -> W
    requires { n < W.BITS }
    ensures { W.value result ≡ sar_w W.BITS (W.value a) n }
{
    to_bits(a.to_signed() >> n)
}

// A signed division by zero, or of the smallest value by minus one.
fn no_quotient<W: Word>(a: W, b: W) -> bool
    ensures { result ≡ no_quotient W.BITS (W.value a) (W.value b) }
{
    b.number() == 0 || a.number() == top::<W>().number() && b.number() == ones::<W>().number()
}

#[tactic(auto, unfolding(word::specs::Word::by_signed))]
pub fn divs<W: Word>(a: W, b: W) -> Option<u64>
    ensures { result ≡ by_signed W.BITS (W.value a) (W.value b) (divs_w W.BITS (W.value a) (W.value b)) }
{
    if no_quotient(a, b) {
        return None;
    }
    Some(a.quotient(b).number())
}

#[tactic(auto, unfolding(word::specs::Word::by_signed))]
pub fn rems<W: Word>(a: W, b: W) -> Option<u64>
    ensures { result ≡ by_signed W.BITS (W.value a) (W.value b) (rems_w W.BITS (W.value a) (W.value b)) }
{
    if no_quotient(a, b) {
        return None;
    }
    Some(a.remainder(b).number())
}

#[tactic(auto, unfolding(word::specs::Word::by_divisor))]
pub fn divu<W: Word>(a: W, b: W) -> Option<u64>
    ensures { result ≡ by_divisor (W.value b) (W.value a / W.value b) }
{
    if b.number() == 0 {
        return None;
    }
    Some(a.number() / b.number())
}

#[tactic(auto, unfolding(word::specs::Word::by_divisor))]
pub fn remu<W: Word>(a: W, b: W) -> Option<u64>
    ensures { result ≡ by_divisor (W.value b) (W.value a % W.value b) }
{
    if b.number() == 0 {
        return None;
    }
    Some(a.number() % b.number())
}

#[tactic(auto, unfolding(word::specs::Word::by_count))]
pub fn shl<W: Word>(a: W, k: W) -> Option<u64>
    ensures { result ≡ by_count W.BITS (W.value k) (shl_w W.BITS (W.value a) (W.value k)) }
{
    let n = k.number();
    if W::BITS <= n {
        return None;
    }
    Some(a.up(n).number())
}

#[tactic(auto, unfolding(word::specs::Word::by_count))]
pub fn shr<W: Word>(a: W, k: W) -> Option<u64>
    ensures { result ≡ by_count W.BITS (W.value k) (shr_w W.BITS (W.value a) (W.value k)) }
{
    let n = k.number();
    if W::BITS <= n {
        return None;
    }
    Some(a.down(n).number())
}

#[tactic(auto, unfolding(word::specs::Word::by_count))]
pub fn sar<W: Word>(a: W, k: W) -> Option<u64>
    ensures { result ≡ by_count W.BITS (W.value k) (sar_w W.BITS (W.value a) (W.value k)) }
{
    let n = k.number();
    if W::BITS <= n {
        return None;
    }
    Some(down_signed(a, n).number())
}

#[tactic(auto, using(crate::proofs::Wraps::turned_left), unfolding(word::specs::Word::by_count))]
pub fn rotl<W: Word>(a: W, k: W) -> Option<u64>
    ensures { result ≡ by_count W.BITS (W.value k) (rotl_w W.BITS (W.value a) (W.value k)) }
{
    let n = k.number();
    if W::BITS <= n {
        return None;
    }
    let x = a.number();
    if n == 0 {
        return Some(x);
    }
    Some(add(a.up(n), a.down(W::BITS - n)).number())
}

#[tactic(auto, using(crate::proofs::Wraps::turned_right), unfolding(word::specs::Word::by_count))]
pub fn rotr<W: Word>(a: W, k: W) -> Option<u64>
    ensures { result ≡ by_count W.BITS (W.value k) (rotr_w W.BITS (W.value a) (W.value k)) }
{
    let n = k.number();
    if W::BITS <= n {
        return None;
    }
    let x = a.number();
    if n == 0 {
        return Some(x);
    }
    Some(add(a.up(W::BITS - n), a.down(n)).number())
}

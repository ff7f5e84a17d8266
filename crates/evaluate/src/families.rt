// The families of pure ops at a width, each by the kind of its 32-bit form.
ghost use Rattle.std.specs.Prelude.{◌≡◌, [], ◌∷◌, Some};
ghost use Rattle.ops.specs.Eval.{unary_of, logic_of, divide_of, shift_of};
ghost use Rattle.ops.specs.Kinds.{wide_of};

use super::choice::{choose, first};
use bits::{counts, fields, swaps};
use memory::byte_at;
use widths::condition;
use words::Word;

// mov, neg, not.
fn unary<W: Word>(k: u8, a: W) -> W
    ensures { Some (W.value result) ≡ unary_of W.BITS k (W.value a) }
{
    match k {
        0x11 => a,
        0x12 => words::neg(a),
        _ => words::not(a),
    }
}

// add, sub, mul, and, or, xor, andc, orc, eqv, nand, nor.
fn logic<W: Word>(k: u8, a: W, b: W) -> W
    ensures { Some (W.value result) ≡ logic_of W.BITS k (W.value a) (W.value b) }
{
    match k {
        0x14 => words::add(a, b),
        0x15 => words::sub(a, b),
        0x16 => words::mul(a, b),
        0x17 => words::and(a, b),
        0x18 => words::or(a, b),
        0x19 => words::xor(a, b),
        0x1a => words::andc(a, b),
        0x1b => words::orc(a, b),
        0x1c => words::eqv(a, b),
        0x1d => words::nand(a, b),
        _ => words::nor(a, b),
    }
}

// divs, divu, rems, remu.
fn divide<W: Word>(k: u8, a: W, b: W) -> Option<u64>
    ensures { result ≡ divide_of W.BITS k (W.value a) (W.value b) }
{
    match k {
        0x1f => words::divs(a, b),
        0x20 => words::divu(a, b),
        0x21 => words::rems(a, b),
        _ => words::remu(a, b),
    }
}

// shl, shr, sar, rotl, rotr.
fn shift<W: Word>(k: u8, a: W, b: W) -> Option<u64>
    ensures { result ≡ shift_of W.BITS k (W.value a) (W.value b) }
{
    match k {
        0x23 => words::shl(a, b),
        0x24 => words::shr(a, b),
        0x25 => words::sar(a, b),
        0x26 => words::rotl(a, b),
        _ => words::rotr(a, b),
    }
}

// The family of a kind, and its operands. A `match`: each arm takes other operands, and of a kind that is a constant one arm is left.
pub fn family<W: Word>(k: u8, bytes: &[u8], a: W, b: W, x: W, y: W) -> Option<u64>
    ensures { result ≡ wide_of W.BITS k bytes.now (W.value a ∷ W.value b ∷ W.value x ∷ W.value y ∷ []) }
{
    match k {
        0x11..=0x13 => Some(unary(k, a).number()),
        0x14..=0x1e => Some(logic(k, a, b).number()),
        0x1f..=0x22 => divide(k, a, b),
        0x23..=0x27 => shift(k, a, b),
        0x28 => Some(choose(condition::holds(first(bytes), a, b), 1, 0)),
        0x29 => Some(choose(condition::holds(first(bytes), a, b), x.number(), y.number())),
        0x2d => fields::deposit(a, b, first(bytes), byte_at(bytes, 1)),
        0x2e => fields::extract(a, first(bytes), byte_at(bytes, 1)),
        0x2f => fields::sextract(a, first(bytes), byte_at(bytes, 1)),
        0x30 => fields::extract2(a, b, first(bytes)),
        0x31 => swaps::bswap16(a, first(bytes)),
        0x32 => swaps::bswap32(a, first(bytes)),
        0x33 => {
            if W::BITS == 64 {
                Some(swaps::bswap64(a.number()))
            } else {
                None
            }
        }
        0x34 => Some(counts::clz(a, b)),
        0x35 => Some(counts::ctz(a, b)),
        0x36 => Some(counts::ctpop(a)),
        _ => None,
    }
}

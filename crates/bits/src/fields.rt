// Bit fields.
ghost use Rattle.std.specs.Prelude.{◌≡◌};
ghost use Rattle.word.specs.Fields.{by_field, by_position, deposit_w, extract_w, sextract_w, extract2_w};

use immediates::{field_ok, position_ok};
use words::{Word, and, down_signed, not, ones, or};

// b as the field of a.
#[tactic(auto, using(word::proofs::FieldLeaves::masked), unfolding(word::specs::Fields::by_field, word::specs::Fields::deposit_w))]
pub fn deposit<W: Word>(a: W, b: W, pos: u8, len: u8) -> Option<u64>
    ensures { result ≡ by_field W.BITS pos len (deposit_w W.BITS pos len (W.value a) (W.value b)) }
{
    if !field_ok(W::BITS as u32, pos, len) {
        return None;
    }
    let mask = ones::<W>().down(W::BITS - len as u64).up(pos as u64);
    Some(or(and(a, not(mask)), and(b.up(pos as u64), mask)).number())
}

// The field of a: to the top, and down again.
#[tactic(auto, using(word::proofs::FieldLeaves::moved), unfolding(word::specs::Fields::by_field))]
pub fn extract<W: Word>(a: W, pos: u8, len: u8) -> Option<u64>
    ensures { result ≡ by_field W.BITS pos len (extract_w pos len (W.value a)) }
{
    if !field_ok(W::BITS as u32, pos, len) {
        return None;
    }
    let down = W::BITS - len as u64;
    Some(a.up(down - pos as u64).down(down).number())
}

// The same, with copies of its sign bit above it.
#[tactic(auto, using(word::proofs::FieldLeaves::moved_signed), unfolding(word::specs::Fields::by_field))]
pub fn sextract<W: Word>(a: W, pos: u8, len: u8) -> Option<u64>
    ensures { result ≡ by_field W.BITS pos len (sextract_w W.BITS pos len (W.value a)) }
{
    if !field_ok(W::BITS as u32, pos, len) {
        return None;
    }
    let down = W::BITS - len as u64;
    Some(down_signed(a.up(down - pos as u64), down).number())
}

// The word at pos of b and a, b above a.
#[tactic(auto, using(word::proofs::FieldLeaves::at_none, word::proofs::FieldLeaves::at_width, word::proofs::FieldLeaves::across), unfolding(word::specs::Fields::by_position))]
pub fn extract2<W: Word>(a: W, b: W, pos: u8) -> Option<u64>
    ensures { result ≡ by_position W.BITS pos (extract2_w W.BITS pos (W.value a) (W.value b)) }
{
    if !position_ok(W::BITS as u32, pos) {
        return None;
    }
    let x = a.number();
    let y = b.number();
    let k = pos as u64;
    if k == 0 {
        return Some(x);
    }
    if k == W::BITS {
        return Some(y);
    }
    Some(or(a.down(k), b.up(W::BITS - k)).number())
}

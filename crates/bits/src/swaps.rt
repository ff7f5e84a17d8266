// Byte swaps.
ghost use Rattle.std.specs.Prelude.{◌≡◌, ◌<◌, ◌≤◌, ◌^◌, cond, Some};
ghost use Rattle.word.specs.Swaps.{has_os, by_input, bswap_w, swap_bytes};
ghost use Rattle.word.specs.Word.{extend_w};

use super::fields::sextract;
use immediates::{has_os, input_ok};
use words::Word;

// Swapped bytes of a length below the width, extended as the flags say.
fn extended<W: Word>(swapped: u64, flags: u8, len: u8) -> Option<u64>
    requires some { 0 < len }
    requires room { len ≤ W.BITS }
    requires fits { swapped < 2 ^ len }
    ensures { result ≡ Some (cond (has_os flags) (extend_w len W.BITS swapped) swapped) }
{
    if has_os(flags) {
        return sextract(W::low(swapped), 0, len);
    }
    Some(swapped)
}

// The two low bytes in the other order.
fn swap2(a: u64) -> u64
    ensures { result ≡ swap_bytes 2 a }
{
    let b = a / 256;
    a % 256 * 256 + b % 256
}

pub fn bswap16<W: Word>(a: W, flags: u8) -> Option<u64>
    ensures { result ≡ by_input 2 flags (W.value a) (bswap_w W.BITS 2 flags (W.value a)) }
{
    let x = a.number();
    if !input_ok(flags, x, 0x1_0000) {
        return None;
    }
    extended::<W>(swap2(x), flags, 16)
}

// The four low bytes in the other order.
pub fn swap4(a: u64) -> u64
    ensures { result ≡ swap_bytes 4 a }
{
    let b = a / 256;
    let c = b / 256;
    let d = c / 256;
    a % 256 * 0x100_0000 + (b % 256 * 0x1_0000 + (c % 256 * 256 + d % 256))
}

pub fn bswap32<W: Word>(a: W, flags: u8) -> Option<u64>
    ensures { result ≡ by_input 4 flags (W.value a) (bswap_w W.BITS 4 flags (W.value a)) }
{
    let x = a.number();
    if !input_ok(flags, x, 0x1_0000_0000) {
        return None;
    }
    extended::<W>(swap4(x), flags, 32)
}

// All eight bytes in the other order, by halves.
pub fn bswap64(a: u64) -> u64
    ensures { result ≡ swap_bytes 8 a }
{
    swap4(a) * 0x1_0000_0000 + swap4(a / 0x1_0000_0000)
}

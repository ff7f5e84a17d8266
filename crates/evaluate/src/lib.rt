// What an op that may fold states.
#![tactic(auto)]

ghost use Rattle.std.specs.Prelude.{◌≡◌, ◌%◌, ◌^◌};
ghost use Rattle.ops.specs.Eval.{convert_of};
ghost use Rattle.ops.specs.Evaluate.{folded_of};

use widths::convert;

mod choice;
mod families;

// ext_i32_i64, extu_i32_i64, trunc_i64_i32: each reads the low 32 bits.
fn converted(k: u8, a: u64) -> u64
    ensures { Some result ≡ convert_of k (a % 2 ^ 32) }
{
    let low = convert::trunc_i64_i32(a);
    match k {
        0x05 => convert::ext_i32_i64(low),
        _ => convert::extu_i32_i64(low),
    }
}

// The value that a kind states of the bytes after its operands and its inputs, each read at its width.
pub fn eval(kind: u8, bytes: &[u8], a: u64, b: u64, x: u64, y: u64) -> Option<u64>
    ensures { result ≡ folded_of kind bytes.now a b x y }
{
    match kind {
        0x05..=0x07 => Some(converted(kind, a)),
        0x80..=0xff => families::family(kind - 0x80, bytes, a, b, x, y),
        _ => families::family(
            kind,
            bytes,
            convert::trunc_i64_i32(a),
            convert::trunc_i64_i32(b),
            convert::trunc_i64_i32(x),
            convert::trunc_i64_i32(y),
        ),
    }
}

// A choice by a test, and the byte that it goes by.
ghost use Rattle.std.specs.Prelude.{◌≡◌, cond, get_or};

use memory::byte_at;

pub fn choose(t: bool, v1: u64, v2: u64) -> u64
    ensures { result ≡ cond t v1 v2 }
{
    if t { v1 } else { v2 }
}

// The first byte, 0 if there is none.
pub fn first(bytes: &[u8]) -> u8
    ensures { result ≡ get_or bytes.now 0 0 }
{
    byte_at(bytes, 0)
}

// The conditions, by number.
ghost use Rattle.std.specs.Prelude.{◌≡◌, cond, ◌/◌, ◌%◌, ◌^◌, eqb};
ghost use Rattle.word.specs.Condition.{lts_w, cond_w};
ghost use Rattle.widths.specs.Cases.{case_of, answers_of};

use words::{Word, top};

// Less, read as signed: "compare after turning over the top bit of each operand".
#[tactic(auto, using(crate::proofs::Cases::lts_flipped))]
fn lts<W: Word>(a: W, b: W) -> bool
    ensures { result ≡ lts_w W.BITS (W.value a) (W.value b) }
{
    let turned = top::<W>().number();
    (a.number() ^ turned) < (b.number() ^ turned)
}

// A bit where a test passes.
fn bit(t: bool, n: u32) -> u32
    ensures { result ≡ cond t n 0 }
{
    if t { n } else { 0 }
}

// EQ, NE, LT, GE, LE, GT, LTU, GEU, LEU, GTU: a bit for each case in which it holds; any other number holds of nothing.
fn answers(c: u8) -> u32
    ensures { result ≡ answers_of c }
{
    match c {
        0 => 0xaa,
        1 => 0x55,
        2 => 0xcc,
        3 => 0x33,
        4 => 0xee,
        5 => 0x11,
        6 => 0xf0,
        7 => 0x0f,
        8 => 0xfa,
        9 => 0x05,
        _ => 0,
    }
}

// Equal, less, less as unsigned: the bit of that case, without a jump, which would often be foreseen wrongly.
fn answer(c: u8, equal: bool, less: bool, below: bool) -> bool
    ensures { result ≡ eqb (answers_of c / 2 ^ case_of equal less below % 2) 1 }
{
    let case = bit(equal, 1) | bit(less, 2) | bit(below, 4);
    (answers(c) >> case) % 2 == 1
}

#[tactic(auto, using(crate::proofs::Cases::answered))]
pub fn holds<W: Word>(c: u8, a: W, b: W) -> bool
    ensures { result ≡ cond_w W.BITS c (W.value a) (W.value b) }
{
    let x = a.number();
    let y = b.number();
    answer(c, x == y, lts(a, b), x < y)
}

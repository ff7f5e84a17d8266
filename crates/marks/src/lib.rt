// Arrays of 256 entries, one for each byte, and of LABELS, one for each label: what is known of variables and labels.
#![tactic(auto)]

ghost use Rattle.block.specs.Scan.{SetAt, SetLabelAt};

use limits::LABELS;

// A byte's place holds x.
pub fn put<T: Copy>(a: &mut [T; 256], i: u8, x: T)
    ensures { SetAt a.old i x a.new }
{
    a[usize::from(i)] = x;
}

// A label's place holds x; no byte from LABELS on is a label.
pub fn put_label<T: Copy>(a: &mut [T; LABELS], l: u8, x: T)
    ensures { SetLabelAt a.old l x a.new }
{
    if usize::from(l) < LABELS {
        a[usize::from(l)] = x;
    }
}

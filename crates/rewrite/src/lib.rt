// Fold, prune and the result in the lent buffer, one after the other.
#![tactic(auto)]

ghost use Rattle.std.specs.Prelude.{◌≡◌, ◌≤◌, length};
ghost use Rattle.passes.specs.Passes.{Optimised};
ghost use Rattle.passes.specs.Ready.{ReadyToPass};

use block::Refusal;
use laid::Ops;

// An accepted block: its ops, where the first of them starts, and the classes of its variables.
#[derive(Clone, Copy)]
pub struct Source<'a> {
    pub ops: Ops<'a>,
    pub start: usize,
    pub classes: &'a [u8; 256],
    pub ghost ready: { ReadyToPass ops.block.now ops.places.now classes.now start (length ops.places.now) },
}

impl<'a> Source<'a> {
    pub fn new(ops: Ops<'a>, start: usize, classes: &'a [u8; 256]) -> Source<'a>
        requires { ReadyToPass ops.block.now ops.places.now classes.now start (length ops.places.now) }
        ensures { (result.ops ≡ ops.entry) × (result.start ≡ start) × (result.classes.now ≡ classes.now) }
    {
        Source {
            ops,
            start,
            classes,
        }
    }
}

// The pass of an accepted block, with room for the marks and the constants of its ops: the length of its result.
pub fn write_result(
    source: &Source,
    marks: &mut [u8],
    constants: &mut [u64],
    out: &mut [u8],
) -> Result<usize, Refusal>
    requires { (length source.now.ops.places.now ≤ length marks.old) × (length source.now.ops.places.now ≤ length constants.old) }
    ensures { Optimised source.now.ops.block.now out.old result out.new }
{
    let ops = &source.ops;
    fold::fold(ops, marks, constants);
    let size = source.start + prune::prune(ops, source.classes, marks);
    if out.len() < size {
        return Err(Refusal {
            number: 12,
            place: 0,
        });
    }
    emit::emit(ops, marks, constants, out);
    Ok(size)
}

// The ops of a block, laid one after the other, each with the shape of its kind.
#![tactic(auto)]

ghost use Rattle.std.specs.Prelude.{◌≡◌, ◌<◌, length, get_or};
ghost use Rattle.ops.specs.Table.{row_of};
ghost use Rattle.ops.specs.Shapes.{shape_at};
ghost use Rattle.block.specs.Scan.{Stands};
ghost use Rattle.passes.specs.Laid.{place_of, Laid};

use shapes::{Shape, Shapes};

// The op that starts at a place.
#[derive(Clone, Copy)]
pub struct Op<'a> {
    pub block: &'a [u8],
    pub at: usize,
    pub shape: Shape,
    pub ghost stands: { Stands row_of block.now at (get_or block.now at 0) },
    pub ghost shaped: { shape ≡ shape_at block.now at },
}

impl<'a> Op<'a> {
    pub fn new(shapes: &Shapes, block: &'a [u8], at: usize) -> Op<'a>
        requires { Stands row_of block.now at (get_or block.now at 0) }
        ensures { (result.block.now ≡ block.now) × (result.at ≡ at) }
    {
        Op {
            block,
            at,
            shape: shapes.shape(block[at]),
        }
    }
}

// All ops of a block, by their places.
#[derive(Clone, Copy)]
pub struct Ops<'a> {
    pub shapes: &'a Shapes,
    pub block: &'a [u8],
    pub places: &'a [u16],
    pub ghost laid: { Laid block.now places.now (length places.now) },
}

impl<'a> Ops<'a> {
    // How many they are.
    pub fn len(&self) -> usize
        ensures { result ≡ length self.now.places.now }
    {
        self.places.len()
    }

    // The i-th of them.
    pub fn op(&self, i: usize) -> Op<'a>
        requires { i < length self.now.places.now }
        ensures { (result.block.now ≡ self.now.block.now) × (result.at ≡ get_or self.now.places.now i 0) }
    {
        Op::new(self.shapes, self.block, self.places[i] as usize)
    }

    // The place of the i-th; after the last, the block's end.
    pub fn place(&self, i: usize) -> usize
        ensures { result ≡ place_of self.now.block.now self.now.places.now (length self.now.places.now) i }
    {
        if i < self.places.len() {
            return self.places[i] as usize;
        }
        self.block.len()
    }
}

ghost use Rattle.std.specs.Prelude.{length};
ghost use Rattle.sad.specs.Asked.{Lies};

use motion::block::Block;

// A block, with the current plane and the reference in which it lies.
#[derive(Clone, Copy)]
pub struct BlockPlanes<'a> {
    pub block: Block,
    pub cur: &'a [u8],
    pub reference: &'a [u8],
    pub ghost lies_cur: { Lies block (length cur.now) },
    pub ghost lies_reference: { Lies block (length reference.now) },
}

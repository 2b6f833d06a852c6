ghost use Rattle.std.specs.Prelude.{◌≡◌, true, ◌≤◌, pos, nat_abs, ◌+ℤ◌};
ghost use Rattle.std.specs.Int.Signed.{non_neg};
ghost use Rattle.sad.specs.Plane.{moved, org_start, ref_start};
ghost use Rattle.sad.specs.Asked.{largest_place, Measured, Reaches};

use motion::block::Block;
use motion::limits::EIGHTHS;
use motion::vector::MotionVector;

// A coordinate moved by a vector's component, counted from the plane's edge.
fn place(po: usize, component: i16, pad: usize) -> usize
    requires { (po ≤ largest_place) × (pad ≤ largest_place) × (non_neg (moved po component +ℤ pos pad) ≡ true) }
    ensures { result ≡ nat_abs (moved po component +ℤ pos pad) }
{
    (po as isize + (component / EIGHTHS) as isize + pad as isize) as usize
}

// Where the block itself starts in its plane.
pub fn org_start(b: Block) -> usize
    requires { Measured b }
    ensures { result ≡ org_start b }
{
    (b.po_y + b.pad) * b.stride + (b.po_x + b.pad)
}

// Where the reference block of a candidate starts.
pub fn ref_start(b: Block, mv: MotionVector) -> usize
    requires { Measured b × Reaches b mv }
    ensures { result ≡ ref_start b mv }
{
    let y = place(b.po_y, mv.row, b.pad);
    let x = place(b.po_x, mv.col, b.pad);
    y * b.stride + x
}

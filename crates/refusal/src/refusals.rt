ghost use Rattle.std.specs.Prelude.{◌≡◌, ◌≤◌, ◌<◌};
ghost use Rattle.motion.specs.Limits.{largest_side};
ghost use Rattle.grid.specs.Lent.{previous_lent};
ghost use Rattle.refusal.specs.Kinds.{code_of};
ghost use Rattle.refusal.specs.Refusals.{side_ok, level_ok, size_of, start_ok, plane_ok, block_refusal, planes_refusal, call_refusal, grid_ok, grids_hold, grids_fit};

use crate::kinds::Refusal;
use grid::lent::GridRef;
use motion::block::plane_of;
use motion::level::level_of;
use motion::limits::{CELL_SIDE, LARGEST_SIDE, SIDE_STEP};

// A bool, as the definition is: a call asks it of two sides, and refuses once.
#[tactic(auto, unfolding(crate::specs::Refusals::side_ok))]
pub fn side_ok(side: usize) -> bool
    ensures { result ≡ side_ok side }
{
    side % SIDE_STEP == 0 && SIDE_STEP <= side && side <= LARGEST_SIDE
}

// `refined` is 0 for a level's own block, anything else for the block that it refines first: the C interface passes such a number.
#[tactic(auto, unfolding(crate::specs::Refusals::level_ok))]
pub fn level_ok(level: usize, refined: usize) -> bool
    ensures { result ≡ level_ok level refined }
{
    level == 2 || level == 3 || (level == 4 && refined == 0)
}

#[tactic(auto, unfolding(crate::specs::Refusals::start_ok))]
fn start_ok(side: usize, size: usize, b: usize) -> bool
    requires { 0 < size }
    ensures { result ≡ start_ok side size b }
{
    b < side / CELL_SIDE && (CELL_SIDE * b) % size == 0
}

fn plane_ok(width: usize, height: usize, level: usize, len: usize) -> bool
    requires { (width ≤ largest_side) × (height ≤ largest_side) }
    ensures { result ≡ plane_ok width height level len }
{
    let plane = plane_of(width, height, level_of(level));
    plane.stride * plane.rows <= len
}

// The test behind refusal 4, of the lengths of a level's two planes.
// Width and height stay two numbers, as the definitions and C have them.
#[tactic(auto, unfolding(crate::specs::Refusals::planes_refusal, crate::specs::Refusals::refuse))]
pub fn planes_test(
    width: usize,
    height: usize,
    level: usize,
    cur: usize,
    reference: usize,
) -> Result<(), Refusal>
    requires { (width ≤ largest_side) × (height ≤ largest_side) }
    ensures { code_of result ≡ planes_refusal width height level cur reference }
{
    if plane_ok(width, height, level, cur) && plane_ok(width, height, level, reference) {
        Ok(())
    } else {
        Err(Refusal::Plane)
    }
}

// A block of a frame as a C call names it.
#[derive(Clone, Copy, Debug, PartialEq, Eq)]
pub struct BlockCall {
    pub width: usize,
    pub height: usize,
    pub level: usize,
    pub refined: usize,
    pub bx: usize,
    pub by: usize,
}

impl BlockCall {
    #[tactic(auto, unfolding(crate::specs::Refusals::size_of))]
    pub fn size(self) -> usize
        ensures { result ≡ size_of self.level self.refined }
    {
        let row = level_of(self.level);
        if self.refined == 0 {
            row.mv_size
        } else {
            row.refined
        }
    }

    // The tests behind refusals 1 to 3, in their order.
    #[tactic(auto, using(crate::proofs::RefusalLaws::size_bounds))]
    pub fn test(self) -> Result<(), Refusal>
        ensures { code_of result ≡ block_refusal self.width self.height self.level self.refined self.bx self.by }
    {
        if !(side_ok(self.width) && side_ok(self.height)) {
            return Err(Refusal::Side);
        }
        if !level_ok(self.level, self.refined) {
            return Err(Refusal::Level);
        }
        let size = self.size();
        if !(start_ok(self.width, size, self.bx) && start_ok(self.height, size, self.by)) {
            return Err(Refusal::Start);
        }
        Ok(())
    }

    // The tests behind refusals 1 to 4, in their order.
    pub fn test_with_planes(self, cur: usize, reference: usize) -> Result<(), Refusal>
        ensures { code_of result ≡ call_refusal self.width self.height self.level self.refined self.bx self.by cur reference }
    {
        self.test()?;
        planes_test(self.width, self.height, self.level, cur, reference)
    }
}

// The test behind refusal 5: whether a grid with room for so many cells holds a frame's. A bool, as the definition is.
pub fn grid_ok(width: usize, height: usize, room: usize) -> bool
    requires { (width ≤ largest_side) × (height ≤ largest_side) }
    ensures { result ≡ grid_ok width height room }
{
    (width / CELL_SIDE) * (height / CELL_SIDE) <= room
}

// The test behind refusal 5: the room of the grid, and of a previous one that a C call says is present. Two numbers, as C has them.
#[tactic(auto, unfolding(crate::specs::Refusals::grids_hold))]
pub fn grids_hold(
    width: usize,
    height: usize,
    present: usize,
    prev_room: usize,
    room: usize,
) -> bool
    requires { (width ≤ largest_side) × (height ≤ largest_side) }
    ensures { result ≡ grids_hold width height present prev_room room }
{
    grid_ok(width, height, room) && (present == 0 || grid_ok(width, height, prev_room))
}

// The same of a previous grid as it is lent: 1 and its room, or 0 where it is absent. A bool, as the definition is.
#[tactic(auto, unfolding(crate::specs::Refusals::grids_fit, crate::specs::Refusals::grids_hold))]
pub fn grids_fit(width: usize, height: usize, prev: Option<GridRef<'_>>, room: usize) -> bool
    requires { (width ≤ largest_side) × (height ≤ largest_side) }
    ensures { result ≡ grids_fit width height (previous_lent prev.entry) room }
{
    match prev {
        Some(grid) => grids_hold(width, height, 1, grid.room(), room),
        None => grids_hold(width, height, 0, 0, room),
    }
}

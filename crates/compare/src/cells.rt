ghost use Rattle.std.specs.Prelude.{◌≡◌, ◌≤◌, ◌<◌, ◌-◌, count_by};
ghost use Rattle.std.specs.List.{range_with_len, find};
ghost use Rattle.grid.specs.Grid.{room};
ghost use Rattle.grid.specs.Lent.{lent};
ghost use Rattle.compare.specs.Differ.{same_cell, differs_at};

use grid::cells::MEStats;
use grid::lent::GridRef;

// Whether two cells hold the same row, col and SAD.
pub fn same_cell(a: MEStats, b: MEStats) -> bool
    ensures { result ≡ same_cell a b }
{
    a == b
}

// Whether a cell of the first grid and that of the second do not hold the same. Two grids and no pair of them: the definitions
// take them one by one.
#[tactic(auto, unfolding(grid::specs::Grid::room))]
pub(crate) fn differs_at(first: &GridRef<'_>, second: &GridRef<'_>, i: usize) -> bool
    requires { (i < room (lent first.now)) × (i < room (lent second.now)) }
    ensures { result ≡ differs_at (lent first.now) (lent second.now) i }
{
    let a = first.stats_at(i);
    let b = second.stats_at(i);
    !same_cell(a, b)
}

// How many places differ, from one cell on up to another. As `filter(..).count()` it takes twice the time where many differ.
pub(crate) fn count_differing(
    first: &GridRef<'_>,
    second: &GridRef<'_>,
    from: usize,
    to: usize,
) -> usize
    requires { (to ≤ room (lent first.now)) × (to ≤ room (lent second.now)) }
    ensures { result ≡ count_by (λ i. differs_at (lent first.now) (lent second.now) i) (range_with_len from (to - from)) }
{
    let mut count = 0;
    for i in from..to {
        if differs_at(first, second, i) {
            count += 1;
        }
    }
    count
}

// The first of them. As `find(..)` it takes more than 1.5 times the time.
pub(crate) fn next_differing(
    first: &GridRef<'_>,
    second: &GridRef<'_>,
    from: usize,
    to: usize,
) -> Option<usize>
    requires { (to ≤ room (lent first.now)) × (to ≤ room (lent second.now)) }
    ensures { result ≡ find (λ i. differs_at (lent first.now) (lent second.now) i) (range_with_len from (to - from)) }
{
    for i in from..to {
        if differs_at(first, second, i) {
            return Some(i);
        }
    }
    None
}

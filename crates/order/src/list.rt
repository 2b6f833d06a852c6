ghost use Rattle.std.specs.Prelude.{◌≡◌, ◌*◌, ◌≤◌, ◌<◌, false, slice_index_or};
ghost use Rattle.refusal.specs.Kinds.{code_of};
ghost use Rattle.order.specs.List.{most_superblocks, all_earlier, list_refusal};

use refusal::kinds::Refusal;

// What a frame of 1,024 by 1,024 has.
const MOST_SUPERBLOCKS: usize = 256;

// Whether the left and the upper neighbour of superblock n, where it has them, were seen.
fn neighbours_seen(across: usize, n: usize, seen: &[bool; MOST_SUPERBLOCKS]) -> bool
    requires { (0 < across) × (n < most_superblocks) }
    ensures { result ≡ all_earlier across n (λ a. slice_index_or seen.now a false) }
{
    let left = n % across == 0 || seen[n - 1];
    let above = n < across || seen[n - across];
    left && above
}

// The tests that a frame run makes of a list of superblocks.
pub fn list_test(across: usize, down: usize, list: &[u16]) -> Result<(), Refusal>
    requires { (0 < across) × (across * down ≤ most_superblocks) }
    ensures { code_of result ≡ list_refusal across down list.now }
{
    let count = across * down;
    if list.len() != count {
        return Err(Refusal::List);
    }
    let mut seen = [false; MOST_SUPERBLOCKS];
    let mut answer = Ok(());
    for &n in list {
        let n = usize::from(n);
        if count <= n || seen[n] {
            return Err(Refusal::List);
        }
        if !neighbours_seen(across, n, &seen) {
            answer = Err(Refusal::Order);
        }
        seen[n] = true;
    }
    answer
}

ghost use Rattle.std.specs.Prelude.{◌≡◌};
ghost use Rattle.held.specs.Held.{reader_of, checked};

use crate::state::Reader;
use records::limits::MOST_FILE_CELLS;

// A fragment of a file that is only looked at: the state goes on, with room for any grid, and no cell is kept.
pub fn check_fragment(reader: Reader, fragment: &[u8]) -> Reader
    ensures { result ≡ reader_of (checked reader fragment.now) }
{
    let mut held = reader.settled();
    for &byte in fragment {
        if held.code != 0 {
            return held;
        }
        held = held.next_byte(MOST_FILE_CELLS, byte);
    }
    held
}

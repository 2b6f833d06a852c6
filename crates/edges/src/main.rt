// Tries the cases that document 01 has run by a program, on frames whose samples are all 90. Each call has a line:
//
//     [list LIST, ]CALL width W height H, LENT: NUMBER, WRITTEN written, PAST past
//
//     LIST       the list's superblocks, or `empty`; where it is not said they are in raster order
//     CALL       `run`, or `step level LEVEL`, which is that of superblock 0
//     LENT       `every buffer longer` or `exactly full`: longer than the frame needs, or just as long;
//                BUFFER `one short`: the others are exactly full;
//                `no previous grid`: its three buffers are empty, the others exactly full
//     NUMBER     what the call answered
//     WRITTEN    how many numbers of the frame's cells it changed, of which a cell has three; after a refusal none
//     PAST       how many numbers it changed in all that lies past them; none ever
//
// The run with no previous grid is that of document 01's flat frame, and its cells follow as the document lists them.
#![tactic(auto)]

mod calls;
mod cases;
mod changes;
mod tries;

use crate::cases::LONGEST;
use crate::tries::all;

fn main(rt: HostRuntime) {
    let flat = [90u8; LONGEST];
    all(&rt, &flat);
}

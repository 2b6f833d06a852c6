ghost use Rattle.std.specs.Prelude.{◌≡◌, ◌*◌, ◌-◌, ◌≤◌, ◌<◌, min, length, IsSome};
ghost use Rattle.records.specs.Forms.{cell_bytes};
ghost use Rattle.listing.specs.Parts.{line_room};
ghost use Rattle.listing.specs.Steps.{Open, later, listing_start};
ghost use Rattle.passes.specs.Again.{block_cells};

use gridfile::extent::Extent;
use listing::blocks::Listing;
use listing::lines::{LINE, put_heading};
use passes::again::{BLOCK, Reopened};
use passes::output::write;
use records::limits::CELL_BYTES;
use text::writer::Writer;

// The file gone through again, and the listing so far.
#[derive(Drop)]
struct Pass {
    file: Reopened,
    listing: Listing,
}

impl Pass {
    // The lines of a block. Those of the last are written once the file has ended as it was checked, so that a file which changed
    // never gives a whole listing.
    fn show_block(
        &mut self,
        rt: &HostRuntime,
        cells: usize,
        checked: u64,
        block: &mut [u8],
        out: &mut [u8],
    ) -> Option<()>
        requires goes_on { (self.old.listing.next < cells) × Open self.old.listing (cells - self.old.listing.next) }
        requires room { (cell_bytes * block_cells ≤ length block.old) × (line_room * block_cells ≤ length out.old) }
        ensures { IsSome result → self.new.listing ≡ later self.old.listing (min block_cells (cells - self.old.listing.next)) }
    {
        let count = BLOCK.min(cells - self.listing.next);
        self.file.load(rt, count, block)?;
        let mut w = Writer::new(out);
        self.listing.step(block, count, &mut w);
        if self.listing.next == cells {
            self.file.same_at_end(rt, checked)?;
        }
        write(rt, w.text())
    }

    // The lines of all cells, block by block.
    fn show_cells(&mut self, rt: &HostRuntime, extent: Extent, checked: u64) -> Option<()>
        requires { self.old.listing ≡ listing_start extent.columns }
    {
        let cells = extent.cells();
        let mut block = [0u8; CELL_BYTES * BLOCK];
        let mut out = [0u8; LINE * BLOCK];
        // By blocks: the listing has the place.
        while self.listing.next < cells {
            self.show_block(rt, cells, checked, &mut block, &mut out)?;
        }
        Some(())
    }
}

fn write_heading(rt: &HostRuntime, extent: Extent) -> Option<()> {
    let mut out = [0u8; LINE];
    let mut w = Writer::new(&mut out);
    put_heading(extent.columns, extent.rows, &mut w);
    write(rt, w.text())
}

// The listing of a file that was checked; none, with words, where it can't be read, changed or can't be written.
pub(crate) fn show(rt: &HostRuntime, extent: Extent, checked: u64) -> Option<()> {
    let mut file = Reopened::open(rt, 1)?;
    write_heading(rt, extent)?;
    file.pass_header();
    let listing = Listing::new(extent.columns);
    Pass { file, listing }.show_cells(rt, extent, checked)
}

ghost use Rattle.std.specs.Prelude.{◌≡◌, ◌*◌, ◌≤◌, length, IsSome};
ghost use Rattle.records.specs.Forms.{cell_bytes};
ghost use Rattle.listing.specs.Parts.{line_room};
ghost use Rattle.gridfile.specs.Reading.{shape_for};
ghost use Rattle.compare.specs.Answer.{compare_refusal};
ghost use Rattle.report.specs.Steps.{Open, Passed, report_start};
ghost use Rattle.passes.specs.Again.{block_cells};

use gridfile::extent::Extent;
use listing::lines::LINE;
use passes::again::{BLOCK, Reopened};
use passes::files::Checked;
use passes::output::write;
use records::limits::CELL_BYTES;
use report::steps::Report;
use text::writer::Writer;

// Both files gone through again beside each other, and the report so far.
#[derive(Drop)]
struct Pass {
    first: Reopened,
    second: Reopened,
    report: Report,
}

impl Pass {
    // A block of both files, and the lines of its cells that differ. The count stands beside the buffers, as in `load`.
    fn pass_block(
        &mut self,
        rt: &HostRuntime,
        count: usize,
        a: &mut [u8],
        b: &mut [u8],
        out: &mut [u8],
    ) -> Option<()>
        requires goes_on { Open self.old.report count }
        requires room { (cell_bytes * count ≤ length a.old) × (cell_bytes * count ≤ length b.old) × (line_room * count ≤ length out.old) }
        ensures { IsSome result → Passed self.old.report count self.new.report }
    {
        self.first.load(rt, count, a)?;
        self.second.load(rt, count, b)?;
        let mut w = Writer::new(out);
        self.report.step(a, b, count, &mut w);
        write(rt, w.text())
    }

    // The lines of all cells that differ, block by block.
    fn pass_cells(&mut self, rt: &HostRuntime, extent: Extent) -> Option<()>
        requires { self.old.report ≡ report_start extent.columns }
    {
        let cells = extent.cells();
        let mut a = [0u8; CELL_BYTES * BLOCK];
        let mut b = [0u8; CELL_BYTES * BLOCK];
        let mut out = [0u8; LINE * BLOCK];
        // By blocks: the report has the place.
        while self.report.next < cells {
            let count = BLOCK.min(cells - self.report.next);
            self.pass_block(rt, count, &mut a, &mut b, &mut out)?;
        }
        Some(())
    }
}

fn write_last(rt: &HostRuntime, report: Report) -> Option<()> {
    let mut out = [0u8; LINE];
    let mut w = Writer::new(&mut out);
    report.end(&mut w);
    write(rt, w.text())
}

// The lines of two files that were checked and are refused for nothing, neither alone nor beside each other, and the last; none,
// with words, where one can't be read or changed, or a line can't be written.
#[tactic(auto, using(crate::proofs::Accepted::accepted))]
pub(crate) fn compare(rt: &HostRuntime, first: Checked, second: Checked) -> Option<()>
    requires { compare_refusal (shape_for first.extent) 65536 (shape_for second.extent) 65536 ≡ 0 }
{
    let extent = first.extent.unwrap();
    let mut pass = Pass {
        first: Reopened::open(rt, 1)?,
        second: Reopened::open(rt, 2)?,
        report: Report::new(extent.columns),
    };
    pass.first.pass_header();
    pass.second.pass_header();
    pass.pass_cells(rt, extent)?;
    pass.first.same_at_end(rt, first.sum)?;
    pass.second.same_at_end(rt, second.sum)?;
    write_last(rt, pass.report)
}

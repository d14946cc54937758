// A stage of Step, part 1 or a round: the pass, the partition, and the merged table, which is put into a slot of the
// work buffer.
ghost use Rattle.std.specs.Prelude.{◌+◌, ◌*◌, ◌≤◌, length, set};
ghost use Rattle.chart.specs.Duties.Put.{PartCopied};
ghost use Rattle.transition.specs.Inner.Change.{Scene, Scened, InScene};
ghost use Rattle.transition.specs.Duties.Stage.{StageRoom, Staged, scratch_at};

use crate::change::{Change, change_table};
use crate::regions::{CLASSES, MADE, MERGED, PARTITION};
use chart::bytes::copy_part;
use chart::merge::write_merged;
use chart::partition::partition;
use pack::refusal::Stop;
use pack::table::Table;

// Puts n rows of w bytes, which stand from `from` on in the scratch, into the slot at `slot`: their count there and the
// rows behind it.
pub fn put_down(work: &mut [u8], from: usize, n: usize, w: usize, slot: usize)
    requires { (n ≤ 32) × (slot + 1 + n * w ≤ scratch_at) × (scratch_at ≤ from) × (from + n * w ≤ length work.old) }
    ensures { PartCopied (set work.old slot n) work.new from (slot + 1) (n * w) }
{
    work[slot] = n as u8;
    copy_part(work, from, slot + 1, n * w);
}

// Puts the table of what happens, merged, into the slot at `slot`, and says how many rows that is. Where there are over
// 32 states the slot stays as it was.
pub fn stage(
    pack: &[u8],
    places: &[u16],
    effects: &[u16],
    h: Change,
    work: &mut [u8],
    slot: usize,
) -> Result<usize, Stop>
    requires { Scened pack.now places.now effects.now h work.old × StageRoom work.old h.table slot }
    ensures { InScene pack.now places.now effects.now h work.old
        (λ s. Staged s h.root h.table work.old work.new slot result) }
{
    let t = h.table;
    let rows = change_table(pack, places, effects, h, work);
    if rows == 1 {
        put_down(work, MADE, 1, t.width, slot);
        return Ok(1);
    }
    let made = Table {
        rows: MADE,
        nodes: rows,
        ..t
    };
    let classes = partition(work, made, PARTITION, 32);
    if 32 < classes {
        return Err(Stop::States);
    }
    if rows <= classes {
        put_down(work, MADE, rows, t.width, slot);
        return Ok(rows);
    }
    let count = write_merged(work, made, CLASSES, MERGED);
    put_down(work, MERGED, count, t.width, slot);
    Ok(count)
}

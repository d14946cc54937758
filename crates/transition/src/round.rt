// A round of triggers in a slot. Where it tells nobody anything, every belief stays where it was: the values change in
// place, and rows that have become the same are merged.
ghost use Rattle.std.specs.Prelude.{◌≡◌, true, ℕ, ◌<◌, ◌≤◌, length, get_or, Ok};
ghost use Rattle.pack.specs.Duties.Table.{table_of, state_of};
ghost use Rattle.transition.specs.Duties.Cause.{Telling, OfEffects};
ghost use Rattle.transition.specs.Inner.Change.{Scene, Scened, InScene};
ghost use Rattle.transition.specs.Duties.Stage.{StageRoom, Staged};
ghost use Rattle.transition.specs.Duties.Play.{Slotted, Acted};
ghost use Rattle.transition.specs.Inner.Round.{Silent, Caused, CausedSome, Rewritten, SlotTable, Everyone};

use crate::cause::write_told;
use crate::change::Change;
use crate::regions::{CLASSES, MERGED, PARTITION};
use crate::stage::{put_down, stage};
use chart::merge::write_merged;
use chart::partition::partition;
use pack::effects::{Wanted, some_effect};
use pack::refusal::Stop;
use pack::table::Table;

// Whether the effects at a place are meant for nobody's beliefs.
pub fn silent(pack: &[u8], at: usize) -> bool
    requires { Telling pack.now at }
    ensures { OfEffects pack.now at (λ es. result ≡ true → Silent es) }
{
    pack.len() <= at || !some_effect(pack, at, Wanted::Belief)
}

// Whether the effects in the first n rows are.
pub fn all_silent(pack: &[u8], effects: &[u16], n: usize) -> bool
    requires { (n ≤ 32) × (n ≤ length effects.now)
        × ((m : ℕ) → m < n → Telling pack.now (get_or effects.now m 0)) }
    ensures { result ≡ true → (m : ℕ) → m < n
        → OfEffects pack.now (get_or effects.now m 0) Silent }
{
    for at in &effects[..n] {
        if !silent(pack, *at as usize) {
            return false;
        }
    }
    true
}

// Writes the effects in each row of a table into its values.
pub fn rewrite(pack: &[u8], effects: &[u16], work: &mut [u8], t: Table)
    requires { CausedSome pack.now effects.now work.old t }
    ensures { (s : Scene) → Caused s pack.now effects.now work.old t
        → Rewritten s t work.old work.new t.nodes }
{
    for m in 0..t.nodes {
        let at = effects[m] as usize;
        write_told(pack, at, 0, work, t.rows + m * t.width, t.fluents);
    }
}

// Merges the rows of the table in a slot, where two of them mean the same; how many are left.
pub fn merge_slot(work: &mut [u8], t: Table, slot: usize) -> usize
    requires { SlotTable work.old t slot }
    ensures { Acted (state_of t work.old 0) t work.old work.new slot (Ok result) }
{
    let classes = partition(work, t, PARTITION, 32);
    if t.nodes <= classes {
        return t.nodes;
    }
    let count = write_merged(work, t, CLASSES, MERGED);
    put_down(work, MERGED, count, t.width, slot);
    count
}

// The round in which these effects take place in the rows of the table in a slot, everyone taking part; how many rows
// it leaves.
pub fn round(
    pack: &[u8],
    places: &[u16],
    effects: &[u16],
    h: Change,
    work: &mut [u8],
    slot: usize,
) -> Result<usize, Stop>
    requires { Scened pack.now places.now effects.now h work.old × StageRoom work.old h.table slot
        × Everyone h × Slotted (table_of h.table work.old) work.old h.table slot }
    ensures { InScene pack.now places.now effects.now h work.old
        (λ s. Staged s h.root h.table work.old work.new slot result) }
{
    let t = h.table;
    if !all_silent(pack, effects, t.nodes) {
        return stage(pack, places, effects, h, work, slot);
    }
    rewrite(pack, effects, work, t);
    Ok(merge_slot(work, t, slot))
}

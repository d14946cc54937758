// Part 1 of Step: an action takes effect in a state, and in the beliefs of those who observe it.
ghost use Rattle.std.specs.Prelude.{◌<◌};
ghost use Rattle.transition.specs.Duties.Cause.{Telling, OfEffects};
ghost use Rattle.transition.specs.Duties.Play.{Untold, Actable, ActsIn};

use crate::cause::tells;
use crate::change::{Change, NO_SLOT};
use crate::stage::stage;
use pack::places::{ACTION, EFFECTS, OBSERVED};
use pack::refusal::Stop;
use pack::table::Table;

// The lowest character that no effect at a place is meant for.
pub fn lowest_untold(pack: &[u8], at: usize, characters: usize) -> Option<usize>
    requires { Telling pack.now at × (characters < 7) }
    ensures { OfEffects pack.now at (λ es. Untold es characters result) }
{
    for c in 0..characters {
        if !tells(pack, at, c + 1) {
            return Some(c);
        }
    }
    None
}

// Part 1 of an action in what a row of a table means, into a slot; how many states that leaves.
pub fn act(
    pack: &[u8],
    places: &[u16],
    action: usize,
    work: &mut [u8],
    t: Table,
    root: usize,
    slot: usize,
) -> Result<usize, Stop>
    requires { Actable pack.now places.now action work.old t root slot }
    ensures { ActsIn pack.now places.now action root t work.old
        work.new slot result }
{
    let place = places[ACTION * action + EFFECTS];
    let effects = [place; 32];
    let at = place as usize;
    let observers = Change {
        table: t,
        acted: lowest_untold(pack, at, t.characters).unwrap_or(NO_SLOT),
        old: 6,
        observed: ACTION * action + OBSERVED,
        root,
    };
    stage(pack, places, &effects, observers, work, slot)
}

// An action, and the triggers after it, from slot to slot.
//
// The state that a step is given is not merged first: part 1 is made from any table, and what it leaves is merged
// anyway.
ghost use Rattle.transition.specs.Duties.Play.{Playable, PlaysIn};

use crate::act::act;
use crate::settle::settle;
use pack::judge::holds;
use pack::places::ACTION;
use pack::refusal::Stop;
use pack::table::Table;

// An action, and how many triggers there are that may fire after it.
#[derive(Clone, Copy)]
pub struct Move {
    pub action: usize,
    pub triggers: usize,
}

// Plays an action in what a row of a table means, into a slot, or says what stops it.
pub fn step_slot(
    pack: &[u8],
    places: &[u16],
    m: Move,
    work: &mut [u8],
    t: Table,
    root: usize,
    slot: usize,
) -> Result<(), Stop>
    requires { Playable pack.now places.now m.triggers m.action work.old t root slot }
    ensures { PlaysIn pack.now places.now m.triggers m.action root t
        work.old work.new slot result }
{
    if !holds(pack, places[ACTION * m.action] as usize, work, t, root) {
        return Err(Stop::Condition);
    }
    let nodes = act(pack, places, m.action, work, t, root, slot)?;
    let left = Table {
        rows: slot + 1,
        nodes,
        ..t
    };
    settle(pack, places, m.triggers, work, left, slot)
}

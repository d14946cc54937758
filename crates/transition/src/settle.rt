// Rounds of triggers, until none holds anywhere.
ghost use Rattle.transition.specs.Duties.Play.{Settleable, SettlesIn};

use crate::change::{Change, NO_SLOT};
use crate::fire::{NOWHERE, fire_all};
use crate::round::round;
use pack::places::PLACES;
use pack::refusal::Stop;
use pack::table::Table;

// So many rounds follow an action at most.
pub const MOST_ROUNDS: usize = 16;

// Settles the state in a slot, of which t is the table.
pub fn settle(
    pack: &[u8],
    places: &[u16],
    triggers: usize,
    work: &mut [u8],
    t: Table,
    slot: usize,
) -> Result<(), Stop>
    requires { Settleable pack.now places.now triggers work.old t slot }
    ensures { SettlesIn pack.now places.now triggers t work.old
        work.new slot result }
{
    if triggers == 0 {
        return Ok(());
    }
    let mut effects = [NOWHERE; 32];
    let mut now = Table {
        rows: slot + 1,
        ..t
    };
    for _ in 0..MOST_ROUNDS {
        if !fire_all(pack, places, triggers, work, now, &mut effects) {
            return Ok(());
        }
        let everyone = Change {
            table: now,
            acted: 6,
            old: NO_SLOT,
            observed: PLACES,
            root: 0,
        };
        now.nodes = round(pack, places, &effects, everyone, work, slot)?;
    }
    if fire_all(pack, places, triggers, work, now, &mut effects) {
        return Err(Stop::Rounds);
    }
    Ok(())
}

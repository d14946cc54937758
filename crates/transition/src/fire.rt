// Triggers: the lowest that holds in each row.
ghost use Rattle.std.specs.Prelude.{◌<◌, ◌≤◌, length};
ghost use Rattle.transition.specs.Inner.Fire.{Firable, Fires, FiresAll};

use pack::judge::holds;
use pack::places::{TRIGGER, TRIGGER_EFFECTS, TRIGGERS};
use pack::table::Table;

// A place behind every pack, which may have so many bytes. It is no `Option`: 32 of them, filled in every step, were
// measured to make a step 3 to 6 parts of 100 slower.
pub const NOWHERE: u16 = 8192;

// The place of the effects of the lowest trigger that holds in row m, or `NOWHERE`.
pub fn firing(pack: &[u8], places: &[u16], triggers: usize, work: &[u8], t: Table, m: usize) -> u16
    requires { Firable pack.now places.now triggers work.now t × (m < t.nodes) }
    ensures { Fires pack.now places.now triggers work.now t m result }
{
    for i in 0..triggers {
        if holds(pack, places[TRIGGERS + TRIGGER * i] as usize, work, t, m) {
            return places[TRIGGER_EFFECTS + TRIGGER * i];
        }
    }
    NOWHERE
}

// The places of the effects in each row; whether a trigger holds in any.
pub fn fire_all(
    pack: &[u8],
    places: &[u16],
    triggers: usize,
    work: &[u8],
    t: Table,
    effects: &mut [u16],
) -> bool
    requires { Firable pack.now places.now triggers work.now t × (t.nodes ≤ length effects.old) }
    ensures { FiresAll pack.now places.now triggers work.now t
        effects.new result }
{
    let mut any = false;
    for m in 0..t.nodes {
        let at = firing(pack, places, triggers, work, t, m);
        effects[m] = at;
        any |= (at as usize) < pack.len();
    }
    any
}

// Triggers: checked, with the places of their parts. Trigger i has two places from 288 + 2 * i on: its condition and
// its effects.
ghost use Rattle.std.specs.Prelude.{◌+◌, ◌≤◌, length};
ghost use Rattle.pack.specs.Duties.Answer.{dims};
ghost use Rattle.pack.specs.Duties.Places.{places_room, Within, TriggerRead, TriggersRead};

use crate::condition::check_condition;
use crate::dimensions::Dimensions;
use crate::effect::check_effects;
use crate::number::read_between;
use crate::places::{TRIGGER, TRIGGERS};
use crate::refusal::{Fault, Flaw};

// A trigger: a condition and effects. Its places are marked from base on.
pub fn read_trigger<'a>(
    s: &[u8],
    at: usize,
    d: Dimensions<'a>,
    places: &mut [u16],
    base: usize,
) -> Result<usize, Flaw>
    requires { (d.characters ≤ 6) × (base + 2 ≤ length places.old) × Within s.now at }
    ensures { TriggerRead (dims d.entry.characters d.entry.domains.now) s.now at base places.old
        places.new result }
{
    places[base] = at as u16;
    let effects = check_condition(s, at, d)?;
    places[base + 1] = effects as u16;
    check_effects(s, effects, d)
}

// How many triggers there are, and the place after them.
pub fn read_triggers<'a>(
    s: &[u8],
    at: usize,
    d: Dimensions<'a>,
    places: &mut [u16],
) -> Result<(usize, usize), Flaw>
    requires { (d.characters ≤ 6) × (places_room ≤ length places.old) × Within s.now at }
    ensures { TriggersRead (dims d.entry.characters d.entry.domains.now) s.now at places.old
        places.new result }
{
    let (count, first) = read_between(s, at, 0, 17, Fault::Limit)?;
    let mut n = first;
    for i in 0..count {
        n = read_trigger(s, n, d, places, TRIGGERS + TRIGGER * i)?;
    }
    Ok((count, n))
}

// Actions: checked, with the places of their parts. Action i has nine places from 9 * i on: its condition, its effects,
// its consenters, and the observation condition of each character.
ghost use Rattle.std.specs.Prelude.{◌+◌, ◌≤◌, length};
ghost use Rattle.pack.specs.Duties.Answer.{dims};
ghost use Rattle.pack.specs.Duties.Places.{places_room, Within};
ghost use Rattle.pack.specs.Duties.Places.{ObservedRead, ActionRead, ActionsRead};

use crate::condition::check_condition;
use crate::dimensions::Dimensions;
use crate::effect::{check_consenters, check_effects};
use crate::number::read_between;
use crate::places::{ACTION, CONSENTERS, EFFECTS, OBSERVED};
use crate::refusal::{Fault, Flaw};

// The observation conditions, one for each character.
pub fn read_observed<'a>(
    s: &[u8],
    at: usize,
    d: Dimensions<'a>,
    places: &mut [u16],
    base: usize,
) -> Result<usize, Flaw>
    requires { (base + d.characters ≤ length places.old) × Within s.now at }
    ensures { ObservedRead (dims d.entry.characters d.entry.domains.now) s.now at base
        places.old places.new result }
{
    let mut n = at;
    for c in 0..d.characters {
        places[base + c] = n as u16;
        n = check_condition(s, n, d)?;
    }
    Ok(n)
}

// An action: a condition, effects, consenters, observation conditions. Its places are marked from base on.
pub fn read_action<'a>(
    s: &[u8],
    at: usize,
    d: Dimensions<'a>,
    places: &mut [u16],
    base: usize,
) -> Result<usize, Flaw>
    requires { (d.characters ≤ 6) × (base + 9 ≤ length places.old) × Within s.now at }
    ensures { ActionRead (dims d.entry.characters d.entry.domains.now) s.now at base places.old
        places.new result }
{
    places[base] = at as u16;
    let effects = check_condition(s, at, d)?;
    places[base + EFFECTS] = effects as u16;
    let consenters = check_effects(s, effects, d)?;
    places[base + CONSENTERS] = consenters as u16;
    let observed = check_consenters(s, consenters, d)?;
    read_observed(s, observed, d, places, base + OBSERVED)
}

// How many actions there are, and the place after them.
pub fn read_actions<'a>(
    s: &[u8],
    at: usize,
    d: Dimensions<'a>,
    places: &mut [u16],
) -> Result<(usize, usize), Flaw>
    requires { (d.characters ≤ 6) × (places_room ≤ length places.old) × Within s.now at }
    ensures { ActionsRead (dims d.entry.characters d.entry.domains.now) s.now at places.new result }
{
    let (count, first) = read_between(s, at, 0, 33, Fault::Limit)?;
    let mut n = first;
    for i in 0..count {
        n = read_action(s, n, d, places, ACTION * i)?;
    }
    Ok((count, n))
}

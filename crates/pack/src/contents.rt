// A whole pack: its head, its nodes, and what can happen and who wants what. One reader is moved from part to part.
//
// Places are marked so that no condition is looked for by reading the pack again. Start, Query and Compare need none
// and read by `read_contents`, of which nothing can see the places, so that the compiled code has none.
ghost use Rattle.std.specs.Prelude.{◌≤◌, length, ◌≡◌, take, OnErr};
ghost use Rattle.pack.specs.Duties.Answer.{HeadRead};
ghost use Rattle.pack.specs.Duties.Answer.{dims};
ghost use Rattle.pack.specs.Duties.Places.{places_room, Within};
ghost use Rattle.pack.specs.Grammar.{longest_pack};
ghost use Rattle.pack.specs.Duties.Said.{placed};
ghost use Rattle.pack.specs.Duties.Contents.{TheoryRead, PartsRead, PackRead, ContentsRead};

use crate::dimensions::{Dimensions, Domains, Head};
use crate::places::PLACES;
use crate::reader::Reader;
use crate::refusal::{Fault, Flaw, Refusal};

// The head: version, characters and fluents, number after number, and then the domain sizes.
pub fn read_head<'a>(r: &mut Reader<'a>) -> Result<Head, Flaw>
    ensures reads { HeadRead r.old.src.now r.old.at (placed result r.new.at) }
    ensures same { r.new.src ≡ r.old.src }
    ensures stays { OnErr result (r.new.at ≡ r.old.at) }
{
    let mut ahead = *r;
    ahead.number(1, 2)?;
    let characters = ahead.number(1, 7)?;
    let fluents = ahead.number(1, 25)?;
    let domains = ahead.domains(fluents)?;
    *r = ahead;
    Ok(Head {
        characters,
        domains,
    })
}

// How many actions and triggers there are.
#[derive(Clone, Copy)]
pub struct Counts {
    pub actions: usize,
    pub triggers: usize,
}

// The actions, the triggers and the utilities, with the places of their parts.
pub fn read_theory<'a, 'b>(
    r: &mut Reader<'a>,
    d: Dimensions<'b>,
    places: &mut [u16],
) -> Result<Counts, Flaw>
    requires { (d.characters ≤ 6) × (places_room ≤ length places.old) × Within r.old.src.now r.old.at }
    ensures reads { TheoryRead (dims d.entry.characters d.entry.domains.now) r.old.src.now r.old.at
        places.new (placed result r.new.at) }
    ensures same { r.new.src ≡ r.old.src }
    ensures stays { OnErr result (r.new.at ≡ r.old.at) }
{
    let mut ahead = *r;
    let actions = ahead.actions(d, places)?;
    let triggers = ahead.triggers(d, places)?;
    ahead.utilities(d, places)?;
    *r = ahead;
    Ok(Counts { actions, triggers })
}

// What a pack holds: its dimensions and counts, and the place of its first node's first value.
#[derive(Clone, Copy)]
pub struct Contents {
    pub characters: usize,
    pub domains: Domains,
    pub nodes: usize,
    pub first: usize,
    pub actions: usize,
    pub triggers: usize,
}

impl Contents {
    // What charts of the pack are checked against.
    pub fn dimensions(&self) -> Dimensions<'_>
        ensures { (result.characters ≡ self.now.characters)
            × (result.domains.now ≡ take self.now.domains.fluents self.now.domains.sizes) }
    {
        Dimensions {
            characters: self.characters,
            domains: self.domains.as_slice(),
        }
    }
}

// The parts of a pack, one after the other, by one reader of its bytes; and the place after them.
pub fn read_parts(s: &[u8], places: &mut [u16]) -> Result<(Contents, usize), Flaw>
    requires { (places_room ≤ length places.old) × (length s.now ≤ longest_pack) }
    ensures { PartsRead s.now places.new result }
{
    let mut r = Reader::new(s);
    let head = read_head(&mut r)?;
    let nodes = r.number(1, 33)?;
    let first = r.at;
    let d = head.dimensions();
    r.nodes(d, nodes)?;
    let counts = read_theory(&mut r, d, places)?;
    let contents = Contents {
        characters: head.characters,
        domains: head.domains,
        nodes,
        first,
        actions: counts.actions,
        triggers: counts.triggers,
    };
    Ok((contents, r.at))
}

// How many bytes a pack may have.
const LONGEST: usize = 8192;

// A pack: accepted, with what it holds and the places of its parts, or refused.
pub fn read_pack(s: &[u8], places: &mut [u16]) -> Result<Contents, Refusal>
    requires { places_room ≤ length places.old }
    ensures { PackRead s.now places.new result }
{
    if LONGEST < s.len() {
        return Err(Refusal::Pack(Fault::Limit.at(0)));
    }
    let (contents, after) = read_parts(s, places)?;
    if after != s.len() {
        return Err(Refusal::Pack(Fault::After.at(after)));
    }
    Ok(contents)
}

// A pack, for calls that need no places: accepted, with what it holds, or refused.
pub fn read_contents(s: &[u8]) -> Result<Contents, Refusal>
    ensures { ContentsRead s.now result }
{
    let mut places = [0u16; PLACES];
    read_pack(s, &mut places)
}

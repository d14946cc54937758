// The pack reader: the bytes that were lent and a position in them. It hands out number after number and part after
// part, and stands behind what it handed out; where that is refused it stays. Its functions are thin: each has one on
// the slice and the position do the work.
ghost use Rattle.std.specs.Prelude.{◌≤◌, length, ◌≡◌, OnErr};
ghost use Rattle.pack.specs.Reading.{many, mapped};
ghost use Rattle.pack.specs.Number.{between};
ghost use Rattle.pack.specs.Grammar.{node_at};
ghost use Rattle.pack.specs.Duties.Said.{said, placed, passed_to, forget};
ghost use Rattle.pack.specs.Duties.Answer.{dims, DomainsRead};
ghost use Rattle.pack.specs.Duties.Places.{places_room, Within, ActionsRead, TriggersRead, UtilitiesRead};

use crate::action::read_actions;
use crate::dimensions::{Dimensions, Domains};
use crate::head::read_domains;
use crate::node::check_rows;
use crate::number::read_between;
use crate::refusal::{Fault, Flaw};
use crate::trigger::read_triggers;
use crate::utility::read_utilities;

// The bytes, and the place of what comes next.
#[derive(Clone, Copy)]
pub struct Reader<'a> {
    pub src: &'a [u8],
    pub at: usize,
}

impl<'a> Reader<'a> {
    // A reader of these bytes, at the first.
    pub fn new(src: &'a [u8]) -> Reader<'a>
        ensures { (result.src ≡ src.entry) × (result.at ≡ 0) }
    {
        Reader { src, at: 0 }
    }

    // A number from low up to limit.
    pub fn number(&mut self, low: usize, limit: usize) -> Result<usize, Flaw>
        ensures reads { between low limit 3 self.old.src.now self.old.at ≡ said (placed result self.new.at) }
        ensures same { self.new.src ≡ self.old.src }
        ensures stays { OnErr result (self.new.at ≡ self.old.at) }
    {
        let (number, next) = read_between(self.src, self.at, low, limit, Fault::Limit)?;
        self.at = next;
        Ok(number)
    }

    // The domain size of each fluent.
    pub fn domains(&mut self, fluents: usize) -> Result<Domains, Flaw>
        requires { fluents ≤ 24 }
        ensures reads { DomainsRead self.old.src.now self.old.at fluents (placed result self.new.at) }
        ensures same { self.new.src ≡ self.old.src }
        ensures stays { OnErr result (self.new.at ≡ self.old.at) }
    {
        let (domains, after) = read_domains(self.src, self.at, fluents)?;
        self.at = after;
        Ok(domains)
    }

    // So many nodes.
    pub fn nodes<'b>(&mut self, d: Dimensions<'b>, nodes: usize) -> Result<(), Flaw>
        ensures reads { mapped forget (many (node_at (dims d.entry.characters d.entry.domains.now) nodes) nodes
            self.old.src.now self.old.at) ≡ said (placed result self.new.at) }
        ensures same { self.new.src ≡ self.old.src }
        ensures stays { OnErr result (self.new.at ≡ self.old.at) }
    {
        self.at = check_rows(self.src, self.at, d, nodes)?;
        Ok(())
    }

    // The actions: how many there are, with the places of their parts.
    pub fn actions<'b>(&mut self, d: Dimensions<'b>, places: &mut [u16]) -> Result<usize, Flaw>
        requires { (d.characters ≤ 6) × (places_room ≤ length places.old) × Within self.old.src.now self.old.at }
        ensures reads { ActionsRead (dims d.entry.characters d.entry.domains.now) self.old.src.now self.old.at
            places.new (placed result self.new.at) }
        ensures same { self.new.src ≡ self.old.src }
        ensures stays { OnErr result (self.new.at ≡ self.old.at) }
    {
        let (actions, after) = read_actions(self.src, self.at, d, places)?;
        self.at = after;
        Ok(actions)
    }

    // The triggers: how many there are, with the places of their parts.
    pub fn triggers<'b>(&mut self, d: Dimensions<'b>, places: &mut [u16]) -> Result<usize, Flaw>
        requires { (d.characters ≤ 6) × (places_room ≤ length places.old) × Within self.old.src.now self.old.at }
        ensures reads { TriggersRead (dims d.entry.characters d.entry.domains.now) self.old.src.now self.old.at
            places.old places.new (placed result self.new.at) }
        ensures same { self.new.src ≡ self.old.src }
        ensures stays { OnErr result (self.new.at ≡ self.old.at) }
    {
        let (triggers, after) = read_triggers(self.src, self.at, d, places)?;
        self.at = after;
        Ok(triggers)
    }

    // The utilities, with their places.
    pub fn utilities<'b>(&mut self, d: Dimensions<'b>, places: &mut [u16]) -> Result<(), Flaw>
        requires { (d.characters ≤ 6) × (places_room ≤ length places.old) × Within self.old.src.now self.old.at }
        ensures reads { UtilitiesRead (dims d.entry.characters d.entry.domains.now) self.old.src.now self.old.at
            places.old places.new (passed_to result self.new.at) }
        ensures same { self.new.src ≡ self.old.src }
        ensures stays { OnErr result (self.new.at ≡ self.old.at) }
    {
        self.at = read_utilities(self.src, self.at, d, places)?;
        Ok(())
    }
}

// Utilities ("worths"): rules, each a condition and a number. The rules of the author and of each character have a
// place each, from 320 on.
ghost use Rattle.std.specs.Prelude.{◌≤◌, ◌≡◌, length};
ghost use Rattle.pack.specs.Reading.{mapped};
ghost use Rattle.pack.specs.Grammar.{rule_at, rules_at};
ghost use Rattle.pack.specs.Duties.Said.{shown, forget};
ghost use Rattle.pack.specs.Duties.Answer.{dims};
ghost use Rattle.pack.specs.Duties.Places.{places_room, Within, UtilitiesRead};

use crate::condition::check_condition;
use crate::dimensions::Dimensions;
use crate::number::read_number;
use crate::part::check_counted;
use crate::places::UTILITIES;
use crate::refusal::Flaw;

// A condition and a number.
pub fn check_rule<'a>(s: &[u8], at: usize, d: Dimensions<'a>) -> Result<usize, Flaw>
    ensures { mapped forget (rule_at (dims d.entry.characters d.entry.domains.now) s.now at) ≡ shown result }
{
    let number = check_condition(s, at, d)?;
    let (_, after) = read_number(s, number)?;
    Ok(after)
}

// A count of rules, and the rules.
pub fn check_rules<'a>(s: &[u8], at: usize, d: Dimensions<'a>) -> Result<usize, Flaw>
    ensures { mapped forget (rules_at (dims d.entry.characters d.entry.domains.now) s.now at) ≡ shown result }
{
    check_counted(s, at, 9, |n| check_rule(s, n, d))
}

// The rules of the author and of each character, marked from 320 on.
pub fn read_utilities<'a>(
    s: &[u8],
    at: usize,
    d: Dimensions<'a>,
    places: &mut [u16],
) -> Result<usize, Flaw>
    requires { (d.characters ≤ 6) × (places_room ≤ length places.old) × Within s.now at }
    ensures { UtilitiesRead (dims d.entry.characters d.entry.domains.now) s.now at places.old
        places.new result }
{
    let mut n = at;
    for i in 0..d.characters + 1 {
        places[UTILITIES + i] = n as u16;
        n = check_rules(s, n, d)?;
    }
    Ok(n)
}

// Conditions: alternatives of tests, checked against the pack's characters and domains.
ghost use Rattle.std.specs.Prelude.{◌≡◌};
ghost use Rattle.pack.specs.Reading.{mapped, many};
ghost use Rattle.pack.specs.Number.{item, counted};
ghost use Rattle.pack.specs.Grammar.{test_at, condition_at};
ghost use Rattle.pack.specs.Duties.Said.{shown, forget};
ghost use Rattle.pack.specs.Duties.Answer.{dims, claim_at};

use crate::dimensions::Dimensions;
use crate::number::{read_between, read_kind};
use crate::part::{check_counted, check_many};
use crate::plain::plain_test;
use crate::refusal::{Fault, Flaw};

// One of the things that are numbered from 0, of so many.
pub fn check_item(s: &[u8], at: usize, limit: usize) -> Result<usize, Flaw>
    ensures { mapped forget (item limit s.now at) ≡ shown result }
{
    let (_, after) = read_between(s, at, 0, limit, Fault::Absent)?;
    Ok(after)
}

// A chain's characters: count of them, from a position on.
pub fn check_chain(s: &[u8], at: usize, characters: usize, count: usize) -> Result<usize, Flaw>
    ensures { mapped forget (many (item characters) count s.now at) ≡ shown result }
{
    check_many(at, count, |n| check_item(s, n, characters))
}

// A fluent and one of its values.
pub fn check_claim(s: &[u8], at: usize, domains: &[u8]) -> Result<usize, Flaw>
    ensures { claim_at domains.now s.now at ≡ shown result }
{
    let (fluent, after) = read_between(s, at, 0, domains.len(), Fault::Absent)?;
    check_item(s, after, usize::from(domains[fluent]))
}

// A chain's length and characters, a kind, a fluent, a value.
pub fn check_test<'a>(s: &[u8], at: usize, d: Dimensions<'a>) -> Result<usize, Flaw>
    ensures { mapped forget (test_at (dims d.entry.characters d.entry.domains.now) s.now at) ≡ shown result }
{
    let (count, chain) = read_between(s, at, 0, 5, Fault::Limit)?;
    let kind = check_chain(s, chain, d.characters, count)?;
    let (_, claim) = read_kind(s, kind)?;
    check_claim(s, claim, d.domains)
}

// An alternative: a count of tests, and the tests, of which plain ones are passed over at once.
pub fn check_alternative<'a>(s: &[u8], at: usize, d: Dimensions<'a>) -> Result<usize, Flaw>
    ensures { mapped forget (counted 0 9 (test_at (dims d.entry.characters d.entry.domains.now)) s.now at)
        ≡ shown result }
{
    check_counted(
        s,
        at,
        9,
        |n| match plain_test(s, n, d.characters, d.domains) {
            Some(after) => Ok(after),
            None => check_test(s, n, d),
        },
    )
}

// A condition: a count of alternatives, and the alternatives.
pub fn check_condition<'a>(s: &[u8], at: usize, d: Dimensions<'a>) -> Result<usize, Flaw>
    ensures { mapped forget (condition_at (dims d.entry.characters d.entry.domains.now) s.now at)
        ≡ shown result }
{
    check_counted(s, at, 9, |n| check_alternative(s, n, d))
}

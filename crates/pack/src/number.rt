// Numbers, and numbers with their limits.
ghost use Rattle.std.specs.Prelude.{◌≡◌};
ghost use Rattle.pack.specs.Number.{number_at, between, item, belief_at, rising_at};
ghost use Rattle.pack.specs.Refusals.{number_of};
ghost use Rattle.pack.specs.Duties.Said.{said};

use crate::refusal::{Fault, Flaw};

// The number that starts at a position, and the place after it: groups of seven bits, lowest first, at most three
// bytes, shortest form, at most 65,535.
pub fn read_number(s: &[u8], at: usize) -> Result<(usize, usize), Flaw>
    ensures { number_at s.now at ≡ said result }
{
    if s.len() <= at {
        return Err(Fault::Ends.at(s.len()));
    }
    let a = usize::from(s[at]);
    if a < 128 {
        return Ok((a, at + 1));
    }
    if s.len() <= at + 1 {
        return Err(Fault::Ends.at(s.len()));
    }
    let b = usize::from(s[at + 1]);
    if b == 0 {
        return Err(Fault::Form.at(at));
    }
    if b < 128 {
        return Ok((a % 128 + 128 * (b % 128), at + 2));
    }
    if s.len() <= at + 2 {
        return Err(Fault::Ends.at(s.len()));
    }
    let d = usize::from(s[at + 2]);
    if d == 0 || 3 < d {
        return Err(Fault::Form.at(at));
    }
    Ok((a % 128 + 128 * (b % 128) + 16384 * d, at + 3))
}

// The number at a position, where it is from low up to limit; any other is refused under the fault given.
pub fn read_between(
    s: &[u8],
    at: usize,
    low: usize,
    limit: usize,
    fault: Fault,
) -> Result<(usize, usize), Flaw>
    ensures { between low limit (number_of fault) s.now at ≡ said result }
{
    let (v, after) = read_number(s, at)?;
    if low <= v && v < limit {
        Ok((v, after))
    } else {
        Err(fault.at(at))
    }
}

// The kind of a test: 0 is, 1 is not, 2 at least; every other number is refused as 4.
pub fn read_kind(s: &[u8], at: usize) -> Result<(usize, usize), Flaw>
    ensures { item 3 s.now at ≡ said result }
{
    let (v, after) = read_number(s, at)?;
    match v {
        0 | 1 | 2 => Ok((v, after)),
        3.. => Err(Fault::Absent.at(at)),
    }
}

// A believed node, of so many, written plus 1; a 0 is a blank.
pub fn read_belief(s: &[u8], at: usize, nodes: usize) -> Result<(usize, usize), Flaw>
    ensures { belief_at nodes s.now at ≡ said result }
{
    let (v, after) = read_number(s, at)?;
    if v == 0 {
        Err(Fault::Blank.at(at))
    } else if v <= nodes {
        Ok((v - 1, after))
    } else {
        Err(Fault::Absent.at(at))
    }
}

// A character that is least or more; one that isn't there is refused before one that doesn't rise.
pub fn read_rising(
    s: &[u8],
    at: usize,
    characters: usize,
    least: usize,
) -> Result<(usize, usize), Flaw>
    ensures { rising_at characters least s.now at ≡ said result }
{
    let (v, after) = read_between(s, at, 0, characters, Fault::Absent)?;
    if v < least {
        return Err(Fault::Order.at(at));
    }
    Ok((v, after))
}

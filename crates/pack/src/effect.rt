// Effects and consenters of an action.
ghost use Rattle.std.specs.Prelude.{◌≡◌, ◌≤◌};
ghost use Rattle.pack.specs.Reading.{mapped};
ghost use Rattle.pack.specs.Grammar.{effect_at, effects_at, consenters_at};
ghost use Rattle.pack.specs.Duties.Said.{shown, forget};
ghost use Rattle.pack.specs.Duties.Answer.{dims};

use crate::condition::{check_claim, check_item};
use crate::dimensions::Dimensions;
use crate::number::{read_between, read_rising};
use crate::part::check_counted;
use crate::plain::plain_effect;
use crate::refusal::{Fault, Flaw};

// Whom an effect is for, a fluent, a value.
pub fn check_effect<'a>(s: &[u8], at: usize, d: Dimensions<'a>) -> Result<usize, Flaw>
    requires { d.characters ≤ 6 }
    ensures { mapped forget (effect_at (dims d.entry.characters d.entry.domains.now) s.now at) ≡ shown result }
{
    let claim = check_item(s, at, d.characters + 1)?;
    check_claim(s, claim, d.domains)
}

// A count of effects, and the effects, of which plain ones are passed over at once.
pub fn check_effects<'a>(s: &[u8], at: usize, d: Dimensions<'a>) -> Result<usize, Flaw>
    requires { d.characters ≤ 6 }
    ensures { mapped forget (effects_at (dims d.entry.characters d.entry.domains.now) s.now at)
        ≡ shown result }
{
    check_counted(
        s,
        at,
        17,
        |n| match plain_effect(s, n, d.characters, d.domains) {
            Some(after) => Ok(after),
            None => check_effect(s, n, d),
        },
    )
}

// A count of consenters, and the consenters, strictly rising.
pub fn check_consenters<'a>(s: &[u8], at: usize, d: Dimensions<'a>) -> Result<usize, Flaw>
    ensures { mapped forget (consenters_at (dims d.entry.characters d.entry.domains.now) s.now at)
        ≡ shown result }
{
    let (count, first) = read_between(s, at, 0, 7, Fault::Limit)?;
    let mut least = 0;
    let mut n = first;
    for _ in 0..count {
        let (consenter, after) = read_rising(s, n, d.characters, least)?;
        least = consenter + 1;
        n = after;
    }
    Ok(n)
}

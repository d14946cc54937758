// The domain sizes in a pack's head.
ghost use Rattle.std.specs.Prelude.{◌≤◌};
ghost use Rattle.pack.specs.Duties.Answer.{DomainsRead};

use crate::dimensions::Domains;
use crate::number::read_between;
use crate::refusal::{Fault, Flaw};

// The domain size of each fluent, and the place after them.
pub fn read_domains(s: &[u8], at: usize, fluents: usize) -> Result<(Domains, usize), Flaw>
    requires { fluents ≤ 24 }
    ensures { DomainsRead s.now at fluents result }
{
    let mut sizes = [0u8; 24];
    let mut n = at;
    for i in 0..fluents {
        let (size, after) = read_between(s, n, 1, 129, Fault::Limit)?;
        sizes[i] = size as u8;
        n = after;
    }
    Ok((Domains { fluents, sizes }, n))
}

// Parts of one kind, one after the other, each checked where the one before it ends.
ghost use Rattle.std.specs.Prelude.{ℕ, ◌≡◌, List, Result};
ghost use Rattle.pack.specs.Reading.{Reader, many, mapped};
ghost use Rattle.pack.specs.Number.{counted};
ghost use Rattle.pack.specs.Duties.Said.{shown, forget};
ghost use Rattle.pack.specs.declared.refusal.Flaw.{Flaw};

use crate::number::read_between;
use crate::refusal::{Fault, Flaw};

// So many parts.
pub fn check_many<F: Fn(usize) -> Result<usize, Flaw>>(
    at: usize,
    count: usize,
    check: F,
) -> Result<usize, Flaw>
    requires { F.IsAlwaysCallable check }
    ensures { (part : Reader (Unit {0})) (s : List ℕ)
        → ((n : ℕ) (r : Result ℕ Flaw) → F.post check n r → part s n ≡ shown r)
        → mapped forget (many part count s at) ≡ shown result }
{
    let mut n = at;
    for _ in 0..count {
        n = check(n)?;
    }
    Ok(n)
}

// A count below a limit, and so many parts.
pub fn check_counted<F: Fn(usize) -> Result<usize, Flaw>>(
    s: &[u8],
    at: usize,
    limit: usize,
    check: F,
) -> Result<usize, Flaw>
    requires { F.IsAlwaysCallable check }
    ensures { (part : Reader (Unit {0}))
        → ((n : ℕ) (r : Result ℕ Flaw) → F.post check n r → part s.now n ≡ shown r)
        → mapped forget (counted 0 limit part s.now at) ≡ shown result }
{
    let (count, first) = read_between(s, at, 0, limit, Fault::Limit)?;
    check_many(first, count, check)
}

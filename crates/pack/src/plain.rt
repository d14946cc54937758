// Plain tests and effects: each number is one byte and in range. Every test and every effect of an accepted pack is
// plain, and is passed over at once. Any other is read number by number, which finds the fault, so only where these
// functions say yes do they promise something.
ghost use Rattle.std.specs.Prelude.{◌+◌, ◌<◌, ◌≤◌, length, ◌≡◌, true, IfSome};
ghost use Rattle.pack.specs.Reading.{done, mapped, many};
ghost use Rattle.pack.specs.Number.{item};
ghost use Rattle.pack.specs.Grammar.{test_at, effect_at};
ghost use Rattle.pack.specs.Duties.Said.{forget};
ghost use Rattle.pack.specs.Duties.Answer.{dims, claim_at};

// The limit for a byte: below 128 it is a number by itself.
pub fn byte_limit(limit: usize) -> usize
    ensures { (result ≤ limit) × (result ≤ 128) }
{
    limit.min(128)
}

// Whether a chain's characters are plain: count of them, from a position on.
pub fn plain_chain(s: &[u8], at: usize, characters: usize, count: usize) -> bool
    requires { at + count ≤ length s.now }
    ensures { result ≡ true
        → mapped forget (many (item characters) count s.now at) ≡ done tt (at + count) }
{
    let limit = byte_limit(characters);
    s[at..at + count].iter().all(|c| usize::from(*c) < limit)
}

// Whether a fluent and one of its values are plain.
pub fn plain_claim(s: &[u8], at: usize, domains: &[u8]) -> bool
    requires { at + 2 ≤ length s.now }
    ensures { result ≡ true → claim_at domains.now s.now at ≡ done tt (at + 2) }
{
    let fluent = usize::from(s[at]);
    fluent < byte_limit(domains.len())
        && usize::from(s[at + 1]) < byte_limit(usize::from(domains[fluent]))
}

// The place after a test, where it is plain.
pub fn plain_test(s: &[u8], at: usize, characters: usize, domains: &[u8]) -> Option<usize>
    ensures { IfSome result (λ after.
        mapped forget (test_at (dims characters domains.now) s.now at) ≡ done tt after) }
{
    if s.len() <= at {
        return None;
    }
    let count = usize::from(s[at]);
    if 4 < count {
        return None;
    }
    let n = at + 1 + count;
    if s.len() <= n + 2 {
        return None;
    }
    if plain_chain(s, at + 1, characters, count) && s[n] < 3 && plain_claim(s, n + 1, domains) {
        Some(n + 3)
    } else {
        None
    }
}

// The place after an effect, where it is plain.
pub fn plain_effect(s: &[u8], at: usize, characters: usize, domains: &[u8]) -> Option<usize>
    requires { characters ≤ 6 }
    ensures { IfSome result (λ after.
        mapped forget (effect_at (dims characters domains.now) s.now at) ≡ done tt after) }
{
    if s.len() <= at || s.len() <= at + 2 {
        return None;
    }
    if usize::from(s[at]) < byte_limit(characters + 1) && plain_claim(s, at + 1, domains) {
        Some(at + 3)
    } else {
        None
    }
}

// A test taken apart where it stands: its chain's length, its kind, the fluent and the value that it names, and the
// place behind it.
ghost use Rattle.std.specs.Prelude.{ℕ, ◌<◌, ◌≡◌, length};
ghost use Rattle.pack.specs.Syntax.{Test};
ghost use Rattle.pack.specs.Grammar.{kind_of, test_at};
ghost use Rattle.pack.specs.Duties.Judge.{Readable, Tells, Ends};

// How many characters the chain of a test has.
pub fn chain_of(s: &[u8], at: usize) -> usize
    requires { Readable test_at s.now at }
    ensures { Tells test_at (λ (x : Test). length x.chain) s.now at result }
{
    usize::from(s[at])
}

// The fluent that a test names.
pub fn fluent_of(s: &[u8], at: usize) -> usize
    requires { Readable test_at s.now at }
    ensures { Tells test_at (λ (x : Test). x.fluent) s.now at result }
{
    let n = usize::from(s[at]);
    usize::from(s[at + 2 + n])
}

// The kind of a test, as a byte.
pub fn kind_of(s: &[u8], at: usize) -> u8
    requires { Readable test_at s.now at }
    ensures { (result < 3) × Tells test_at (λ (x : Test). x.kind) s.now at (kind_of result) }
{
    let n = usize::from(s[at]);
    s[at + 1 + n]
}

// The value that a test names.
pub fn tested_value(s: &[u8], at: usize) -> u8
    requires { Readable test_at s.now at }
    ensures { Tells test_at (λ (x : Test). x.value) s.now at result }
{
    let n = usize::from(s[at]);
    s[at + 3 + n]
}

// The place after a test.
pub fn after_test(s: &[u8], at: usize) -> usize
    requires { Readable test_at s.now at }
    ensures { Ends test_at s.now at result }
{
    at + 4 + usize::from(s[at])
}

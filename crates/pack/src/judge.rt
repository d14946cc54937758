// Conditions judged in place, over a state in a table. Every number of an accepted pack's conditions is one byte.
//
// Where the last alternative or rule fails, nothing is left to read, so the place after it is not looked for: most
// conditions have one alternative, and most utilities one or two rules.
//
// Each walk is a loop of its own: a trait of what is read, to share three lines, would be longer than the loops.
ghost use Rattle.std.specs.Prelude.{ℕ, ◌<◌, ◌≤◌, ◌≡◌, false, List};
ghost use Rattle.pack.specs.Syntax.{Test, Condition, Rule};
ghost use Rattle.pack.specs.Reading.{done};
ghost use Rattle.pack.specs.Grammar.{Dimensions, kind_of, test_at, condition_at, rules_at};
ghost use Rattle.pack.specs.Condition.{compares, all_pass};
ghost use Rattle.pack.specs.Duties.Table.{state_of};
ghost use Rattle.pack.specs.Duties.Judge.{alternative_at, Small, Over, Readable, Judged};

use crate::number::read_number;
use crate::table::{Table, follow};
use crate::test::after_test;

// A test's kind: 0 is, 1 is not, 2 at least. An accepted pack has no other, and a test of another would never hold.
pub fn relates(kind: u8, x: u8, value: u8) -> bool
    ensures { (kind < 3 → result ≡ compares (kind_of kind) x value) × (3 ≤ kind → result ≡ false) }
{
    // The kind stays the pack's byte: it is compared once, where it stands.
    match kind {
        0 => x == value,
        1 => x != value,
        2 => value <= x,
        3..=255 => false,
    }
}

// Whether a test holds where its chain leads.
pub fn passes(s: &[u8], at: usize, buffer: &[u8], t: Table, node: usize) -> bool
    requires { Judged test_at s.now at t buffer.now node }
    ensures { (d : Dimensions) → Over d t → (x : Test) (n : ℕ) → test_at d s.now at ≡ done x n
        → result ≡ Rattle.pack.specs.Condition.passes (state_of t buffer.now node) x }
{
    let count = usize::from(s[at]);
    let there = follow(s, at + 1, count, buffer, t, node);
    let n = at + 1 + count;
    relates(
        s[n],
        t.value(buffer, there, usize::from(s[n + 1])),
        s[n + 2],
    )
}

// Whether all tests of an alternative hold.
pub fn all_pass(s: &[u8], at: usize, buffer: &[u8], t: Table, node: usize) -> bool
    requires { Judged alternative_at s.now at t buffer.now node }
    ensures { (d : Dimensions) → Over d t → (ts : List Test) (n : ℕ)
        → alternative_at d s.now at ≡ done ts n → result ≡ all_pass (state_of t buffer.now node) ts }
{
    let mut n = at + 1;
    for _ in 0..s[at] {
        if !passes(s, n, buffer, t, node) {
            return false;
        }
        n = after_test(s, n);
    }
    true
}

// The place after an alternative.
pub fn after_alternative(s: &[u8], at: usize) -> usize
    requires { Readable alternative_at s.now at }
    ensures { (d : Dimensions) → Small d → (ts : List Test) (n : ℕ)
        → alternative_at d s.now at ≡ done ts n → result ≡ n }
{
    let mut n = at + 1;
    for _ in 0..s[at] {
        n = after_test(s, n);
    }
    n
}

// Whether some alternative of a condition holds.
pub fn holds(s: &[u8], at: usize, buffer: &[u8], t: Table, node: usize) -> bool
    requires { Judged condition_at s.now at t buffer.now node }
    ensures { (d : Dimensions) → Over d t → (c : Condition) (n : ℕ)
        → condition_at d s.now at ≡ done c n
        → result ≡ Rattle.pack.specs.Condition.holds (state_of t buffer.now node) c }
{
    let count = s[at];
    let mut n = at + 1;
    for i in 0..count {
        if all_pass(s, n, buffer, t, node) {
            return true;
        }
        if i + 1 == count {
            return false;
        }
        n = after_alternative(s, n);
    }
    false
}

// The place after a condition.
pub fn after_condition(s: &[u8], at: usize) -> usize
    requires { Readable condition_at s.now at }
    ensures { (d : Dimensions) → Small d → (c : Condition) (n : ℕ)
        → condition_at d s.now at ≡ done c n → result ≡ n }
{
    let mut n = at + 1;
    for _ in 0..s[at] {
        n = after_alternative(s, n);
    }
    n
}

// What a state is worth by rules: the number of the first rule whose condition holds, or 0.
pub fn utility(s: &[u8], at: usize, buffer: &[u8], t: Table, node: usize) -> usize
    requires { Judged rules_at s.now at t buffer.now node }
    ensures { (d : Dimensions) → Over d t → (rules : List Rule) (n : ℕ)
        → rules_at d s.now at ≡ done rules n
        → result ≡ Rattle.pack.specs.Condition.utility (state_of t buffer.now node) rules }
{
    let count = s[at];
    let mut n = at + 1;
    for i in 0..count {
        let holding = holds(s, n, buffer, t, node);
        if !holding && i + 1 == count {
            return 0;
        }
        let Ok((value, next)) = read_number(s, after_condition(s, n)) else {
            return 0;
        };
        if holding {
            return value;
        }
        n = next;
    }
    0
}

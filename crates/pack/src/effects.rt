// The walk over effects where they stand: one taken apart, what is asked of one, and whether some effect of a list is
// such a one.
ghost use Rattle.pack.specs.Syntax.{Effect};
ghost use Rattle.pack.specs.Grammar.{effect_at, effects_at};
ghost use Rattle.pack.specs.Duties.Judge.{Readable, Tells, Ends};
ghost use Rattle.pack.specs.Duties.Effects.{asks, some_of};

// For whom an effect is meant: 0 for the state itself, c + 1 for what character c believes.
pub fn whom_of(s: &[u8], at: usize) -> usize
    requires { Readable effect_at s.now at }
    ensures { Tells effect_at (λ (x : Effect). x.whom) s.now at result }
{
    usize::from(s[at])
}

// The fluent that an effect writes.
pub fn written_fluent(s: &[u8], at: usize) -> usize
    requires { Readable effect_at s.now at }
    ensures { Tells effect_at (λ (x : Effect). x.fluent) s.now at result }
{
    usize::from(s[at + 1])
}

// The value that it writes.
pub fn written_value(s: &[u8], at: usize) -> u8
    requires { Readable effect_at s.now at }
    ensures { Tells effect_at (λ (x : Effect). x.value) s.now at result }
{
    s[at + 2]
}

// What is asked of an effect: that it is meant for whom, or for anybody's belief.
#[derive(Clone, Copy)]
pub enum Wanted {
    For(usize),
    Belief,
}

// Whether an effect is such a one.
pub fn is_wanted(s: &[u8], at: usize, w: Wanted) -> bool
    requires { Readable effect_at s.now at }
    ensures { Tells effect_at (asks w) s.now at result }
{
    let whom = whom_of(s, at);
    match w {
        Wanted::For(who) => whom == who,
        Wanted::Belief => 0 < whom,
    }
}

// The place after an effect.
pub fn after_effect(s: &[u8], at: usize) -> usize
    requires { Readable effect_at s.now at }
    ensures { Ends effect_at s.now at result }
{
    at + 3
}

// Whether some effect of a list is such a one.
pub fn some_effect(s: &[u8], at: usize, w: Wanted) -> bool
    requires { Readable effects_at s.now at }
    ensures { Tells effects_at (some_of (asks w)) s.now at result }
{
    let mut n = at + 1;
    for _ in 0..s[at] {
        if is_wanted(s, n, w) {
            return true;
        }
        n = after_effect(s, n);
    }
    false
}

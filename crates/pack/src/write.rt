// Effects written in place, into the values of a row, and the consenters of an action.
ghost use Rattle.std.specs.Prelude.{ℕ, ◌<◌, ◌+◌, ◌≡◌, List, length, get_or};
ghost use Rattle.pack.specs.Reading.{done};
ghost use Rattle.pack.specs.Grammar.{Dimensions, effect_at, effects_at, consenters_at};
ghost use Rattle.pack.specs.Duties.Judge.{Small, Readable};
ghost use Rattle.pack.specs.Duties.Write.{Writable, EffectWritten, EffectsWritten};

use crate::effects::after_effect;

// One effect: written where it is meant for whom.
pub fn write_effect(s: &[u8], at: usize, whom: usize, buffer: &mut [u8], row: usize, fluents: usize)
    requires { Writable effect_at s.now at buffer.old row fluents }
    ensures { EffectWritten s.now at whom buffer.old buffer.new row fluents }
{
    if usize::from(s[at]) == whom {
        let f = row + usize::from(s[at + 1]);
        buffer[f] = s[at + 2];
    }
}

// The effects that are meant for whom, in order, later ones winning.
pub fn write_effects(
    s: &[u8],
    at: usize,
    whom: usize,
    buffer: &mut [u8],
    row: usize,
    fluents: usize,
)
    requires { Writable effects_at s.now at buffer.old row fluents }
    ensures { EffectsWritten s.now at whom buffer.old buffer.new row fluents }
{
    let mut n = at + 1;
    for _ in 0..s[at] {
        write_effect(s, n, whom, buffer, row, fluents);
        n = after_effect(s, n);
    }
}

// How many consenters there are.
pub fn consenters(s: &[u8], at: usize) -> usize
    requires { Readable consenters_at s.now at }
    ensures { (d : Dimensions) → Small d → (cs : List ℕ) (n : ℕ)
        → consenters_at d s.now at ≡ done cs n → result ≡ length cs }
{
    usize::from(s[at])
}

// One of the consenters.
pub fn consenter(s: &[u8], at: usize, i: usize) -> usize
    requires { Readable consenters_at s.now at × (i < get_or s.now at 0) }
    ensures { (d : Dimensions) → Small d → (cs : List ℕ) (n : ℕ)
        → consenters_at d s.now at ≡ done cs n → result ≡ get_or cs i 0 }
{
    usize::from(s[at + 1 + i])
}

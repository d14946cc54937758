// Ranges: for each fluent of a state itself the lowest and the highest value that it may have, and what could pass,
// hold or be had by such values.
//
// Actions and triggers that may happen widen the ranges by what they write. What is believed is left open. Only a "no"
// is promised anything: that it is so in no state within the ranges. So a range may have values that nothing writes.
ghost use Rattle.std.specs.Prelude.{◌<◌, ◌≤◌, ◌≡◌};
ghost use Rattle.pack.specs.Syntax.{Test};
ghost use Rattle.pack.specs.Grammar.{kind_of, test_at, condition_at, rules_at, effect_at, effects_at};
ghost use Rattle.pack.specs.Duties.Judge.{alternative_at, Readable, Tells};
ghost use Rattle.planner.specs.Inner.Range.{could_meet, could_pass, could_all, could_hold, could_exceed};
ghost use Rattle.planner.specs.Inner.Range.{InRange, AllInRange};
ghost use Rattle.planner.specs.Inner.Look.{Ranged, Judgeable, Widened, Triggered, TriggersWidened};

use pack::effects::{after_effect, whom_of, written_fluent, written_value};
use pack::judge::{after_alternative, after_condition};
use pack::number::read_number;
use pack::places::{TRIGGER, TRIGGER_EFFECTS};
use pack::test::{after_test, chain_of, fluent_of, kind_of, tested_value};

// Whether some value from low to high meets a test of a kind: 0 is, 1 is not, 2 at least.
// The kind is a byte, as `kind_of` of pack reads it.
pub fn some_relates(kind: u8, low: u8, high: u8, value: u8) -> bool
    ensures { kind < 3 → result ≡ could_meet (kind_of kind) low high value }
{
    match kind {
        0 => low <= value && value <= high,
        1 => low < high || low != value,
        2 => value <= high,
        3..=255 => false,
    }
}

// Whether some value from low to high meets the test at a place, wherever the test looks.
pub fn could_meet(pack: &[u8], at: usize, low: u8, high: u8) -> bool
    requires { Readable test_at pack.now at }
    ensures { Tells test_at (λ (x : Test). could_meet x.kind low high x.value) pack.now at result }
{
    some_relates(kind_of(pack, at), low, high, tested_value(pack, at))
}

// Whether the test at a place could pass.
pub fn could_pass(pack: &[u8], at: usize, lows: &[u8], highs: &[u8]) -> bool
    requires { Judgeable test_at pack.now at lows.now highs.now }
    ensures { Tells test_at (could_pass lows.now highs.now) pack.now at result }
{
    if chain_of(pack, at) != 0 {
        return true;
    }
    let fluent = fluent_of(pack, at);
    could_meet(pack, at, lows[fluent], highs[fluent])
}

// Whether all tests of the alternative at a place could.
pub fn could_all(pack: &[u8], at: usize, lows: &[u8], highs: &[u8]) -> bool
    requires { Judgeable alternative_at pack.now at lows.now highs.now }
    ensures { Tells alternative_at (could_all (could_pass lows.now highs.now))
        pack.now at result }
{
    let mut n = at + 1;
    let count = usize::from(pack[at]);
    for i in 0..count {
        if !could_pass(pack, n, lows, highs) {
            return false;
        }
        n = after_test(pack, n);
    }
    true
}

// Whether the condition at a place could hold.
pub fn could_hold(pack: &[u8], at: usize, lows: &[u8], highs: &[u8]) -> bool
    requires { Judgeable condition_at pack.now at lows.now highs.now }
    ensures { Tells condition_at (could_hold (could_pass lows.now highs.now))
        pack.now at result }
{
    let mut n = at + 1;
    let count = usize::from(pack[at]);
    for i in 0..count {
        if could_all(pack, n, lows, highs) {
            return true;
        }
        if i + 1 == count {
            return false;
        }
        n = after_alternative(pack, n);
    }
    false
}

// Whether some rule above base, of those at a place, could.
pub fn could_exceed(pack: &[u8], at: usize, lows: &[u8], highs: &[u8], base: usize) -> bool
    requires { Judgeable rules_at pack.now at lows.now highs.now }
    ensures { Tells rules_at (could_exceed (could_pass lows.now highs.now) base)
        pack.now at result }
{
    let mut n = at + 1;
    let count = usize::from(pack[at]);
    for i in 0..count {
        let could = could_hold(pack, n, lows, highs);
        if !could && i + 1 == count {
            return false;
        }
        let Ok((value, next)) = read_number(pack, after_condition(pack, n)) else {
            return true;
        };
        if could && base < value {
            return true;
        }
        n = next;
    }
    false
}

// Widens the ranges by the effect at a place, if it writes a fluent of the state itself.
pub fn widen_one(pack: &[u8], at: usize, lows: &mut [u8], highs: &mut [u8])
    requires { Judgeable effect_at pack.now at lows.old highs.old }
    ensures { Widened effect_at InRange pack.now at lows.old highs.old
        lows.new highs.new }
{
    if whom_of(pack, at) == 0 {
        let f = written_fluent(pack, at);
        let value = written_value(pack, at);
        lows[f] = lows[f].min(value);
        highs[f] = highs[f].max(value);
    }
}

// By all effects of the list at a place.
pub fn widen(pack: &[u8], at: usize, lows: &mut [u8], highs: &mut [u8])
    requires { Judgeable effects_at pack.now at lows.old highs.old }
    ensures { Widened effects_at AllInRange pack.now at lows.old highs.old
        lows.new highs.new }
{
    let mut n = at + 1;
    let count = usize::from(pack[at]);
    for i in 0..count {
        widen_one(pack, n, lows, highs);
        n = after_effect(pack, n);
    }
}

// By all effects of all triggers.
pub fn widen_by_triggers(
    pack: &[u8],
    places: &[u16],
    triggers: usize,
    lows: &mut [u8],
    highs: &mut [u8],
)
    requires { Triggered pack.now places.now triggers × Ranged lows.old highs.old }
    ensures { TriggersWidened pack.now places.now triggers lows.old
        highs.old lows.new highs.new }
{
    for i in 0..triggers {
        let effects = places[TRIGGER_EFFECTS + TRIGGER * i] as usize;
        widen(pack, effects, lows, highs);
    }
}

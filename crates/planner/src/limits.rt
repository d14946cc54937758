// The limits: separate counters with one meaning each, and a type each, so that none is passed as another.
ghost use Rattle.std.specs.Prelude.{◌≡◌, ◌&&◌, ◌⊎◌, ◌%◌, ◌≤◌};
ghost use Rattle.planner.specs.Inner.Memory.{Sized};
ghost use Rattle.planner.specs.Inner.Layout.{entries, laid_out};
ghost use Rattle.planner.specs.Replies.{story_limit, foresight_limit, nesting_limit};

use crate::regions::{BLOCKS, STEPS};
use chart::call::both_at_most;
use pack::contents::Contents;
use transition::regions::NUMBERS;

// The story limit T: how many actions an ending may have, 1 to 8.
#[derive(Clone, Copy)]
pub struct Story(pub usize);

// The foresight limit K: how many actions a list that explains an action may have, 1 to 6.
#[derive(Clone, Copy)]
pub struct Foresight(pub usize);

// The nesting limit E: how often an explanation may rest on another, 0 to 3.
#[derive(Clone, Copy)]
pub struct Nesting(pub usize);

// The limits of a search that its context does not hold: on the author's list, and on explanations within others.
#[derive(Clone, Copy)]
pub struct Limits {
    pub story: Story,
    pub nesting: Nesting,
}

// What stays the same through a call: a pack's counts, the foresight limit, how many bytes a slot of the work buffer
// takes, where the memory begins behind the slots, how many entries it has for what is known of lists (and half as many
// for steps), where its tables begin, and how many bytes each block takes that they are kept in.
// The pack and its places go beside it: of a struct that lends them each contract would have to name the moment, twice.
#[derive(Clone, Copy)]
pub struct Context {
    pub actions: usize,
    pub triggers: usize,
    pub fluents: usize,
    pub characters: usize,
    pub foresight: Foresight,
    pub stride: usize,
    pub memory: usize,
    pub lists: usize,
    pub tables: usize,
    pub block: usize,
}

// From so many actions on a pack is of a season's size: more is laid out for its search, and reckoned before it.
pub const SEASON: usize = 12;

// How many entries there are: few for packs of few actions, of which little is known, since the entries are emptied at
// the start; many where there is room. Nothing that is answered depends on it.
pub fn entries(actions: usize, room: usize) -> usize
    ensures { result ≡ entries actions room }
{
    if actions < SEASON {
        return 256;
    }
    if room < 24000 {
        return 512;
    }
    1024
}

// The remainder of a number by how many entries there are, a power of two: a case for each, since by a constant it is
// had without a division.
pub fn remainder(h: usize, count: usize) -> usize
    requires { (count ≡ 128) ⊎ Sized count }
    ensures { result ≡ h % count }
{
    match count {
        128 => h % 128,
        256 => h % 256,
        512 => h % 512,
        _ => h % 1024,
    }
}

// The context of a call that wants so many slots: each has room for a count and for 32 rows of the pack's width. The
// memory takes all behind them, up to the scratch of a step.
pub fn laid_out(c: Contents, k: Foresight, slots: usize) -> Context
    requires { (c.characters ≤ 6) × (slots ≤ 30) }
    ensures { result ≡ laid_out c k slots }
{
    let fluents = c.domains.fluents;
    let stride = 1 + 32 * (fluents + c.characters);
    let memory = slots * stride;
    let room = NUMBERS - memory;
    let lists = entries(c.actions, room);
    let block = (room - STEPS - 9 * lists) / BLOCKS;
    Context {
        actions: c.actions,
        triggers: c.triggers,
        fluents,
        characters: c.characters,
        foresight: k,
        stride,
        memory,
        lists,
        tables: memory + STEPS + 9 * lists,
        block,
    }
}

// Whether K and E are within their limits.
pub fn explainable(k: Foresight, e: Nesting) -> bool
    ensures { result ≡ (foresight_limit k.0 && nesting_limit e.0) }
{
    both_at_most(1, k.0, k.0, 6) && e.0 <= 3
}

// Whether T, K and E are.
pub fn searchable(t: Story, k: Foresight, e: Nesting) -> bool
    ensures { result ≡ (story_limit t.0 && (foresight_limit k.0 && nesting_limit e.0)) }
{
    both_at_most(1, t.0, t.0, 8) && explainable(k, e)
}

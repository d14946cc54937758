// What takes effect where: effects at a place of the pack, none at a place behind its end, and who takes part.
//
// A place behind the pack's end (8,192) stands for no effects: every place that is marked lies before it.
ghost use Rattle.std.specs.Prelude.{◌≡◌};
ghost use Rattle.transition.specs.Duties.Cause.{told, Telling, OfEffects, Tellable};
ghost use Rattle.transition.specs.Duties.Cause.{ToldWritten, Watched, Took};

use pack::effects::{Wanted, some_effect};
use pack::judge::holds;
use pack::places::PLACES;
use pack::table::Table;
use pack::write::write_effects;

// Whether some effect at a place is meant for whom.
pub fn tells(pack: &[u8], at: usize, whom: usize) -> bool
    requires { Telling pack.now at }
    ensures { OfEffects pack.now at (λ es. result ≡ told es whom) }
{
    at < pack.len() && some_effect(pack, at, Wanted::For(whom))
}

// Writes the effects at a place that are meant for whom into the values of a row.
pub fn write_told(pack: &[u8], at: usize, whom: usize, work: &mut [u8], row: usize, fluents: usize)
    requires { Tellable pack.now at work.old row fluents }
    ensures { ToldWritten pack.now at whom work.old work.new row fluents }
{
    if at < pack.len() {
        write_effects(pack, at, whom, work, row, fluents);
    }
}

// Whether what character c believes in row m takes part: every belief does where `observed` is `PLACES`, else those
// whose observation condition holds there.
pub fn takes(
    pack: &[u8],
    places: &[u16],
    observed: usize,
    work: &[u8],
    t: Table,
    m: usize,
    c: usize,
) -> bool
    requires { Watched pack.now places.now observed work.now t m c }
    ensures { Took pack.now places.now observed work.now t m c result }
{
    observed == PLACES || holds(pack, places[observed + c] as usize, work, t, m)
}

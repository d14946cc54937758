// What is found out of a state, which the memory keeps.
ghost use Rattle.std.specs.Prelude.{◌≡◌};
ghost use Rattle.planner.specs.Inner.Known.{mark_of, Marks};

// Of a character's lists whether one leads to the goal, of the author's that none of so many actions does, and of a
// deed whether it is explained.
#[derive(Clone, Copy, Debug, PartialEq, Eq)]
pub enum Known {
    Reached(bool),
    NoEnding,
    Explained(bool),
}

// The byte by which the memory marks it.
pub fn mark_of(known: Known) -> u8
    ensures { result ≡ mark_of known }
{
    match known {
        Known::Reached(false) => 1,
        Known::Reached(true) => 2,
        Known::NoEnding => 3,
        Known::Explained(false) => 4,
        Known::Explained(true) => 5,
    }
}

// What a byte marks; 0 marks nothing.
pub fn known_of(mark: u8) -> Option<Known>
    ensures { Marks mark result }
{
    match mark {
        1 => Some(Known::Reached(false)),
        2 => Some(Known::Reached(true)),
        3 => Some(Known::NoEnding),
        4 => Some(Known::Explained(false)),
        5 => Some(Known::Explained(true)),
        _ => None,
    }
}

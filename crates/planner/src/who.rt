// Whose utility is asked about.
ghost use Rattle.std.specs.Prelude.{◌≡◌, ◌<◌};
ghost use Rattle.planner.specs.Inner.Who.{rules_of, key_of};

// The author, or a character.
#[derive(Clone, Copy, Debug, PartialEq, Eq)]
pub enum Who {
    Author,
    Character(usize),
}

// Which of a pack's utilities it is: the author's is the first, then each character's.
pub fn rules_of(who: Who) -> usize
    requires { rules_of who < 256 }
    ensures { result ≡ rules_of who }
{
    match who {
        Who::Author => 0,
        Who::Character(c) => c + 1,
    }
}

// How a key has it: the author as 7, which no character is.
pub fn key_of(who: Who) -> usize
    ensures { result ≡ key_of who }
{
    match who {
        Who::Author => 7,
        Who::Character(c) => c,
    }
}

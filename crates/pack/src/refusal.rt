// Why bytes or a call are refused, and the number and the place that document 01's table has for it.
ghost use Rattle.std.specs.Prelude.{◌≡◌, ◌<◌};
ghost use Rattle.pack.specs.Refusals.{number_of, refusal_number, place_of};

// What can be at fault in the bytes of a pack or a chart: they end in a number, a number is in no shortest form, a
// count or size is outside its limits, something isn't there, a belief is blank, consenters don't rise, bytes come
// after the end.
#[derive(Clone, Copy, Debug, PartialEq, Eq)]
pub enum Fault {
    Ends,
    Form,
    Limit,
    Absent,
    Blank,
    Order,
    After,
}

// A fault, and the place of the first byte at fault.
#[derive(Clone, Copy, Debug, PartialEq, Eq)]
pub struct Flaw {
    pub fault: Fault,
    pub at: usize,
}

// What stops an action: its condition fails, a trigger holds after round 16, or there are over 32 states.
#[derive(Clone, Copy, Debug, PartialEq, Eq)]
pub enum Stop {
    Condition,
    Rounds,
    States,
}

// Why a call is refused: a flaw of its pack or of a chart, a lent buffer that is too short, a number out of range, what
// stops an action, or that there is no ending.
#[derive(Clone, Copy, Debug, PartialEq, Eq)]
pub enum Refusal {
    Pack(Flaw),
    Chart(Flaw),
    Short,
    Range,
    Stopped(Stop),
    NoEnding,
}

impl Fault {
    // The flaw that is at a place.
    pub fn at(self, at: usize) -> Flaw
        ensures { (result.fault ≡ self) × (result.at ≡ at) }
    {
        Flaw { fault: self, at }
    }

    // Its number in a pack.
    pub fn number(self) -> u8
        ensures { (result ≡ number_of self) × (result < 8) }
    {
        match self {
            Fault::Ends => 1,
            Fault::Form => 2,
            Fault::Limit => 3,
            Fault::Absent => 4,
            Fault::Blank => 5,
            Fault::Order => 6,
            Fault::After => 7,
        }
    }
}

impl Refusal {
    // The refusal's number.
    pub fn number(self) -> u8
        ensures { result ≡ refusal_number self }
    {
        match self {
            Refusal::Pack(flaw) => flaw.fault.number(),
            Refusal::Chart(flaw) => flaw.fault.number() + 20,
            Refusal::Short => 8,
            Refusal::Range => 9,
            Refusal::Stopped(Stop::Condition) => 10,
            Refusal::Stopped(Stop::Rounds) => 11,
            Refusal::Stopped(Stop::States) => 12,
            Refusal::NoEnding => 13,
        }
    }

    // Its place.
    pub fn place(self) -> usize
        ensures { result ≡ place_of self }
    {
        match self {
            Refusal::Pack(flaw) | Refusal::Chart(flaw) => flaw.at,
            _ => 0,
        }
    }
}

impl From<Flaw> for Refusal {
    ghost use Rattle.pack.specs.declared.refusal.Refusal.TheVariants.{Pack};

    ghost from_gives = { λ flaw r. r ≡ Pack flaw };

    fn from(flaw: Flaw) -> Refusal {
        Refusal::Pack(flaw)
    }
}

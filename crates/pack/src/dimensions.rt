// How many characters and fluents a pack has, and the domain size of each fluent: what its other parts are checked
// against.
ghost use Rattle.std.specs.Prelude.{◌≡◌, ◌≤◌, length, take};

// The domain size of each fluent: as many of these as there are fluents, since no memory is taken.
#[derive(Clone, Copy)]
pub struct Domains {
    pub fluents: usize,
    pub sizes: [u8; 24],
    ghost few: { fluents ≤ 24 },
    ghost long: { length sizes ≡ 24 },
}

impl Domains {
    // The sizes.
    pub fn as_slice(&self) -> &[u8]
        ensures { result.now ≡ take self.now.fluents self.now.sizes }
    {
        &self.sizes[..self.fluents]
    }
}

// What the parts behind a head are checked against: how many characters there are, and the domain sizes.
#[derive(Clone, Copy)]
pub struct Dimensions<'a> {
    pub characters: usize,
    pub domains: &'a [u8],
}

// The head: how many characters there are, and the domain sizes.
#[derive(Clone, Copy)]
pub struct Head {
    pub characters: usize,
    pub domains: Domains,
    ghost small: { characters ≤ 6 },
}

impl Head {
    // What the parts behind it are checked against.
    pub fn dimensions(&self) -> Dimensions<'_>
        ensures { (result.characters ≡ self.now.characters)
            × (result.domains.now ≡ take self.now.domains.fluents self.now.domains.sizes) }
    {
        Dimensions {
            characters: self.characters,
            domains: self.domains.as_slice(),
        }
    }
}

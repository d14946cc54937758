// Bytes of a lent buffer: cleared, copied from one part to another, held against each other, and made one number.
//
// Every call that answers clears all of the work buffer at its end, and no call reads a byte of it that it has not
// written: memory may be lent that nobody has written to.
ghost use Rattle.std.specs.Prelude.{◌≡◌, ℕ, ◌+◌, ◌<◌, ◌≤◌, length};
ghost use Rattle.std.specs.Bool.{Decides};
ghost use Rattle.chart.specs.Duties.Level.{Agrees, SameByte};
ghost use Rattle.chart.specs.Duties.Put.{Apart, PartCopied, Cleared};
ghost use Rattle.chart.specs.Laws.Sums.{sum_of};

// Sets the k bytes from a on to 0.
pub fn clear(work: &mut [u8], a: usize, k: usize)
    requires { a + k ≤ length work.old }
    ensures { Cleared work.old work.new a k }
{
    work[a..a + k].fill(0);
}

// Copies the f bytes from a on to b, past them or below them.
pub fn copy_part(work: &mut [u8], a: usize, b: usize, f: usize)
    requires { Apart a b f × (a + f ≤ length work.old) × (b + f ≤ length work.old) }
    ensures { PartCopied work.old work.new a b f }
{
    // Rows are short, and a loop over a few bytes is quicker than the call that `copy_within` becomes.
    for k in 0..f {
        work[b + k] = work[a + k];
    }
}

// The first of the f bytes from a on that is not the same from b on.
pub fn first_other(work: &[u8], a: usize, b: usize, f: usize) -> Option<usize>
    requires { (a + f ≤ length work.now) × (b + f ≤ length work.now) }
    ensures { Agrees (SameByte work.now a b) f result }
{
    // Rows are short, and a loop over a few bytes is quicker than `==` of the two slices.
    for q in 0..f {
        if work[a + q] != work[b + q] {
            return Some(q);
        }
    }
    None
}

// Whether the f bytes from a on are the same as those from b on.
pub fn same_part(work: &[u8], a: usize, b: usize, f: usize) -> bool
    requires { (a + f ≤ length work.now) × (b + f ≤ length work.now) }
    ensures { Decides result ((q : ℕ) → q < f → SameByte work.now a b q) }
{
    first_other(work, a, b, f).is_none()
}

// The n bytes from a on as one number of 32 bits: each counts FACTOR times as much as the one behind it.
pub fn digest<const FACTOR: usize>(work: &[u8], a: usize, n: usize) -> usize
    requires { (FACTOR < 256) × (a + n ≤ length work.now) }
    ensures { (result ≡ sum_of FACTOR work.now a n) × (result < 4294967296) }
{
    let mut sum = 0;
    for x in &work[a..a + n] {
        sum = (sum * FACTOR + usize::from(*x)) % 4294967296;
    }
    sum
}

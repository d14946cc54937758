// Numbers given on demand: each slot that is named gets the next number, once.
ghost use Rattle.std.specs.Prelude.{◌≡◌, ℕ, suc, ◌+◌, ◌<◌, ◌≤◌, max, length, get_or};
ghost use Rattle.chart.specs.Duties.Numbers.{Numbering, Given, Named};

// How many are numbered once r, a number below `count` or `count` itself, is.
pub fn more(count: usize, r: usize) -> usize
    requires { r < 256 }
    ensures { result ≡ max count (suc r) }
{
    count.max(r + 1)
}

// The number of slot x: the one that it has, or the next.
pub fn number_of(work: &mut [u8], m: usize, size: usize, count: usize, x: usize) -> usize
    requires room { (m + size + size ≤ length work.old) × (size < 256) × (x < size) }
    requires numbering { Numbering work.old m size count }
    ensures { Given work.old work.new m size count x result }
{
    if let Some(number) = usize::from(work[m + x]).checked_sub(1) {
        return number;
    }
    work[m + x] = (count + 1) as u8;
    work[m + size + count] = x as u8;
    count
}

// Names the c slots that stand from `to` on, each by its number; how many numbers are given then.
pub fn name_beliefs(
    work: &mut [u8],
    m: usize,
    size: usize,
    to: usize,
    c: usize,
    count: usize,
) -> usize
    requires room { (m + size + size ≤ to) × (to + c ≤ length work.old) × (size < 256) }
    requires numbering { Numbering work.old m size count }
    requires below { (d : ℕ) → d < c → get_or work.old (to + d) 0 < size }
    ensures { Named work.old work.new m size count result to c (λ d. get_or work.old (to + d) 0) }
{
    let mut met = count;
    for k in 0..c {
        let x = usize::from(work[to + k]);
        let r = number_of(work, m, size, met, x);
        work[to + k] = r as u8;
        met = more(met, r);
    }
    met
}

// Places of a list.
ghost use Rattle.std.specs.Prelude.{◌≡◌, ◌+◌, ◌/◌, ◌≤◌, ◌<◌, length};
ghost use Rattle.std.specs.Int.Count.{count_trailing_zeros};
ghost use Rattle.lists.specs.code.Places.{UpTo, Until, Through, Back, eight_at};

// Eight bytes of 1, as one number.
const EIGHT_ONES: u64 = 72_340_172_838_076_673;

// So many places on, at most up to the end.
pub fn up_to(i: usize, most: usize, len: usize) -> usize
    requires { i ≤ len }
    ensures { UpTo i most len result }
{
    i + most.min(len - i)
}

// The first place of a byte, from a place to another; the end if it has none. Here and below the whole list is lent and
// not a part of it, since callers go on in the whole list at the place that they get.
pub fn until(xs: &[u8], from: usize, end: usize, x: u8) -> usize
    requires from_le_end { from ≤ end }
    requires end_in_bounds { end ≤ length xs.now }
    ensures { Until xs.now from end x result }
{
    for i in from..end {
        if xs[i] == x {
            return i;
        }
    }
    end
}

// The first place of another byte. A loop of its own, four lines as those of `until`: one function for both would take
// the test, and its contract would say of a closure what these say of a byte.
pub fn through(xs: &[u8], from: usize, end: usize, x: u8) -> usize
    requires from_le_end { from ≤ end }
    requires end_in_bounds { end ≤ length xs.now }
    ensures { Through xs.now from end x result }
{
    for i in from..end {
        if xs[i] != x {
            return i;
        }
    }
    end
}

// Eight bytes as one number, the first lowest: the compiler makes one load of them.
fn eight(xs: &[u8], i: usize) -> u64
    requires { i + 8 ≤ length xs.now }
    ensures { result ≡ eight_at xs.now i }
{
    u64::from_le_bytes([
        xs[i],
        xs[i + 1],
        xs[i + 2],
        xs[i + 3],
        xs[i + 4],
        xs[i + 5],
        xs[i + 6],
        xs[i + 7],
    ])
}

// How many bytes of two numbers are alike, from the lowest on, if they differ by these bits.
fn alike_bytes(others: u64) -> usize
    ensures { result ≡ count_trailing_zeros 64 others / 8 }
{
    (u64::trailing_zeros(others) / 8) as usize
}

// The first place of another byte behind a long run, which is passed eight bytes at a time.
pub fn through_run(xs: &[u8], from: usize, end: usize, x: u8) -> usize
    requires from_le_end { from ≤ end }
    requires end_in_bounds { end ≤ length xs.now }
    ensures { Through xs.now from end x result }
{
    if end < 8 {
        return through(xs, from, end, x);
    }
    let same = u64::from(x) * EIGHT_ONES;
    let last = end - 8;
    // By index: it goes on from each place by eight.
    let mut i = from;
    while i <= last {
        let others = eight(xs, i) ^ same;
        if others != 0 {
            return i + alike_bytes(others);
        }
        i += 8;
    }
    through(xs, i, end, x)
}

// The first place of a byte behind long runs of others, each of which is passed eight bytes at a time.
pub fn until_run(xs: &[u8], from: usize, end: usize, x: u8) -> usize
    requires from_le_end { from ≤ end }
    requires end_in_bounds { end ≤ length xs.now }
    ensures { Until xs.now from end x result }
{
    // By index: each turn goes on behind the run that it passed.
    let mut i = from;
    while i < end {
        let y = xs[i];
        if y == x {
            return i;
        }
        i = through_run(xs, i + 1, end, y);
    }
    i
}

// The first place from which on, up to the end, a byte stands.
pub fn back(xs: &[u8], from: usize, end: usize, x: u8) -> usize
    requires from_le_end { from ≤ end }
    requires end_in_bounds { end ≤ length xs.now }
    ensures { Back xs.now from end x result }
{
    for k in (from..end).rev() {
        if xs[k] != x {
            return k + 1;
        }
    }
    from
}

// Tests over slices of bytes, and the most ms of one call. No loop stops early, so that it is compiled to vector
// instructions.
ghost use Rattle.std.specs.Prelude.{◌≡◌, ◌&&◌, ℕ, ◌≤◌, leb, length};
ghost use Rattle.lists.specs.Lists.{all_at_most, all_at_least};
ghost use Rattle.lists.specs.code.Checks.{LargestOfFronts};

// The most ms of one call: question 5, for a station and for a calling set.
pub const MOST_MS: usize = 4_096;

// The largest of the first 16 bytes of two slices: the compiler makes two vector loads of them.
fn largest_of_fronts(xs: &[u8], ys: &[u8]) -> u8
    requires in_bounds { 16 ≤ length xs.now }
    requires in_bounds_2 { 16 ≤ length ys.now }
    ensures { LargestOfFronts 16 xs.now ys.now result }
{
    let mut largest: u8 = 0;
    for i in 0..16 {
        largest = largest.max(xs[i].max(ys[i]));
    }
    largest
}

// The largest byte, by a loop over all; 0 if there is none.
fn largest_of_all(xs: &[u8]) -> u8
    ensures { (m : ℕ) → leb result m ≡ all_at_most m xs.now }
{
    let mut largest: u8 = 0;
    for x in xs {
        largest = largest.max(*x);
    }
    largest
}

// The largest byte; 0 if there is none. Of 16 to 32 bytes the first 16 and the last 16, which may overlap, are all.
pub fn largest(xs: &[u8]) -> u8
    ensures { (m : ℕ) → leb result m ≡ all_at_most m xs.now }
{
    let n = xs.len();
    if (16 <= n) & (n <= 32) {
        return largest_of_fronts(xs, &xs[n - 16..]);
    }
    largest_of_all(xs)
}

// Is every byte at most m?
pub fn all_at_most(xs: &[u8], m: u8) -> bool
    ensures { result ≡ all_at_most m xs.now }
{
    largest_of_all(xs) <= m
}

// The smallest byte; 255 if there is none.
fn smallest(xs: &[u8]) -> u8
    ensures { (m : ℕ) → m ≤ 255 → leb m result ≡ all_at_least m xs.now }
{
    let mut smallest: u8 = 255;
    for x in xs {
        smallest = smallest.min(*x);
    }
    smallest
}

// Is every byte at least m? The last one is asked first.
pub fn all_at_least(xs: &[u8], m: u8) -> bool
    ensures { result ≡ all_at_least m xs.now }
{
    match xs {
        [.., last] if *last < m => false,
        _ => m <= smallest(xs),
    }
}

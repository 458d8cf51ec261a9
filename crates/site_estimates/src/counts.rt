//! Numbers of reads and writes.

ghost use Rattle.std.specs.Prelude.{◌≡◌, ◌*◌};
ghost use Rattle.site_estimates.specs.Numbers as numbers;

/// Where the numbers of an estimate stop (docs/RUNTIME.md, Choice of copies). Sums and products of two of them fit 64 bits.
pub const ESTIMATE_LIMIT: u64 = 1_000_000_000;

/// How often an object is read and written: each number is at most `ESTIMATE_LIMIT` where it comes from the calls here.
#[derive(Clone, Copy, Debug, PartialEq, Eq)]
pub struct Counts {
    pub reads: u64,
    pub writes: u64,
}

/// A number, or the limit where it is greater.
pub fn capped(number: u64) -> u64
    ensures { result ≡ numbers.capped number }
{
    if number < ESTIMATE_LIMIT {
        number
    } else {
        ESTIMATE_LIMIT
    }
}

// The sum of two numbers, or the limit.
fn sum(one: u64, other: u64) -> u64
    ensures { result ≡ numbers.sum one other }
{
    match one.checked_add(other) {
        Some(sum) => capped(sum),
        None => ESTIMATE_LIMIT,
    }
}

// The product of two numbers, or the limit.
fn product(one: u64, other: u64) -> u64
    ensures { result ≡ numbers.product one other }
{
    match one.checked_mul(other) {
        Some(product) => capped(product),
        None => ESTIMATE_LIMIT,
    }
}

/// How often what stands in one more loop is done: ten times as often, up to the limit.
pub fn ten_times(times: u64) -> u64
    ensures { result ≡ numbers.product 10 times }
{
    product(10, times)
}

impl Counts {
    /// No read and no write.
    pub fn zero() -> Counts
        ensures { result ≡ numbers.zero }
    {
        Counts {
            reads: 0,
            writes: 0,
        }
    }

    /// One read.
    pub fn one_read() -> Counts
        ensures { result ≡ numbers.one_read }
    {
        Counts {
            reads: 1,
            writes: 0,
        }
    }

    /// One write.
    pub fn one_write() -> Counts
        ensures { result ≡ numbers.one_write }
    {
        Counts {
            reads: 0,
            writes: 1,
        }
    }

    /// Both together, each number up to the limit.
    pub fn plus(self, other: Counts) -> Counts
        ensures { result ≡ numbers.plus self other }
    {
        Counts {
            reads: sum(self.reads, other.reads),
            writes: sum(self.writes, other.writes),
        }
    }

    /// What is done so many times.
    pub fn times(self, times: u64) -> Counts
        ensures { result ≡ numbers.times times self }
    {
        Counts {
            reads: product(times, self.reads),
            writes: product(times, self.writes),
        }
    }
}

// Runs of bytes in the work area: bytes cleared, and the loops that add a multiple of one row to another, subtract it or exchange
// two rows, with no branch inside and no call but the sum or the difference, which are one instruction each. They go by an index,
// since the two rows are places of one slice: an iterator would borrow it twice.
ghost use Rattle.std.specs.Prelude.{◌≡◌, ◌++◌, ◌⊎◌, ◌+◌, ◌-◌, ◌≤◌, length, drop, replicate};
ghost use Rattle.workarea.specs.Area.{numbers_made, made, exchanged_above, exchanged_below};

use symbols::{MOST_SYMBOLS, SYMBOL_PLACES};

// Sets the first `count` bytes to zero.
pub fn clear(work: &mut [u8], count: usize)
    requires { count ≤ length work.old }
    ensures { work.new ≡ replicate count 0 ++ drop count work.old }
{
    work[..count].fill(0);
}

// What a change of a row does with a multiple of another one.
#[derive(Clone, Copy)]
pub enum Sign {
    Plus,
    Minus,
}

// The sum of two symbols, or their difference.
fn sum_or_difference(q: usize, sign: Sign, a: u8, b: u8) -> u8
    ensures { result ≡ numbers_made q sign a b }
{
    match sign {
        Sign::Plus => symbols::sum(q, a, b),
        Sign::Minus => symbols::difference(q, a, b),
    }
}

// Adds to the bytes from `to` on the bytes from `from` on, each times what `products` is the table row of, or subtracts them.
pub fn change_bytes(
    work: &mut [u8],
    q: usize,
    sign: Sign,
    to: usize,
    from: usize,
    count: usize,
    products: [u8; MOST_SYMBOLS],
)
    requires in_area { (to + count ≤ length work.old) × (from + count ≤ length work.old) }
    requires apart { (to + count ≤ from) ⊎ (from + count ≤ to) }
    ensures { work.new ≡ made (numbers_made q sign) work.old to from count products }
{
    for i in 0..count {
        let factor = (work[from + i] % SYMBOL_PLACES) as usize;
        work[to + i] = sum_or_difference(q, sign, work[to + i], products[factor]);
    }
}

// From the last byte down to place `shift`: f's bytes become those `shift` places below minus the multiples of g's, and g's
// become f's. Going down, no byte is overwritten before it is read.
pub fn exchange_above(
    work: &mut [u8],
    q: usize,
    f: usize,
    g: usize,
    shift: usize,
    width: usize,
    products: [u8; MOST_SYMBOLS],
)
    requires in_area { (f + width ≤ length work.old) × (g + width ≤ length work.old) }
    requires apart { (f + width ≤ g) ⊎ (g + width ≤ f) }
    requires shift_within { shift ≤ width }
    ensures { work.new ≡ exchanged_above q work.old f g shift products shift (width - shift) }
{
    for i in (shift..width).rev() {
        let old = work[f + i];
        let factor = (work[g + i] % SYMBOL_PLACES) as usize;
        work[f + i] = symbols::difference(q, work[f + (i - shift)], products[factor]);
        work[g + i] = old;
    }
}

// The first bytes of f become zero minus the multiples of g's, and g's become f's.
pub fn exchange_below(
    work: &mut [u8],
    q: usize,
    f: usize,
    g: usize,
    count: usize,
    products: [u8; MOST_SYMBOLS],
)
    requires in_area { (f + count ≤ length work.old) × (g + count ≤ length work.old) }
    requires apart { (f + count ≤ g) ⊎ (g + count ≤ f) }
    ensures { work.new ≡ exchanged_below q work.old f g products count }
{
    for i in 0..count {
        let old = work[f + i];
        let factor = (work[g + i] % SYMBOL_PLACES) as usize;
        work[f + i] = symbols::difference(q, 0, products[factor]);
        work[g + i] = old;
    }
}

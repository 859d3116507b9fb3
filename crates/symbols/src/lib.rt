// The symbols of q = 2 and q = 4 as bytes: sums, differences and inverses, total on bytes. A byte counts as the symbol of
// its remainder by q². Crate products has their products.
#![tactic(auto)]

mod sizes;
mod tables;

ghost use Rattle.std.specs.Prelude.{◌≡◌, not};
ghost use Rattle.symbols.specs.Rule.{is_known, Known, sum_of, difference_of, symbols, number, symbol, any_beyond};

pub use sizes::{
    MOST_AREA, MOST_POINTS, MOST_POLYNOMIALS, MOST_Q, MOST_SYMBOLS, SYMBOL_PLACES, TABLE_SIZE,
};

// Whether there is a field for this q.
#[tactic(auto, unfolding(crate::specs::Rule::is_known))]
pub fn is_known(q: usize) -> bool
    ensures { result ≡ is_known q }
{
    q == 2 || q == 4
}

// The sum of two symbols: exclusive or, for every q that is known. No other crate knows what sums and differences are made of.
#[tactic(auto, unfolding(crate::specs::Rule::sum_of))]
pub fn sum(q: usize, a: u8, b: u8) -> u8
    ensures { result ≡ sum_of q a b }
{
    a ^ b
}

// The difference of two symbols: minus equals plus, for every q that is known.
#[tactic(auto, unfolding(crate::specs::Rule::difference_of))]
pub fn difference(q: usize, a: u8, b: u8) -> u8
    ensures { result ≡ difference_of q a b }
{
    sum(q, a, b)
}

pub fn inverse(q: usize, a: u8) -> u8
    requires { Known q }
    ensures { result ≡ number q ((symbols q).inverse (symbol q a)) }
{
    if q == 4 {
        tables::INVERSES_4[(a % 16) as usize]
    } else {
        tables::INVERSES_2[(a % 4) as usize]
    }
}

// Whether each byte of the list is a symbol, that is, below q².
pub fn all_symbols(q: usize, list: &[u8]) -> bool
    requires { Known q }
    ensures { result ≡ not (any_beyond q list.now) }
{
    let size = (q * q) as u8;
    list.iter().all(|&symbol| symbol < size)
}

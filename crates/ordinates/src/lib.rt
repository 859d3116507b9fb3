// The points of the curve y^q + y = x^(q+1) above an x: its ordinates.
#![tactic(auto)]

ghost use Rattle.std.specs.Prelude.{◌≡◌, ℕ, ◌+◌};
ghost use Rattle.algebra.specs.Symbols.{power};
ghost use Rattle.symbols.specs.Rule.{Known, symbols, number, symbol};
ghost use Rattle.symbols.specs.Tables.{product_row};
ghost use Rattle.ordinates.specs.Ordinates.{set_place, ordinates_above};

use symbols::{MOST_Q, MOST_SYMBOLS, SYMBOL_PLACES};

// The sets of ordinates: for q = 4 those above x⁵ = 0, 1, 6 and 7, for q = 2 those above x³ = 0 and 1.
const SETS_4: [[u8; MOST_Q]; 4] = [[0, 1, 6, 7], [2, 3, 4, 5], [10, 11, 12, 13], [8, 9, 14, 15]];

// A table of its own, as another q has other sets: no constant or type turns one into the other.
const SETS_2: [[u8; MOST_Q]; 2] = [[0, 1, 0, 0], [2, 3, 0, 0]];

// x^(q+1), by the products of x: it chooses the set of ordinates.
fn norm(q: usize, products: [u8; MOST_SYMBOLS]) -> u8
    requires { Known q }
    ensures { (x : ℕ) → products ≡ product_row q x → result ≡ number q (power (symbols q) (symbol q x) (q + 1)) }
{
    let mut value = 1u8;
    for _ in 0..q + 1 {
        value = products[(value % SYMBOL_PLACES) as usize];
    }
    value
}

// The place of the set that belongs to x⁵.
#[tactic(auto, unfolding(crate::specs::Ordinates::set_place))]
fn set_place(norm: u8) -> usize
    ensures { result ≡ set_place norm }
{
    match norm {
        0 => 0,
        1 => 1,
        6 => 2,
        _ => 3,
    }
}

// The ordinates above the x that has these products, rising: q of them, and zeros up to four. They are the set chosen by
// x^(q+1), copied.
pub fn ordinates(q: usize, products: [u8; MOST_SYMBOLS]) -> [u8; MOST_Q]
    requires { Known q }
    ensures { (x : ℕ) → products ≡ product_row q x → result ≡ ordinates_above q x }
{
    let norm = norm(q, products);
    if q == 4 {
        let place = set_place(norm);
        SETS_4[place]
    } else {
        let place = (norm % 2) as usize;
        SETS_2[place]
    }
}

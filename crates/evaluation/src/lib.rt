// The stages of encoding: a message's symbols in the places of their monomials, the values at an x of the polynomials in x that
// stand at the powers of y, and from these the symbols of the row at the points above that x.
#![tactic(auto)]

ghost use Rattle.std.specs.Prelude.{◌+◌, ◌*◌, ◌<◌, ◌≤◌, ◌≡◌, length};
ghost use Rattle.symbols.specs.Sizes.{most_q, most_symbols, most_points};
ghost use Rattle.symbols.specs.Rule.{Known};
ghost use Rattle.curve.specs.Codes.{point_count, dimension};
ghost use Rattle.evaluation.specs.Stages.{IsValue, IsSpread, IsColumn, IsFibre};

use curve::Powers;
use products::Products;
use symbols::{MOST_POINTS, MOST_Q, MOST_SYMBOLS, SYMBOL_PLACES};

// Horner's rule: the value of the polynomial with these coefficients at the symbol whose products these are.
fn value_in(q: usize, products: &[u8; MOST_SYMBOLS], coefficients: &[u8]) -> u8
    ensures { IsValue q products.now coefficients.now result }
{
    let Some((&last, others)) = coefficients.split_last() else {
        return 0;
    };
    let mut value = last;
    for &coefficient in others.iter().rev() {
        value = symbols::sum(q, products[(value % SYMBOL_PLACES) as usize], coefficient);
    }
    value
}

// The message's symbols in the places of their monomials: as many places for each power of y as there are symbols.
pub fn spread(q: usize, u: usize, message: &[u8]) -> [u8; MOST_POINTS]
    requires { Known q × (u < point_count q) × (length message.now ≡ dimension q u) }
    ensures { IsSpread q (u + 1) message.now result }
{
    let mut places = [0u8; MOST_POINTS];
    let mut taken = 0;
    for s in 0..=u {
        if let Some(Powers { x, y }) = curve::monomial_of(q, s) {
            places[y * MOST_SYMBOLS + x] = message[taken];
            taken += 1;
        }
    }
    places
}

// The values at x of the polynomials in x that stand at the powers of y.
pub fn column(products: Products, x: u8, places: &[u8], width: usize) -> [u8; MOST_Q]
    requires { (width ≤ most_symbols) × (length places.now ≡ most_points) }
    ensures { IsColumn products.q width x places.now result }
{
    let q = products.q;
    let by_x = products.row(x);
    let mut values = [0u8; MOST_Q];
    for j in 0..q {
        let start = j * MOST_SYMBOLS;
        let end = start + width;
        values[j] = value_in(q, &by_x, &places[start..end]);
    }
    values
}

// The symbols of the row at the points above x, from the values there.
pub fn fill_fibre(products: Products, x: usize, values: &[u8], row: &mut [u8])
    requires { (x < products.q * products.q) × (length values.now ≡ most_q) × (point_count products.q ≤ length row.old) }
    ensures { IsFibre products.q x values.now row.old row.new }
{
    let q = products.q;
    let ordinates = ordinates::ordinates(q, products.row(x as u8));
    let start = x * q;
    for b in 0..q {
        let by_y = products.row(ordinates[b]);
        row[start + b] = value_in(q, &by_y, &values[..q]);
    }
}

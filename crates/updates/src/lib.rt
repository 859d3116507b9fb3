// The update of a pair: one polynomial reduced by another, or both exchanged.
#![tactic(auto)]

ghost use Rattle.std.specs.Prelude.{◌≡◌, ℕ, ◌*◌, ◌<◌, length};
ghost use Rattle.lists.specs.Tables.{tab};
ghost use Rattle.symbols.specs.Rule.{Known, symbols, Sym, number};
ghost use Rattle.published.specs.Start.{Polynomials};
ghost use Rattle.published.specs.Pairing.{Pairing};
ghost use Rattle.published.specs.Steps.{ratio, changed, updated};
ghost use Rattle.workarea.specs.Area.{Area, cells_of, Turns, Multiplies};
ghost use Rattle.updates.specs.Updates.{row_height, polynomial_reduced, polynomials_exchanged};
ghost use Rattle.workarea.specs.Heights.{WithinHeights, BecomesBelow};
ghost use Rattle.pair.specs.Pairs.{Held, NumbersOf, pair_at};

use heights::Heights;
use pair::Pair;
use products::Products;
use symbols::{MOST_Q, MOST_SYMBOLS};
use workarea::{Row, Sign};

// How many symbols of row r are subtracted: of an upper row no more than there are.
#[tactic(auto, unfolding(crate::specs::Updates::row_height))]
fn row_height(q: usize, r: usize, height: usize) -> usize
    requires { Known q }
    ensures { result ≡ row_height q height r }
{
    if r < q { height } else { workarea::width_of(q) }
}

// Polynomial f becomes f - ρ·x^shift·g, where `products` is the table row of ρ and g's upper rows have no more than `height`
// symbols.
fn reduce_polynomial(
    work: &mut [u8],
    q: usize,
    f: usize,
    g: usize,
    height: usize,
    shift: usize,
    products: [u8; MOST_SYMBOLS],
)
    requires area { Area q (length work.old) }
    requires f_bound { (f < 2 * q) × (g < 2 * q) × (f ≡ g → ⊥) }
    ensures { (ρ : Sym q) → Multiplies q products ρ → Turns q work.old work.new (polynomial_reduced q f g height shift ρ (2 * q)) }
{
    for r in 0..2 * q {
        let count = row_height(q, r, height);
        let to = Row {
            polynomial: f,
            row: r,
        };
        let from = Row {
            polynomial: g,
            row: r,
        };
        workarea::change_row(work, q, Sign::Minus, to, from, count, shift, products);
    }
}

// Polynomial f becomes x^shift·f - ρ·g, where `products` is the table row of ρ, and polynomial g becomes what f was.
fn exchange_polynomials(
    work: &mut [u8],
    q: usize,
    f: usize,
    g: usize,
    shift: usize,
    products: [u8; MOST_SYMBOLS],
)
    requires area { Area q (length work.old) }
    requires f_bound { (f < 2 * q) × (g < 2 * q) × (f ≡ g → ⊥) }
    ensures { (ρ : Sym q) → Multiplies q products ρ → Turns q work.old work.new (polynomials_exchanged q f g shift ρ (2 * q)) }
{
    for r in 0..2 * q {
        workarea::exchange_row(work, q, f, g, r, shift, products);
    }
}

// r = μ_i(w - w_i)/ν.
fn ratio_of(products: Products, vote: u8, w: u8, mu: u8, nu: u8) -> u8
    ensures { let q = products.q in
        (ω : Sym q) (P : Pairing (symbols q) q) → vote ≡ number q ω → w ≡ number q P.w → mu ≡ number q P.μ → nu ≡ number q P.ν
        → result ≡ number q (ratio (symbols q) q ω P) }
{
    let difference = symbols::difference(products.q, vote, w);
    let product = products.product(mu, difference);
    products.product(product, symbols::inverse(products.q, nu))
}

// What pair i does after the substitution: an exchange where c > 0, else f_i is reduced; the shift is c without its sign.
fn change(
    products: Products,
    work: &mut [u8],
    heights: &mut Heights,
    i: usize,
    pair: Pair,
    vote: u8,
)
    requires area { Area products.q (length work.old) }
    requires same_q { heights.old.q ≡ products.q }
    requires i_lt_q { (i < products.q) × Held products.q pair }
    ensures q_stays { heights.new.q ≡ heights.old.q }
    ensures becomes_below { let q = products.q in
        (S : Polynomials (symbols q) q) (ω : Sym q) (P : Pairing (symbols q) q) → vote ≡ number q ω → NumbersOf q pair P
        → WithinHeights q heights.old.each (cells_of q S)
        → BecomesBelow q work.old work.new S (changed (symbols q) q ω i P S) heights.new.each }
{
    if pair.w == vote {
        return;
    }
    let q = products.q;
    let row = products.row(ratio_of(products, vote, pair.w, pair.mu, pair.nu));
    let f = q + i;
    let g = pair.partner;
    let shift = pair.c.unsigned_abs() as usize;
    if 0 < pair.c {
        exchange_polynomials(work, q, f, g, shift, row);
        heights.exchange(f, g, shift);
    } else {
        reduce_polynomial(work, q, f, g, heights.of(g), shift, row);
        heights.add(f, g, shift);
    }
}

// The update of all pairs.
pub fn change_all(
    products: Products,
    work: &mut [u8],
    heights: &mut Heights,
    pairs: [Pair; MOST_Q],
    vote: u8,
)
    requires area { Area products.q (length work.old) }
    requires same_q { heights.old.q ≡ products.q }
    requires held { (i : ℕ) → i < products.q → Held products.q (pair_at pairs i) }
    ensures q_stays { heights.new.q ≡ heights.old.q }
    ensures becomes_below { let q = products.q in
        (S : Polynomials (symbols q) q) (ω : Sym q) (P : ℕ → Pairing (symbols q) q) → vote ≡ number q ω
        → ((i : ℕ) → i < q → NumbersOf q (pair_at pairs i) (P i)) → WithinHeights q heights.old.each (cells_of q S)
        → BecomesBelow q work.old work.new S (updated (symbols q) q ω (tab q P) S q) heights.new.each }
{
    for (i, pair) in pairs[..products.q].iter().enumerate() {
        change(products, work, heights, i, *pair, vote);
    }
}

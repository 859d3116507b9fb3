// Products by monomials: ρ·x^a·y^b times one part of a polynomial added to another part, and the substitution for z.
#![tactic(auto)]

ghost use Rattle.std.specs.Prelude.{◌≡◌, ◌+◌, ◌*◌, ◌<◌, ◌≤◌, length, false};
ghost use Rattle.algebra.specs.Weights.{gap};
ghost use Rattle.symbols.specs.Sizes.{most_q, most_degree};
ghost use Rattle.symbols.specs.Rule.{symbols, Sym, number};
ghost use Rattle.published.specs.Start.{Polynomials};
ghost use Rattle.published.specs.Steps.{substituted};
ghost use Rattle.workarea.specs.Area.{Area, cells_of, Turns, Becomes, Multiplies};
ghost use Rattle.substitution.specs.Products.{Apart, source_row, source_shift, product_row_added, product_added, replaced_z};
ghost use Rattle.workarea.specs.Heights.{WithinHeights};

use curve::Powers;
use heights::Heights;
use products::Products;
use symbols::MOST_SYMBOLS;
use workarea::{Row, Sign};

// The row that row j of y^b times a part comes from, and how far it is moved up.
#[derive(Clone, Copy)]
struct Source {
    row: usize,
    shift: usize,
}

// y^q is rewritten as x^(q+1) - y; this is the row that comes by the first, or unchanged.
#[tactic(auto, unfolding(crate::specs::Products::source_row, crate::specs::Products::source_shift))]
fn source_of(q: usize, b: usize, j: usize) -> Source
    requires { (q ≤ most_q) × (b < q) × (j < q) }
    ensures { (result.row ≡ source_row q b j) × (result.shift ≡ source_shift q b j) × (result.row < q) × (result.shift ≤ q + 1) }
{
    if b <= j {
        Source {
            row: j - b,
            shift: 0,
        }
    } else {
        Source {
            row: j + q - b,
            shift: q + 1,
        }
    }
}

// Adds to row j of one part that of a monomial times another part, of whose rows the first `height` symbols are taken, times
// what `products` is the table row of.
fn add_product_row(
    work: &mut [u8],
    q: usize,
    to: Row,
    from: Row,
    j: usize,
    height: usize,
    powers: Powers,
    products: [u8; MOST_SYMBOLS],
)
    requires area { Area q (length work.old) }
    requires apart { Apart q to from }
    requires j_lt_q { (j < q) × (powers.y < q) × (powers.x ≤ most_degree) }
    ensures { (ρ : Sym q) → Multiplies q products ρ → Turns q work.old work.new (product_row_added q to from j height powers.x powers.y ρ) }
{
    let a = powers.x;
    let b = powers.y;
    let source = source_of(q, b, j);
    let target = Row {
        polynomial: to.polynomial,
        row: to.row + j,
    };
    let main = Row {
        polynomial: from.polynomial,
        row: from.row + source.row,
    };
    workarea::change_row(
        work,
        q,
        Sign::Plus,
        target,
        main,
        height,
        a + source.shift,
        products,
    );
    if j == 0 || b < j {
        return;
    }
    // the y of x^(q+1) - y comes round to this row too
    let round = Row {
        polynomial: from.polynomial,
        row: from.row + (j + q - b - 1),
    };
    workarea::change_row(work, q, Sign::Minus, target, round, height, a, products);
}

// The same in all rows of the part; there is nothing to do where none has a symbol.
pub fn add_product(
    work: &mut [u8],
    q: usize,
    to: Row,
    from: Row,
    height: usize,
    powers: Powers,
    products: [u8; MOST_SYMBOLS],
)
    requires area { Area q (length work.old) }
    requires apart { Apart q to from }
    requires y_lt_q { (powers.y < q) × (powers.x ≤ most_degree) }
    ensures { (ρ : Sym q) → Multiplies q products ρ → Turns q work.old work.new (product_added q to from height powers.x powers.y ρ q) }
{
    if height == 0 {
        return;
    }
    for j in 0..q {
        add_product_row(work, q, to, from, j, height, powers, products);
    }
}

// z becomes z + ρ·x^a·y^b for these powers a and b, where `products` is the table row of ρ, in all 2q polynomials, whose upper
// rows have no more symbols than `heights` says.
pub fn replace_z(
    work: &mut [u8],
    q: usize,
    heights: &[usize],
    powers: Powers,
    products: [u8; MOST_SYMBOLS],
)
    requires area { Area q (length work.old) }
    requires q_in_bounds { 2 * q ≤ length heights.now }
    requires y_lt_q { (powers.y < q) × (powers.x ≤ most_degree) }
    ensures { (ρ : Sym q) → Multiplies q products ρ
        → Turns q work.old work.new (replaced_z q heights.now powers.x powers.y ρ (2 * q)) }
{
    for p in 0..2 * q {
        let upper = Row {
            polynomial: p,
            row: 0,
        };
        let lower = Row {
            polynomial: p,
            row: q,
        };
        add_product(work, q, lower, upper, heights[p], powers, products);
    }
}

// z becomes z + vote·(monomial of s) in all polynomials, and nothing changes for a vote of 0.
pub fn substitute(products: Products, work: &mut [u8], heights: &Heights, s: usize, vote: u8)
    requires area { Area products.q (length work.old) }
    requires same_q { heights.now.q ≡ products.q }
    requires s_le_most_degree { (s ≤ most_degree) × ((vote ≡ 0 → ⊥) → gap products.q s ≡ false) }
    ensures { let q = products.q in
        (S : Polynomials (symbols q) q) (ω : Sym q) → vote ≡ number q ω → WithinHeights q heights.now.each (cells_of q S)
        → Becomes q work.old work.new S (substituted (symbols q) q s ω S) }
{
    if vote == 0 {
        return;
    }
    let Some(powers) = curve::monomial_of(products.q, s) else {
        return;
    };
    replace_z(work, products.q, &heights.each, powers, products.row(vote));
}

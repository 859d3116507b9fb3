// The polynomials before the first step: h by interpolation, g_0 and f_0, and their products by the powers of y.
#![tactic(auto)]

ghost use Rattle.std.specs.Prelude.{◌≡◌, false, List, ◌++◌, map, ℕ, ◌+◌, ◌*◌, ◌<◌, ◌≤◌, length, drop};
ghost use Rattle.symbols.specs.Sizes.{most_symbols};
ghost use Rattle.symbols.specs.Rule.{Known, Sym, symbols, symbol, any_beyond};
ghost use Rattle.symbols.specs.Tables.{product_row};
ghost use Rattle.curve.specs.Codes.{point_count};
ghost use Rattle.published.specs.Start.{start};
ghost use Rattle.published.specs.Picture.{area_size, picture};
ghost use Rattle.workarea.specs.Area.{Area, Turns, shown};
ghost use Rattle.symbols.specs.Tables.{Holds};
ghost use Rattle.startarea.specs.StartArea.{minus_values, plus_part, column_sum, column_of, columns_of, rows_minus, blank, firsts, begun, multiple_added};

use curve::Powers;
use products::Products;
use symbols::{MOST_SYMBOLS, SYMBOL_PLACES};
use workarea::Row;

// Puts x^(q²) - x in the lower part of g_0 and 1 in the upper part of f_0.
#[tactic(auto, using(crate::proofs::StartBytes::first_places))]
fn put_firsts(work: &mut [u8], q: usize)
    requires { Area q (length work.old) }
    ensures { (rest : List ℕ) → work.old ≡ shown q (blank q) ++ rest → work.new ≡ shown q (firsts q) ++ rest }
{
    let one = workarea::row_place(q, q, 0);
    work[one] = 1;
    let vanishing = workarea::row_place(q, 0, q);
    work[vanishing + 1] = symbols::difference(q, 0, 1);
    work[vanishing + q * q] = 1;
}

// Adds `constant` and `factor` times Σ x^i·a^(n-1-i) to a sum of powers of x below n, by the products of a. Going down, the
// powers of a rise.
fn add_part(
    sums: [u8; MOST_SYMBOLS],
    q: usize,
    n: usize,
    products: [u8; MOST_SYMBOLS],
    constant: u8,
    factor: u8,
) -> [u8; MOST_SYMBOLS]
    requires known { Known q }
    requires n_nonzero { (0 < n) × (n ≤ most_symbols) × (constant < q * q) × (factor < q * q) }
    ensures { (a : ℕ) (F : ℕ → Sym q) → products ≡ product_row q a → Holds q sums n F → Holds q result n (plus_part q n (symbol q a) (symbol q constant) (symbol q factor) F) }
{
    let mut result = sums;
    let mut term = factor;
    for i in (0..n).rev() {
        result[i] = symbols::sum(q, result[i], term);
        term = products[(term % SYMBOL_PLACES) as usize];
    }
    result[0] = symbols::sum(q, result[0], constant);
    result
}

// The received symbols above the x with number a, times the parts in y of their points.
#[tactic(auto, using(crate::proofs::StartColumns::column_places))]
fn column_sums(products: Products, row: &[u8], a: usize) -> [u8; MOST_SYMBOLS]
    requires row_len { (length row.now ≡ point_count products.q) × (any_beyond products.q row.now ≡ false) }
    requires a_bound { a < products.q * products.q }
    ensures { let q = products.q in Holds q result q (column_sum q row.now a q) }
{
    let q = products.q;
    let ordinates = ordinates::ordinates(q, products.row(a as u8));
    let mut sums = [0u8; MOST_SYMBOLS];
    for b in 0..q {
        let multiples = products.row(ordinates[b]);
        let received = row[a * q + b];
        // a name of its own, since the call is handed the array that its answer comes in the place of
        let more = add_part(sums, q, q, multiples, received, received);
        sums = more;
    }
    sums
}

// Subtracts from the n bytes from `to` on the values, each times what `products` is the table row of.
fn subtract_values(
    work: &mut [u8],
    q: usize,
    to: usize,
    n: usize,
    values: [u8; MOST_SYMBOLS],
    products: [u8; MOST_SYMBOLS],
)
    requires { (to + n ≤ length work.old) × (n ≤ most_symbols) }
    ensures { work.new ≡ minus_values q work.old to n values products }
{
    for i in 0..n {
        let factor = (values[i] % SYMBOL_PLACES) as usize;
        work[to + i] = symbols::difference(q, work[to + i], products[factor]);
    }
}

// Subtracts from the lower part of f_0 what the points above the x with number a give to h: the part in x of such a point is
// 1 - Σ x^i·a^(q²-1-i).
fn subtract_column(products: Products, work: &mut [u8], row: &[u8], a: usize)
    requires area { Area products.q (length work.old) }
    requires row_len { (length row.now ≡ point_count products.q) × (any_beyond products.q row.now ≡ false) }
    requires a_bound { a < products.q * products.q }
    ensures { let q = products.q in Turns q work.old work.new (rows_minus q q q q (column_of q row.now a)) }
{
    let q = products.q;
    let sums = column_sums(products, row, a);
    let powers = products.row(a as u8);
    let minus_one = symbols::difference(q, 0, 1);
    let values = add_part([0u8; MOST_SYMBOLS], q, q * q, powers, 1, minus_one);
    for j in 0..q {
        let multiples = products.row(sums[j]);
        let to = workarea::row_place(q, q, q + j);
        subtract_values(work, q, to, q * q, values, multiples);
    }
}

// Subtracts h from the lower part of f_0.
fn subtract_h(products: Products, work: &mut [u8], row: &[u8])
    requires area { Area products.q (length work.old) }
    requires row_len { (length row.now ≡ point_count products.q) × (any_beyond products.q row.now ≡ false) }
    ensures { let q = products.q in Turns q work.old work.new (rows_minus q q q q (columns_of q row.now (q * q))) }
{
    for a in 0..products.q * products.q {
        subtract_column(products, work, row, a);
    }
}

// Adds y^i times a part of polynomial `first` to that of the polynomial i places on.
fn add_multiple(products: Products, work: &mut [u8], first: usize, row: usize, i: usize)
    requires area { Area products.q (length work.old) }
    requires first_le_q { (first ≤ products.q) × (row ≤ products.q) × (0 < i) × (i < products.q) }
    ensures { let q = products.q in Turns q work.old work.new (multiple_added q first row i) }
{
    let to = Row {
        polynomial: first + i,
        row,
    };
    let from = Row {
        polynomial: first,
        row,
    };
    let q = products.q;
    let width = workarea::width_of(q);
    let powers = Powers { x: 0, y: i };
    substitution::add_product(work, q, to, from, width, powers, products.row(1));
}

// Makes g_i and f_i of g_0 and f_0; g_i has no upper part.
fn add_multiples(products: Products, work: &mut [u8], i: usize)
    requires area { Area products.q (length work.old) }
    requires i_nonzero { (0 < i) × (i < products.q) }
    ensures { let q = products.q in
        (h : List (List (Sym q))) (rest : List ℕ) → work.old ≡ shown q (begun q h i) ++ rest
        → work.new ≡ shown q (begun q h (i + 1)) ++ rest }
{
    let q = products.q;
    add_multiple(products, work, 0, q, i);
    add_multiple(products, work, q, 0, i);
    add_multiple(products, work, q, q, i);
}

// Makes all of them.
fn add_all_multiples(products: Products, work: &mut [u8])
    requires { Area products.q (length work.old) }
    ensures { let q = products.q in
        (h : List (List (Sym q))) (rest : List ℕ) → work.old ≡ shown q (begun q h 1) ++ rest
        → work.new ≡ shown q (begun q h q) ++ rest }
{
    for i in 1..products.q {
        add_multiples(products, work, i);
    }
}

// Puts the polynomials before the first step on a received row into the work area.
#[tactic(auto, using(workarea::proofs::Cells::still, workarea::proofs::Sizes::area_of))]
pub fn begin(products: Products, row: &[u8], work: &mut [u8])
    requires row_len { (length row.now ≡ point_count products.q) × (any_beyond products.q row.now ≡ false) }
    requires q_in_bounds { area_size products.q ≤ length work.old }
    ensures { let q = products.q in work.new
        ≡ picture (symbols q) q (start (symbols q) q (map (symbol q) row.now)) ++ drop (area_size q) work.old }
{
    let q = products.q;
    workarea::clear(work, workarea::area_size(q));
    put_firsts(work, q);
    subtract_h(products, work, row);
    add_all_multiples(products, work);
}

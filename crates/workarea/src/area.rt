// Rows of the work area by polynomial and row: the only functions that work out where a row stands.
ghost use Rattle.std.specs.Prelude.{◌≡◌, ◌+◌, ◌*◌, ◌<◌, length};
ghost use Rattle.symbols.specs.Rule.{Known, Sym};
ghost use Rattle.published.specs.Start.{width};
ghost use Rattle.published.specs.Picture.{area_size};
ghost use Rattle.workarea.specs.Area.{Area, TwoRows, Reach, row_place, Turns, Multiplies, symbols_made, row_made, row_exchanged};

use crate::rows;
use crate::rows::Sign;
use symbols::MOST_SYMBOLS;

// A row of the area; also a part of a polynomial, by the first of its q rows.
#[derive(Clone, Copy)]
pub struct Row {
    pub polynomial: usize,
    pub row: usize,
}

// How many powers of x a row has.
#[tactic(auto, using(crate::proofs::Sizes::sizes), unfolding(published::specs::Start::width))]
pub fn width_of(q: usize) -> usize
    requires { Known q }
    ensures { result ≡ width q }
{
    q * q + 2 * q - 1
}

// How many bytes the area needs.
#[tactic(auto, using(crate::proofs::Sizes::sizes), unfolding(published::specs::Picture::area_size))]
pub fn area_size(q: usize) -> usize
    requires { Known q }
    ensures { result ≡ area_size q }
{
    4 * (q * q) * width_of(q)
}

// Where row r of polynomial p starts. Two numbers and no `Row`, since most callers have them as numbers: a `Row` is four lines more.
#[tactic(auto, using(crate::proofs::Sizes::sizes, crate::proofs::Sizes::row_small), unfolding(crate::specs::Area::row_place))]
pub fn row_place(q: usize, p: usize, r: usize) -> usize
    requires known { Known q }
    requires p_bound { (p < 2 * q) × (r < 2 * q) }
    ensures { result ≡ row_place q p r }
{
    (p * (2 * q) + r) * width_of(q)
}

// The bytes of two rows that take part in a sum or a difference: where they start, and how many there are.
#[derive(Clone, Copy)]
struct Run {
    to: usize,
    from: usize,
    count: usize,
}

// Those of `to` that x^shift times the first `height` symbols of `from` reach: none where the shift is past the width.
#[tactic(auto, using(crate::proofs::Sizes::row_small))]
fn run_of(q: usize, to: Row, from: Row, height: usize, shift: usize) -> Run
    requires { Known q × TwoRows q to from }
    ensures { Reach q to from height shift result.to result.from result.count }
{
    let width = width_of(q);
    let target = row_place(q, to.polynomial, to.row);
    let source = row_place(q, from.polynomial, from.row);
    if width <= shift {
        return Run {
            to: target,
            from: source,
            count: 0,
        };
    }
    let count = height.min(width - shift);
    Run {
        to: target + shift,
        from: source,
        count,
    }
}

// Adds to a row what `products` is the table row of, times x^shift, times the first `height` symbols of another row; or subtracts
// it, as the sign says.
#[tactic(auto, using(crate::proofs::Cells::row_fits, crate::proofs::Cells::rows_differ))]
pub fn change_row(
    work: &mut [u8],
    q: usize,
    sign: Sign,
    to: Row,
    from: Row,
    height: usize,
    shift: usize,
    products: [u8; MOST_SYMBOLS],
)
    requires area { Area q (length work.old) }
    requires two_rows { TwoRows q to from }
    ensures { (ρ : Sym q) → Multiplies q products ρ → Turns q work.old work.new
        (row_made q (symbols_made q sign) to.polynomial to.row from.polynomial from.row height shift ρ) }
{
    let run = run_of(q, to, from, height, shift);
    rows::change_bytes(work, q, sign, run.to, run.from, run.count, products);
}

// Row r of polynomial f becomes x^shift times itself minus the multiple of that of g, and row r of g becomes that of f.
#[tactic(auto, using(crate::proofs::Cells::row_fits, crate::proofs::Cells::rows_differ))]
pub fn exchange_row(
    work: &mut [u8],
    q: usize,
    f: usize,
    g: usize,
    r: usize,
    shift: usize,
    products: [u8; MOST_SYMBOLS],
)
    requires area { Area q (length work.old) }
    requires f_bound { (f < 2 * q) × (g < 2 * q) × (r < 2 * q) × (f ≡ g → ⊥) }
    ensures { (ρ : Sym q) → Multiplies q products ρ → Turns q work.old work.new (row_exchanged q f g r shift ρ) }
{
    let width = width_of(q);
    let to = row_place(q, f, r);
    let from = row_place(q, g, r);
    if width <= shift {
        rows::exchange_below(work, q, to, from, width, products);
        return;
    }
    rows::exchange_above(work, q, to, from, shift, width, products);
    rows::exchange_below(work, q, to, from, shift, products);
}

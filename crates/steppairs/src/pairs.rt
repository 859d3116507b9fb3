// The numbers of the q pairs at a step: i', c, w_i, μ_i and ν, with k and c signed.
ghost use Rattle.std.specs.Prelude.{◌≡◌, false, ℕ, ◌≤◌, ◌<◌, nat_abs, length};
ghost use Rattle.symbols.specs.Sizes.{most_weight, most_degree};
ghost use Rattle.symbols.specs.Rule.{Known, Sym, symbols, number};
ghost use Rattle.published.specs.Start.{Polynomials};
ghost use Rattle.published.specs.Pairing.{k_of, is_negative, is_voted, looked, in_voted_step, in_unvoted_step, pairing};
ghost use Rattle.workarea.specs.Area.{Area, cells_of, Starts, Narrow};
ghost use Rattle.workarea.specs.Heights.{WithinHeights};
ghost use Rattle.pair.specs.Pairs.{Held, NumbersOf, pair_at};
ghost use Rattle.steppairs.specs.Named.{NamedAs};

use crate::reading;
use heights::Heights;
use pair::Pair;
use products::Products;
use symbols::MOST_Q;

// w_i and μ_i.
#[derive(Clone, Copy)]
struct NamedSymbol {
    w: u8,
    mu: u8,
}

// k, where total = qk + (q+1)i' with i' = total mod q: an exact division of a difference that may be negative.
#[tactic(auto, using(pair::proofs::Signed::divided))]
fn quotient_of(q: usize, total: usize) -> i64
    requires known { Known q }
    requires total_le_most_degree { total ≤ most_degree }
    ensures { result ≡ k_of q total }
{
    let low = (q + 1) * curve::remainder(q, total);
    let difference = (total as i64) - (low as i64);
    if q == 4 {
        difference / 4
    } else {
        difference / 2
    }
}

// -b, where f_i has b at x^k y^i' in its lower part, for a k that is not negative.
fn negative_at(work: &[u8], q: usize, i: usize, partner: usize, k: i64) -> u8
    requires area { Area q (length work.now) }
    requires i_lt_q { (i < q) × (partner < q) × (nat_abs k ≤ most_degree) × (is_negative k ≡ false) }
    ensures { (S : Polynomials (symbols q) q) → Narrow q (cells_of q S) → Starts q work.now (cells_of q S)
        → result ≡ number q ((symbols q).minus (looked (symbols q) q S i partner k)) }
{
    let b = reading::coefficient_at(work, q, q + i, q + partner, k as usize);
    symbols::difference(q, 0, b)
}

// w_i and μ_i in a step that votes, where `lead` is the leading coefficient of f_i.
fn in_voted_step(
    products: Products,
    work: &[u8],
    i: usize,
    partner: usize,
    k: i64,
    lead: u8,
) -> NamedSymbol
    requires area { Area products.q (length work.now) }
    requires i_lt_q { (i < products.q) × (partner < products.q) × (nat_abs k ≤ most_degree) }
    ensures { let q = products.q in
        (S : Polynomials (symbols q) q) (μ : Sym q) → Narrow q (cells_of q S) → Starts q work.now (cells_of q S)
        → lead ≡ number q μ → NamedAs q result (in_voted_step (symbols q) q k (looked (symbols q) q S i partner k) μ) }
{
    if 0 <= k {
        let negative = negative_at(work, products.q, i, partner, k);
        return NamedSymbol {
            w: products.product(negative, symbols::inverse(products.q, lead)),
            mu: lead,
        };
    }
    NamedSymbol { w: 0, mu: 1 }
}

// w_i and μ_i in a step that does not.
fn in_unvoted_step(work: &[u8], q: usize, i: usize, partner: usize, k: i64) -> NamedSymbol
    requires area { Area q (length work.now) }
    requires i_lt_q { (i < q) × (partner < q) × (nat_abs k ≤ most_degree) }
    ensures { (S : Polynomials (symbols q) q) → Narrow q (cells_of q S) → Starts q work.now (cells_of q S)
        → NamedAs q result (in_unvoted_step (symbols q) q k (looked (symbols q) q S i partner k)) }
{
    if k < 0 {
        return NamedSymbol { w: 0, mu: 1 };
    }
    NamedSymbol {
        w: negative_at(work, q, i, partner, k),
        mu: 1,
    }
}

// The numbers of pair i at step s, for a step that votes or does not.
fn pair_of(
    products: Products,
    work: &[u8],
    heights: &Heights,
    i: usize,
    s: usize,
    voted: bool,
) -> Pair
    requires area { Area products.q (length work.now) }
    requires same_q { heights.now.q ≡ products.q }
    requires i_lt_q { (i < products.q) × (s ≤ most_weight) }
    ensures held { Held products.q result }
    ensures numbers_of { let q = products.q in
        (S : Polynomials (symbols q) q) (u : ℕ) → Narrow q (cells_of q S) → WithinHeights q heights.now.each (cells_of q S)
        → Starts q work.now (cells_of q S) → is_voted q u s ≡ voted → NumbersOf q result (pairing (symbols q) q u s S i) }
{
    let q = products.q;
    let f = reading::leading_below(work, q, q + i, i, heights.of(q + i));
    let total = q * f.degree + (q + 1) * i + s;
    let partner = curve::remainder(q, total);
    let k = quotient_of(q, total);
    let g = reading::leading_of(work, q, partner, q + partner);
    let c = (g.degree as i64) - k;
    let named = if voted {
        in_voted_step(products, work, i, partner, k, f.coefficient)
    } else {
        in_unvoted_step(work, q, i, partner, k)
    };
    Pair {
        partner,
        c,
        w: named.w,
        mu: named.mu,
        nu: g.coefficient,
    }
}

// The numbers of all pairs.
pub fn pairs_of(
    products: Products,
    work: &[u8],
    heights: &Heights,
    s: usize,
    voted: bool,
) -> [Pair; MOST_Q]
    requires area { Area products.q (length work.now) }
    requires same_q { heights.now.q ≡ products.q }
    requires s_le_most_weight { s ≤ most_weight }
    ensures held { (i : ℕ) → i < products.q → Held products.q (pair_at result i) }
    ensures numbers_of { let q = products.q in
        (S : Polynomials (symbols q) q) (u : ℕ) → Narrow q (cells_of q S) → WithinHeights q heights.now.each (cells_of q S)
        → Starts q work.now (cells_of q S) → is_voted q u s ≡ voted
        → (i : ℕ) → i < q → NumbersOf q (pair_at result i) (pairing (symbols q) q u s S i) }
{
    let mut pairs = [Pair::default(); MOST_Q];
    for i in 0..products.q {
        pairs[i] = pair_of(products, work, heights, i, s, voted);
    }
    pairs
}

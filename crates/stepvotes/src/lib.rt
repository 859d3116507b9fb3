// Scores and the vote of a step: the first symbol whose score no other passes.
#![tactic(auto)]

ghost use Rattle.std.specs.Prelude.{◌≡◌, false, ℕ, ◌*◌, ◌-◌, ◌≤◌, ◌<◌, get_or};
ghost use Rattle.lists.specs.Tables.{tab};
ghost use Rattle.symbols.specs.Sizes.{most_symbols};
ghost use Rattle.symbols.specs.Rule.{Known, symbols, number};
ghost use Rattle.published.specs.Pairing.{Pairing, is_voted, score, best, vote};
ghost use Rattle.pair.specs.Pairs.{Held, NumbersOf, pair_at};

use pair::Pair;
use symbols::{MOST_Q, MOST_SYMBOLS, SYMBOL_PLACES};

// Whether step s votes: s is at most u and no gap.
#[tactic(auto, unfolding(published::specs::Pairing::is_voted, algebra::specs::Weights::nongap))]
pub fn is_voted(q: usize, u: usize, s: usize) -> bool
    requires { Known q }
    ensures { result ≡ is_voted q u s }
{
    s <= u && !curve::is_gap(q, s)
}

// The score of each symbol: a pair gives its c, if positive, to its w.
#[tactic(auto, using(workarea::proofs::Sizes::sizes))]
fn scores_of(pairs: [Pair; MOST_Q], q: usize) -> [usize; MOST_SYMBOLS]
    requires known { Known q }
    requires held { (i : ℕ) → i < q → Held q (pair_at pairs i) }
    ensures { (P : ℕ → Pairing (symbols q) q) → ((i : ℕ) → i < q → NumbersOf q (pair_at pairs i) (P i))
        → (a : ℕ) → a < most_symbols → get_or result a 0 ≡ score (symbols q) q (tab q P) a }
{
    let mut scores = [0usize; MOST_SYMBOLS];
    for pair in &pairs[..q] {
        let w = usize::from(pair.w % SYMBOL_PLACES);
        scores[w] += usize::try_from(pair.c).unwrap_or(0);
    }
    scores
}

// The symbol of largest score; only a larger one displaces it, so that the smallest among equals stays.
#[tactic(auto, using(workarea::proofs::Sizes::sizes))]
fn best_of(scores: [usize; MOST_SYMBOLS], q: usize) -> u8
    requires { Known q }
    ensures symbol { result < q * q }
    ensures best { (f : ℕ → ℕ) → ((a : ℕ) → a < most_symbols → get_or scores a 0 ≡ f a) → result ≡ best f (q * q - 1) }
{
    let mut winner = 0;
    for a in 1..q * q {
        if scores[winner] < scores[a] {
            winner = a;
        }
    }
    winner as u8
}

// The vote of a step, 0 for one that does not vote.
pub fn vote_of(pairs: [Pair; MOST_Q], q: usize, voted: bool) -> u8
    requires known { Known q }
    requires held { (i : ℕ) → i < q → Held q (pair_at pairs i) }
    ensures unvoted { voted ≡ false → result ≡ 0 }
    ensures vote { (P : ℕ → Pairing (symbols q) q) (u s : ℕ) → ((i : ℕ) → i < q → NumbersOf q (pair_at pairs i) (P i))
        → is_voted q u s ≡ voted → result ≡ number q (vote (symbols q) q u s (tab q P)) }
{
    if voted {
        let scores = scores_of(pairs, q);
        return best_of(scores, q);
    }
    0
}

// One step of the published decoder on a picture in the work area.
ghost use Rattle.std.specs.Prelude.{◌≡◌, List, ◌++◌, ℕ, ◌+◌, ◌<◌, ◌≤◌, length};
ghost use Rattle.symbols.specs.Rule.{Known};
ghost use Rattle.published.specs.Start.{start_weight, step_count};
ghost use Rattle.published.specs.Picture.{area_size};
ghost use Rattle.steps.specs.Stop.{picture_after};
ghost use Rattle.workarea.specs.Heights.{Heights as AreHeights};
ghost use Rattle.steps.specs.Step.{Stepped, BelowAfter};

use heights::Heights;
use products::Products;

// The weight of the first step.
#[tactic(auto, using(workarea::proofs::Sizes::sizes), unfolding(published::specs::Start::start_weight))]
pub fn start_weight(q: usize) -> usize
    requires { Known q }
    ensures { result ≡ start_weight q }
{
    q * q * q + q * q - q - 1
}

// How many steps there are: one for each weight down to 0.
#[tactic(auto, using(workarea::proofs::Sizes::sizes), unfolding(published::specs::Start::step_count))]
pub fn step_count(q: usize) -> usize
    requires { Known q }
    ensures { result ≡ step_count q }
{
    start_weight(q) + 1
}

// The step after `done` steps, on heights that know their q.
#[tactic(auto, using(workarea::proofs::Sizes::area_of), unfolding(published::specs::Start::step_count))]
fn step_with(
    products: Products,
    u: usize,
    done: usize,
    work: &mut [u8],
    heights: &mut Heights,
) -> u8
    requires room { (area_size products.q ≤ length work.old) × (done < step_count products.q) }
    requires same_q { heights.old.q ≡ products.q }
    ensures q_stays { heights.new.q ≡ heights.old.q }
    ensures stepped { let q = products.q in
        (row : List ℕ) (rest : List ℕ) → work.old ≡ picture_after q u row done ++ rest → BelowAfter q u row done heights.old.each
        → Stepped q u row done rest result work.new × BelowAfter q u row (done + 1) heights.new.each }
{
    let q = products.q;
    let s = start_weight(q) - done;
    let voted = stepvotes::is_voted(q, u, s);
    let pairs = steppairs::pairs_of(products, &work[..], heights, s, voted);
    let vote = stepvotes::vote_of(pairs, q, voted);
    substitution::substitute(products, work, heights, s, vote);
    updates::change_all(products, work, heights, pairs, vote);
    vote
}

// Does the step after `done` steps and gives its vote, 0 where there is none. The heights are the first places of a list.
#[tactic(auto, using(workarea::proofs::Sizes::sizes))]
pub fn take_step(
    products: Products,
    u: usize,
    done: usize,
    work: &mut [u8],
    heights: &mut [usize],
) -> u8
    requires room { (area_size products.q ≤ length work.old) × (done < step_count products.q) }
    requires heights { AreHeights products.q heights.old }
    ensures heights_stay { AreHeights products.q heights.new }
    ensures stepped { let q = products.q in
        (row : List ℕ) (rest : List ℕ) → work.old ≡ picture_after q u row done ++ rest → BelowAfter q u row done heights.old
        → Stepped q u row done rest result work.new × BelowAfter q u row (done + 1) heights.new }
{
    let mut first = Heights::of_list(products.q, heights);
    let vote = step_with(products, u, done, work, &mut first);
    first.put_in(heights);
    vote
}

// The stop service: any number of steps on a received row, with the picture and the votes that they leave.
ghost use Rattle.std.specs.Prelude.{◌≡◌, List, ◌++◌, ℕ, ◌+◌, ◌-◌, ◌<◌, ◌≤◌, length, drop, OnOk};
ghost use Rattle.symbols.specs.Rule.{Known, symbols};
ghost use Rattle.curve.specs.Codes.{dimension};
ghost use Rattle.curve.specs.Given.{Received};
ghost use Rattle.published.specs.Start.{step_count};
ghost use Rattle.published.specs.Picture.{area_size};
ghost use Rattle.published.specs.Meaning.{Meaning};
ghost use Rattle.steps.specs.Votes.{votes_below, noted};
ghost use Rattle.steps.specs.Stop.{picture_after, votes_after, stop_answer, stop_work, stop_output};

use crate::step;
use curve::Code;
use heights::Heights;
use products::Products;
use refusals::Refusal;

// Puts the vote of the step after `done` steps in its place among the votes by rising non-gap, if that step votes. The places
// from `left` on have their votes; the answer is how many are left then.
fn note_vote(q: usize, u: usize, done: usize, left: usize, vote: u8, votes: &mut [u8]) -> usize
    requires { Known q × (done < step_count q) × (left ≡ votes_below q u (step_count q - done)) × (left ≤ length votes.old) }
    ensures value { result ≡ votes_below q u (step_count q - (done + 1)) }
    ensures votes_left { votes.new ≡ noted q u done vote votes.old }
{
    let s = step::start_weight(q) - done;
    if stepvotes::is_voted(q, u, s) {
        let place = left - 1;
        votes[place] = vote;
        return place;
    }
    left
}

// Does the first steps, from the start on.
fn take_steps(products: Products, code: Code, steps: usize, work: &mut [u8], votes: &mut [u8])
    requires steps { (steps ≤ step_count code.q) × (products.q ≡ code.q) }
    requires room { (area_size code.q ≤ length work.old) × (dimension code.q code.u ≤ length votes.old) }
    ensures { (row rest rest' : List ℕ) → work.old ≡ picture_after code.q code.u row 0 ++ rest
        → votes.old ≡ votes_after code.q code.u row 0 ++ rest'
        → (work.new ≡ picture_after code.q code.u row steps ++ rest) × (votes.new ≡ votes_after code.q code.u row steps ++ rest') }
{
    let q = code.q;
    let u = code.u;
    let mut left = code.k;
    let mut heights = Heights::at_start(q).each;
    for done in 0..steps {
        let vote = step::take_step(products, u, done, work, &mut heights);
        left = note_vote(q, u, done, left, vote, votes);
    }
}

// The first steps on a full row of symbols: the picture into the work area, the votes into the first k places of `votes`.
pub fn advance(code: Code, steps: usize, row: &[u8], work: &mut [u8], votes: &mut [u8])
    requires row { Received code.q code.u row.now × (steps ≤ step_count code.q) }
    requires room { (area_size code.q ≤ length work.old) × (dimension code.q code.u ≤ length votes.old) }
    ensures work_left { work.new ≡ picture_after code.q code.u row.now steps ++ drop (area_size code.q) work.old }
    ensures votes_left { votes.new ≡ votes_after code.q code.u row.now steps ++ drop (dimension code.q code.u) votes.old }
{
    let products = Products::of(code.q);
    startarea::begin(products, row, work);
    workarea::clear(votes, code.k);
    take_steps(products, code, steps, work, votes);
}

// Stopping under a code: refused with 3 to 7, or done.
fn stop_under(
    code: Code,
    steps: usize,
    row: &[u8],
    work: &mut [u8],
    output: &mut [u8],
) -> Result<(), Refusal>
    ensures answer { result ≡ stop_answer code.q code.u steps row.now work.old output.old }
    ensures work { work.new ≡ stop_work code.q code.u steps row.now work.old output.old }
    ensures output { output.new ≡ stop_output code.q code.u steps row.now work.old output.old }
    ensures meaning { OnOk result (Meaning (symbols code.q) code.q code.u row.now steps output.new work.new) }
{
    if step::step_count(code.q) < steps {
        return Err(Refusal::TooManySteps);
    }
    if row.len() != code.n {
        return Err(Refusal::WrongLength);
    }
    if !symbols::all_symbols(code.q, row) {
        return Err(Refusal::NoSymbol);
    }
    if work.len() < workarea::area_size(code.q) {
        return Err(Refusal::ShortWork);
    }
    if output.len() < code.k {
        return Err(Refusal::ShortOutput);
    }
    advance(code, steps, row, work, output);
    Ok(())
}

// Stopping after any number of steps, for all inputs: refused with 1 to 7, or done with the picture and the votes, which then
// mean what demand 3 says.
pub fn stop(
    q: usize,
    u: usize,
    steps: usize,
    row: &[u8],
    work: &mut [u8],
    output: &mut [u8],
) -> Result<(), Refusal>
    ensures answer { result ≡ stop_answer q u steps row.now work.old output.old }
    ensures work { work.new ≡ stop_work q u steps row.now work.old output.old }
    ensures output { output.new ≡ stop_output q u steps row.now work.old output.old }
    ensures meaning { OnOk result (Meaning (symbols q) q u row.now steps output.new work.new) }
{
    let code = curve::code_of(q, u)?;
    stop_under(code, steps, row, work, output)
}

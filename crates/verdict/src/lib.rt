// The verdict on a block, made row by row: before the first row it is a refusal or that nothing differs so far.
#![tactic(auto)]

ghost use Rattle.std.specs.Prelude.{◌≡◌, ℕ, ◌+◌, ◌<◌, ◌^◌, get_or};
ghost use Rattle.verdict.specs.RowByRow.{verdict_before, next_verdict, total_of};

use answers::{Record, Verdict};
use layout::{MESSAGE_BYTES, TAPE_AREA, is_block, row_count};
use refusals::Refusal;

// The verdict before any row is read and how many rows are to be read, where so many records and so many places of work are lent.
// That the block and the payload are bytes is told on, for those who read rows out of them.
#[tactic(auto, unfolding(crate::specs::RowByRow::verdict_before, crate::specs::Checks::checks_for, refusals::specs::Numbers::first_of, published::specs::Picture::area_size, published::specs::Start::width))]
pub fn verdict_before(
    block: &[u8],
    payload: &[u8],
    records: usize,
    work: usize,
) -> Result<(Verdict, usize), Refusal>
    ensures told { result ≡ verdict_before block.now payload.now records work }
    ensures block_of_bytes { (i : ℕ) → get_or block.now i 0 < 256 }
    ensures payload_of_bytes { (i : ℕ) → get_or payload.now i 0 < 256 }
{
    if !is_block(block) {
        return Err(Refusal::BadBlock);
    }
    let rows = row_count(block);
    if payload.len() != MESSAGE_BYTES * rows {
        return Err(Refusal::WrongPayload);
    }
    if records < rows {
        return Err(Refusal::FewRecords);
    }
    if work < TAPE_AREA {
        return Err(Refusal::ShortWork);
    }
    Ok((Verdict::Copied(0), rows))
}

// The verdict after row r too, whose outcome is handed in; a refusal stays.
#[tactic(auto, unfolding(crate::specs::RowByRow::next_verdict, crate::specs::RowByRow::verdict_with, crate::specs::RowByRow::total_of, crate::specs::RowByRow::total_in))]
pub fn next_verdict(
    verdict: Result<Verdict, Refusal>,
    r: usize,
    outcome: Record,
) -> Result<Verdict, Refusal>
    requires { total_of verdict + outcome.count < 2 ^ 64 }
    ensures { result ≡ next_verdict verdict r outcome }
{
    match (verdict, outcome.state) {
        (Ok(Verdict::Copied(total)), 0) => Ok(Verdict::Copied(total + usize::from(outcome.count))),
        (Ok(Verdict::Copied(_)), 1) => Ok(Verdict::Differs(r)),
        (Ok(Verdict::Copied(_)), _) => Ok(Verdict::Unreadable(r)),
        (settled, _) => settled,
    }
}

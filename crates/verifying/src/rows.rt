// A block is verified row by row, whatever its records are stored in.
ghost use Rattle.std.specs.Prelude.{◌≡◌, ℕ, length, Ok, Err};
ghost use Rattle.answers.specs.declared.Verdict.TheVariants.{Copied};
ghost use Rattle.refusals.specs.Numbers.{first_of};
ghost use Rattle.published.specs.Picture.{area_size};
ghost use Rattle.voting.specs.Voting.{cleared};
ghost use Rattle.layout.specs.Layout.{tape_q, row_count};
ghost use Rattle.taperow.specs.Reading.{row_record};
ghost use Rattle.verdict.specs.Checks.{checks_for};
ghost use Rattle.verifying.specs.Copy.{CopyOf, CopiedExactly};
ghost use Rattle.verifying.specs.Verification.{verdict_from, all_records};

use crate::stored::Stored;
use answers::Verdict;
use refusals::Refusal;
use taperow::row_record;
use verdict::{next_verdict, verdict_before};

// Verifies a block against its payload, and stores the record of each row.
pub fn verify_rows<S: Stored>(
    block: &[u8],
    payload: &[u8],
    records: &mut [S],
    work: &mut [u8],
) -> Result<Verdict, Refusal>
    ensures answered { result
        ≡ first_of (checks_for block.now payload.now (S.room records.old) (length work.old)) Err (Ok (verdict_from 0 0 (all_records block.now payload.now))) }
    ensures records_left { records.new
        ≡ first_of (checks_for block.now payload.now (S.room records.old) (length work.old)) (λ why. records.old) (S.filled (row_count block.now) (row_record block.now payload.now) records.old) }
    ensures work_left { work.new
        ≡ first_of (checks_for block.now payload.now (S.room records.old) (length work.old)) (λ why. work.old) (cleared (area_size tape_q) work.old) }
    ensures copied { (total : ℕ) → result ≡ Ok (Copied total) → CopyOf block.now payload.now }
    ensures exactly { CopiedExactly block.now payload.now (S.room records.old) (length work.old) result }
{
    let (first, rows) = verdict_before(block, payload, S::room(records), work.len())?;
    let mut verdict = Ok(first);
    for r in 0..rows {
        let outcome = row_record(block, payload, r, work);
        S::put(records, r, outcome);
        verdict = next_verdict(verdict, r, outcome);
    }
    verdict
}

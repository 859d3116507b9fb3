// When is a copy a copy? A block is verified against its payload.
#![tactic(auto)]

ghost use Rattle.std.specs.Prelude.{◌≡◌, ℕ, ◌/◌, length, Ok};
ghost use Rattle.answers.specs.declared.Verdict.TheVariants.{Copied};
ghost use Rattle.verifying.specs.Copy.{CopyOf, CopiedExactly};
ghost use Rattle.verifying.specs.Verification.{verify_answer, verify_records, verify_work};
ghost use Rattle.verifying.specs.AsBytes.{verify_bytes_answer, verify_bytes_records, verify_bytes_work};

mod rows; // rows.rt: the loop over the rows of a block
mod stored; // stored.rt: where the records of the rows go

use answers::Record;
pub use answers::Verdict;
pub use refusals::Refusal;
use rows::verify_rows;

// Verifies a block against its payload.
#[tactic(auto, unfolding(crate::specs::Verification::verify_answer, crate::specs::Verification::verify_records, crate::specs::Verification::verify_work, crate::specs::Verification::verify_checks, crate::specs::Verification::all_records))]
pub fn verify(
    block: &[u8],
    payload: &[u8],
    records: &mut [Record],
    work: &mut [u8],
) -> Result<Verdict, Refusal>
    ensures answered { result
        ≡ verify_answer block.now payload.now records.old work.old }
    ensures records_left { records.new
        ≡ verify_records block.now payload.now records.old work.old }
    ensures work_left { work.new
        ≡ verify_work block.now payload.now records.old work.old }
    ensures copied { (total : ℕ) → result ≡ Ok (Copied total) → CopyOf block.now payload.now }
    ensures exactly { CopiedExactly block.now payload.now
        (length records.old) (length work.old) result }
{
    verify_rows(block, payload, records, work)
}

// Verifies a block against its payload; each record is two of the lent bytes, its state and its count.
#[tactic(auto, unfolding(crate::specs::AsBytes::verify_bytes_answer, crate::specs::AsBytes::verify_bytes_records, crate::specs::AsBytes::verify_bytes_work, crate::specs::AsBytes::byte_checks, crate::specs::Verification::all_records))]
pub fn verify_bytes(
    block: &[u8],
    payload: &[u8],
    records: &mut [u8],
    work: &mut [u8],
) -> Result<Verdict, Refusal>
    ensures answered { result
        ≡ verify_bytes_answer block.now payload.now records.old work.old }
    ensures records_left { records.new
        ≡ verify_bytes_records block.now payload.now records.old work.old }
    ensures work_left { work.new
        ≡ verify_bytes_work block.now payload.now records.old work.old }
    ensures copied { (total : ℕ) → result ≡ Ok (Copied total) → CopyOf block.now payload.now }
    ensures exactly { CopiedExactly block.now payload.now
        (length records.old / 2) (length work.old) result }
{
    verify_rows(block, payload, records, work)
}

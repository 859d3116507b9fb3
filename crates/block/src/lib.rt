// Blocks: a payload becomes a block, and when is a copy a copy?
#![tactic(auto)]

mod writing; // writing.rt: whether a payload can be written

ghost use Rattle.std.specs.Prelude.{◌≡◌, ℕ, take, Ok};
ghost use Rattle.block.specs.Writing.{write_answer, write_block};
ghost use Rattle.block.specs.Untouched.{Untouched};

pub use answers::{Record, Verdict};
use laying::lay_row;
use layout::{HEADER_BYTES, MESSAGE_BYTES, ROW_BYTES, put_header};
pub use refusals::Refusal;
pub use verifying::{verify, verify_bytes};
use writing::is_payload;

// Writes the block of a payload: its header and rows to the first bytes of the area, and no byte behind them.
#[tactic(auto, unfolding(crate::specs::Writing::write_answer, crate::specs::Writing::write_block, crate::specs::Writing::write_checks, crate::specs::Writing::rows_filled, refusals::specs::Numbers::first_of))]
pub fn write(payload: &[u8], block: &mut [u8]) -> Result<usize, Refusal>
    ensures answered { result ≡ write_answer payload.now block.old }
    ensures block_left { block.new ≡ write_block payload.now block.old }
    ensures untouched { (n : ℕ) → result ≡ Ok n → Untouched (take n block.new) payload.now }
{
    if !is_payload(payload) {
        return Err(Refusal::WrongPayload);
    }
    let rows = payload.len() / MESSAGE_BYTES;
    let size = HEADER_BYTES + ROW_BYTES * rows;
    if block.len() < size {
        return Err(Refusal::ShortOutput);
    }
    put_header(rows, block);
    for r in 0..rows {
        lay_row(payload, r, block);
    }
    Ok(size)
}

// The header of a block: what its bytes say, whether a block is as they say, and writing one. Any slice is read, however short:
// a byte past its end counts as 0, and the length rules such a block out.
ghost use Rattle.std.specs.Prelude.{◌≡◌, ◌++◌, ◌<◌, ◌≤◌, length, get_or, drop};
ghost use Rattle.layout.specs.Layout.{header_bytes, most_rows, four_bytes, row_count, is_header, is_block, header_of};

use crate::sizes::{HEADER_BYTES, HEADER_U, MOST_ROWS, ROW_BYTES};

// The byte at a place, 0 past the end.
fn byte_at(bytes: &[u8], at: usize) -> u8
    ensures { result ≡ get_or bytes.now at 0 }
{
    bytes.get(at).copied().unwrap_or(0)
}

// How many rows the header says.
#[tactic(auto, unfolding(crate::specs::Layout::row_count, crate::specs::Layout::two_bytes))]
pub fn row_count(block: &[u8]) -> usize
    ensures { (result ≡ row_count block.now) × (result < 65536) }
{
    usize::from(u16::from_be_bytes([byte_at(block, 6), byte_at(block, 7)]))
}

// How many bytes follow the first four, as these say it.
#[tactic(auto, unfolding(crate::specs::Layout::four_bytes, crate::specs::Layout::two_bytes))]
fn following(block: &[u8]) -> usize
    ensures { result ≡ four_bytes block.now 0 }
{
    u32::from_be_bytes([
        byte_at(block, 0),
        byte_at(block, 1),
        byte_at(block, 2),
        byte_at(block, 3),
    ]) as usize
}

// Whether the first 8 bytes are a header, whatever stands behind them.
#[tactic(auto, unfolding(crate::specs::Layout::is_header))]
fn is_header(block: &[u8]) -> bool
    ensures { result ≡ is_header block.now }
{
    let rows = row_count(block);
    following(block) == 4 + ROW_BYTES * rows
        && byte_at(block, 4) == 1
        && byte_at(block, 5) == HEADER_U
        && (1..=MOST_ROWS).contains(&rows)
}

// Whether header and total length are as document 01 has them.
#[tactic(auto, unfolding(crate::specs::Layout::is_block))]
pub fn is_block(block: &[u8]) -> bool
    ensures { result ≡ is_block block.now }
{
    block.len() == HEADER_BYTES + ROW_BYTES * row_count(block) && is_header(block)
}

// Writes the header of a block of so many rows to the first 8 bytes.
#[tactic(auto, unfolding(crate::specs::Layout::header_of, crate::specs::Layout::in_four_bytes, crate::specs::Layout::in_two_bytes))]
pub fn put_header(rows: usize, block: &mut [u8])
    requires { (rows ≤ most_rows) × (header_bytes ≤ length block.old) }
    ensures { block.new ≡ header_of rows ++ drop header_bytes block.old }
{
    let length = 4 + ROW_BYTES * rows;
    block[..4].copy_from_slice(&(length as u32).to_be_bytes());
    block[4] = 1;
    block[5] = HEADER_U;
    block[6..HEADER_BYTES].copy_from_slice(&(rows as u16).to_be_bytes());
}

// The record of one row: its symbols are gathered from where they stand, and judged: decoded, and the message compared with the
// payload's.
ghost use Rattle.std.specs.Prelude.{◌≡◌, ◌+◌, ◌*◌, ◌≤◌, length, false};
ghost use Rattle.symbols.specs.Rule.{any_beyond};
ghost use Rattle.published.specs.Picture.{area_size};
ghost use Rattle.voting.specs.Voting.{voted, cleared};
ghost use Rattle.decoder.specs.Decoding.{decoded, if_accepted};
ghost use Rattle.layout.specs.Layout.{tape_q, tape_u, row_length, message_length, row_bytes, message_bytes, header_bytes, block_row};
ghost use Rattle.taperow.specs.Reading.{row_record, judged_record};

use answers::Record;
use layout::{
    FIRST_END, HEADER_BYTES, MESSAGE_BYTES, MESSAGE_LENGTH, ROW_BYTES, ROW_LENGTH, TAPE_Q, TAPE_U,
};
use packing::unpack;
use refusals::Refusal;
use rowstate::record_of;

// The symbols of row r of a block, gathered from where they stand: byte 8 + 32r on.
fn gather_row(block: &[u8], r: usize, symbols: &mut [u8])
    requires { (header_bytes + row_bytes + row_bytes * r ≤ length block.now) × (length symbols.old ≡ row_length) }
    ensures gathered { symbols.new ≡ block_row block.now r }
    ensures all_symbols { any_beyond tape_q symbols.new ≡ false }
{
    unpack(
        &block[HEADER_BYTES + ROW_BYTES * r..FIRST_END + ROW_BYTES * r],
        symbols,
    );
}

// Decodes the 64 symbols of a row.
fn read_row(symbols: &[u8], work: &mut [u8], message: &mut [u8]) -> Result<usize, Refusal>
    requires full_row { (length symbols.now ≡ row_length) × (any_beyond tape_q symbols.now ≡ false) }
    requires room { (area_size tape_q ≤ length work.old) × (length message.old ≡ message_length) }
    ensures answered { result ≡ decoded tape_q tape_u symbols.now }
    ensures work_left { work.new ≡ cleared (area_size tape_q) work.old }
    ensures message_left { message.new ≡ if_accepted result (voted tape_q tape_u symbols.now) message.old }
{
    let mut corrected = [0u8; ROW_LENGTH];
    decoder::decode(TAPE_Q, TAPE_U, symbols, work, message, &mut corrected)
}

// Judges a row's symbols: its record, against the 20 bytes of its message in the payload.
fn judge_row(symbols: &[u8], original: &[u8], work: &mut [u8]) -> Record
    requires full_row { (length symbols.now ≡ row_length) × (any_beyond tape_q symbols.now ≡ false) }
    requires lent { (length original.now ≡ message_bytes) × (area_size tape_q ≤ length work.old) }
    ensures outcome { result ≡ judged_record symbols.now original.now }
    ensures work_left { work.new ≡ cleared (area_size tape_q) work.old }
{
    let mut message = [0u8; MESSAGE_LENGTH];
    let answer = read_row(symbols, work, &mut message);
    record_of(answer, &message, original)
}

// The record of row r, which starts at byte 8 + 32r of the block and at byte 20r of the payload.
pub fn row_record(block: &[u8], payload: &[u8], r: usize, work: &mut [u8]) -> Record
    requires { (header_bytes + row_bytes + row_bytes * r ≤ length block.now) × (message_bytes + message_bytes * r ≤ length payload.now) × (area_size tape_q ≤ length work.old) }
    ensures { (result ≡ row_record block.now payload.now r)
        × (work.new ≡ cleared (area_size tape_q) work.old) }
{
    let mut symbols = [0u8; ROW_LENGTH];
    gather_row(block, r, &mut symbols);
    judge_row(
        &symbols,
        &payload[MESSAGE_BYTES * r..MESSAGE_BYTES + MESSAGE_BYTES * r],
        work,
    )
}

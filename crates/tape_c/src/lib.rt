// The calls of crate tape exported to C under their own names, each with its clauses there: a crate is a library or a static library,
// not both. include/orbitspinet.h declares them and
// says their promises in words: a slice is passed as a pointer and a length.
#![tactic(auto)]

ghost use Rattle.std.specs.Prelude.{◌≡◌, pos, length};
ghost use Rattle.encoder.specs.Encoding.{encode_answer, encode_output};
ghost use Rattle.steps.specs.Stop.{stop_answer, stop_work, stop_output};
ghost use Rattle.decoder.specs.Decoding.{decode_answer, decode_work, decode_message, decode_corrected};
ghost use Rattle.passing.specs.PassOn.{passed_on};
ghost use Rattle.verifying.specs.AsBytes.{verify_bytes_answer, verify_bytes_records, verify_bytes_work};
ghost use Rattle.block.specs.Writing.{write_answer, write_block};
ghost use Rattle.results.specs.Results.{done_result, count_result, verify_result, verify_at, was_accepted, row_passed};

// Writes a message's row; 0, or minus a refusal's number.
#[unsafe(no_mangle)]
pub extern "C" fn tape_encode(q: u64, u: u64, message: &[u8], row: &mut [u8]) -> i64
    ensures result { result ≡ done_result (encode_answer q u message.now row.old) }
    ensures row { row.new ≡ encode_output q u message.now row.old }
{
    tape::tape_encode(q, u, message, row)
}

// Takes so many steps on a row, and leaves their picture and the votes; 0, or minus a refusal's number.
#[unsafe(no_mangle)]
pub extern "C" fn tape_stop(
    q: u64,
    u: u64,
    steps: u64,
    row: &[u8],
    work: &mut [u8],
    votes: &mut [u8],
) -> i64
    ensures result { result ≡ done_result (stop_answer q u steps row.now work.old votes.old) }
    ensures work { work.new ≡ stop_work q u steps row.now work.old votes.old }
    ensures votes { votes.new ≡ stop_output q u steps row.now work.old votes.old }
{
    tape::tape_stop(q, u, steps, row, work, votes)
}

// Writes the message and the corrected row; the count of places that differ, or minus a refusal's number.
#[unsafe(no_mangle)]
pub extern "C" fn tape_decode(
    q: u64,
    u: u64,
    row: &[u8],
    work: &mut [u8],
    message: &mut [u8],
    corrected: &mut [u8],
) -> i64
    ensures result { result ≡ count_result (decode_answer q u row.now work.old message.old corrected.old) }
    ensures work { work.new ≡ decode_work q u row.now work.old message.old corrected.old }
    ensures message { message.new ≡ decode_message q u row.now work.old message.old corrected.old }
    ensures corrected { corrected.new
        ≡ decode_corrected q u row.now work.old message.old corrected.old }
{
    tape::tape_decode(q, u, row, work, message, corrected)
}

// Says which row is passed on after a decoding, in `from`, and how many of that row's first symbols are: a part of a lent row
// does not cross to C as an answer.
#[unsafe(no_mangle)]
pub extern "C" fn tape_pass_on<'a>(
    q: u64,
    decoded: i64,
    received: &'a [u8],
    corrected: &'a [u8],
    from: &mut u64,
) -> i64
    ensures result { result ≡ pos (length (passed_on q (was_accepted decoded) received.now corrected.now)) }
    ensures from { from.new ≡ row_passed (was_accepted decoded) }
{
    tape::tape_pass_on(q, decoded, received, corrected, from)
}

// Writes the block of a payload; its length in bytes, or minus a refusal's number.
#[unsafe(no_mangle)]
pub extern "C" fn tape_write(payload: &[u8], block: &mut [u8]) -> i64
    ensures result { result ≡ count_result (write_answer payload.now block.old) }
    ensures block { block.new ≡ write_block payload.now block.old }
{
    tape::tape_write(payload, block)
}

// Compares a block with its payload, two bytes a record; 0 copied, 1 differs, 2 unreadable, or minus a refusal's number. The
// total or the row goes to `at`, C's way to return a second result.
#[unsafe(no_mangle)]
pub extern "C" fn tape_verify(
    block: &[u8],
    payload: &[u8],
    records: &mut [u8],
    work: &mut [u8],
    at: &mut u64,
) -> i64
    ensures result { result ≡ verify_result (verify_bytes_answer block.now payload.now records.old work.old) }
    ensures at { at.new
        ≡ verify_at (verify_bytes_answer block.now payload.now records.old work.old) at.old }
    ensures records { records.new ≡ verify_bytes_records block.now payload.now records.old work.old }
    ensures work { work.new ≡ verify_bytes_work block.now payload.now records.old work.old }
{
    tape::tape_verify(block, payload, records, work, at)
}

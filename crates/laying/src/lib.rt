// Laying a row: a message of 20 bytes is encoded and packed straight into its row's 32 bytes of the block.
#![tactic(auto)]

ghost use Rattle.std.specs.Prelude.{◌≡◌, ◌+◌, ◌*◌, ◌≤◌, length};
ghost use Rattle.std.proofs.Math.Seq.{paste};
ghost use Rattle.curve.specs.Answers.{code_of};
ghost use Rattle.packing.specs.Packing.{packed};
ghost use Rattle.layout.specs.Layout.{tape_q, tape_u, row_bytes, message_bytes, header_bytes};
ghost use Rattle.laying.specs.Laying.{code_row, packed_row};

use curve::Code;
use layout::{
    FIRST_END, HEADER_BYTES, MESSAGE_BYTES, MESSAGE_LENGTH, ROW_BYTES, ROW_LENGTH, TAPE_Q,
    TAPE_REACH, TAPE_U,
};
use packing::{pack, unpack};

// The code of the tape: q = 4 and u = 45.
fn tape_code() -> Code
    ensures { result ≡ code_of tape_q tape_u }
{
    Code {
        q: TAPE_Q,
        u: TAPE_U,
        n: ROW_LENGTH,
        k: MESSAGE_LENGTH,
        reach: TAPE_REACH,
    }
}

// A message of 20 bytes becomes the 32 bytes of its row.
fn encode_packed(original: &[u8], row: &mut [u8])
    requires { (length original.now ≡ message_bytes) × (length row.old ≡ row_bytes) }
    ensures { row.new ≡ packed_row original.now }
{
    let mut message = [0u8; MESSAGE_LENGTH];
    unpack(original, &mut message);
    let mut symbols = [0u8; ROW_LENGTH];
    let code = tape_code();
    encoder::encode_row(code, &message, &mut symbols);
    pack(&symbols, row);
}

// Lays row r: its 32 bytes from byte 8 + 32r of the block on, and no other.
pub fn lay_row(payload: &[u8], r: usize, block: &mut [u8])
    requires { (message_bytes + message_bytes * r ≤ length payload.now) × (header_bytes + row_bytes + row_bytes * r ≤ length block.old) }
    ensures { block.new
        ≡ paste block.old (header_bytes + row_bytes * r) (packed (code_row payload.now r) row_bytes) row_bytes }
{
    encode_packed(
        &payload[MESSAGE_BYTES * r..MESSAGE_BYTES + MESSAGE_BYTES * r],
        &mut block[HEADER_BYTES + ROW_BYTES * r..FIRST_END + ROW_BYTES * r],
    );
}

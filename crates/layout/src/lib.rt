// The bytes of a block: its header, and where each symbol of its rows stands. Whoever reads or writes a block goes through here.
#![tactic(auto)]

mod header; // header.rt: the 8 bytes before the rows
mod sizes; // sizes.rt: the code of the tape, and how long things are

pub use header::{is_block, put_header, row_count};
pub use sizes::{
    FIRST_END, HEADER_BYTES, MESSAGE_BYTES, MESSAGE_LENGTH, MOST_ROWS, ROW_BYTES, ROW_LENGTH,
    TAPE_AREA, TAPE_Q, TAPE_REACH, TAPE_U,
};

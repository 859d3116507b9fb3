// The code of the tape and the sizes of a block, for the code of every crate. The definitions have the same in layout/specs/Layout; a
// proof fails where the two differ.
pub const TAPE_Q: usize = 4;

pub const TAPE_U: usize = 45;

// u as the header has it.
pub const HEADER_U: u8 = TAPE_U as u8;

pub const ROW_LENGTH: usize = 64;

pub const MESSAGE_LENGTH: usize = 40;

pub const TAPE_REACH: usize = 9;

// The bytes of the work area that reading a row needs.
pub const TAPE_AREA: usize = 4 * (TAPE_Q * TAPE_Q) * (TAPE_Q * TAPE_Q + 2 * TAPE_Q - 1);

// Two symbols are a byte.
pub const ROW_BYTES: usize = ROW_LENGTH / 2;

pub const MESSAGE_BYTES: usize = MESSAGE_LENGTH / 2;

pub const HEADER_BYTES: usize = 8;

// Where the first row ends.
pub const FIRST_END: usize = HEADER_BYTES + ROW_BYTES;

pub const MOST_ROWS: usize = 1024;

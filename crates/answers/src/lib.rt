// What the calls answer and record. A call that refuses answers `Err` with the refusal. Encoding and the stop service answer
// `Ok(())` otherwise, decoding `Ok` of the count of places that differ, writing `Ok` of the block's length in bytes, and verifying
// `Ok` of a verdict. What tells an answer in other words needs these types alone.
#![tactic(auto)]

// The outcome of one row: its state; and the count, 0 when unreadable.
#[derive(Clone, Copy)]
pub struct Record {
    pub state: u8,
    pub count: u8,
}

// What verifying a block finds, where it refuses nothing.
#[derive(Clone, Copy)]
pub enum Verdict {
    // every row is in state 0: the sum of the counts
    Copied(usize),
    // the first row not in state 0, by its state
    Differs(usize),
    Unreadable(usize),
}

// One row of a block is read, and what came of it recorded.
#![tactic(auto)]

mod reading; // reading.rt: the record of a row

pub use answers::Record;
pub use reading::row_record;

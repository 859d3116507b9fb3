// What a step reads in the work area: leading symbols of rows, and from these the numbers of the q pairs.
#![tactic(auto)]

mod pairs;
mod reading;

pub use pairs::pairs_of;
pub use reading::{RowLead, leading_of};

// The lent work area: where its rows stand, and what is done to the bytes of rows.
#![tactic(auto)]

mod area;
mod rows;

pub use area::{Row, area_size, change_row, exchange_row, row_place, width_of};
pub use rows::{Sign, clear};

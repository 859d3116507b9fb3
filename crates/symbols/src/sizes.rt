// The largest q, and the sizes of arrays and tables that follow from it, for the code of every crate. The definitions have the same
// in symbols/specs/Sizes; a proof fails where the two differ.
pub const MOST_Q: usize = 4;

// Symbols, which number the places of a row of products; as a byte for the remainders that find such a place.
pub const MOST_SYMBOLS: usize = MOST_Q * MOST_Q;

pub const SYMBOL_PLACES: u8 = MOST_SYMBOLS as u8;

// A row of products for each symbol.
pub const TABLE_SIZE: usize = MOST_SYMBOLS * MOST_SYMBOLS;

// Points of the curve: the symbols of a row, of which no message has more.
pub const MOST_POINTS: usize = MOST_Q * MOST_SYMBOLS;

// The polynomials of the work area, which each have as many rows.
pub const MOST_POLYNOMIALS: usize = 2 * MOST_Q;

// The bytes of the work area: q²+2q-1 in each row.
pub const MOST_AREA: usize = MOST_POLYNOMIALS * MOST_POLYNOMIALS * (MOST_SYMBOLS + 2 * MOST_Q - 1);

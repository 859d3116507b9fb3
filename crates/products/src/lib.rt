// The products of symbols from the table of q, one by one or as the row of all products of a factor, total on bytes.
#![tactic(auto)]

mod tables;

ghost use Rattle.std.specs.Prelude.{◌≡◌, ◌+◌, ◌*◌, ◌≤◌, length, replicate};
ghost use Rattle.symbols.specs.Sizes.{most_q, most_symbols};
ghost use Rattle.symbols.specs.Rule.{Known, Known-prop, symbols, number, symbol};
ghost use Rattle.symbols.specs.Tables.{product_row, places_on, HasProducts};
ghost use Rattle.lists.specs.Tables.{put};

use symbols::MOST_SYMBOLS;

// A known q and the products of its symbols, which stand in a table. It is passed on by value, a number and where the table stands: so
// the compiler knows q in each loop, which it does not where it reads q behind a reference.
#[derive(Clone, Copy)]
pub struct Products {
    pub q: usize,
    places: &'static [u8],
    pub ghost known: { Known q } by { Known-prop q },
    pub ghost small: { q ≤ most_q },
    ghost complete: { HasProducts q places.now },
}

// The N places of a row from a start on in its table, copied at once, and zeros in the others. They are added to zeros: the compiler
// makes one wide move of such a loop wherever it is used, while it takes a plain copy apart where the row of another q can come in
// its place.
fn part_of<const N: usize>(table: &[u8], start: usize) -> [u8; MOST_SYMBOLS]
    requires { (N ≤ most_symbols) × (start + N ≤ length table.now) }
    ensures { result ≡ put (replicate most_symbols 0) 0 N (places_on table.now start) }
{
    let mut row = [0u8; MOST_SYMBOLS];
    for i in 0..N {
        row[i] = row[i] ^ table[start + i];
    }
    row
}

impl Products {
    // The products of q's symbols.
    pub fn of(q: usize) -> Self
        requires { Known q }
        ensures { result.q ≡ q }
    {
        if q == 4 {
            return Products {
                q,
                places: &tables::TABLE_4,
            };
        }
        Products {
            q,
            places: &tables::TABLE_2,
        }
    }

    // The products of `a` by all symbols, for loops with one factor: place b holds the product by b.
    pub fn row(self, a: u8) -> [u8; MOST_SYMBOLS]
        ensures { result ≡ product_row self.q a }
    {
        let places = self.places;
        if self.q == 4 {
            part_of::<16>(places, (a % 16) as usize * 16)
        } else {
            part_of::<4>(places, (a % 4) as usize * 4)
        }
    }

    // The product of two symbols.
    pub fn product(self, a: u8, b: u8) -> u8
        ensures { result ≡ number self.q ((symbols self.q).◌⊗◌ (symbol self.q a) (symbol self.q b)) }
    {
        let places = self.places;
        if self.q == 4 {
            places[(a % 16) as usize * 16 + (b % 16) as usize]
        } else {
            places[(a % 4) as usize * 4 + (b % 4) as usize]
        }
    }
}

// A text becomes q, u and a row: its numbers are read whatever it looks like, then written out again, and the text is taken
// exactly if it is what was written. So no rule on spaces, digits or line ends stands in the code twice.
#![tactic(auto)]

ghost use Rattle.std.specs.Prelude.{map, ◌≡◌, ◌-◌, ◌≤◌, ◌<◌, length, take, drop};
ghost use Rattle.asking.specs.Request.{ends_number, numbers_from, as_byte, reading, Means};
ghost use Rattle.request.specs.Reader.{saying, count_in, FoundIn};
ghost use Rattle.asking.specs.Request.{grown as grown_by};

use requesttext::is_text_of;

// What a text asks: q, u and how many numbers the row has.
#[derive(Clone, Copy)]
pub struct Asked {
    pub q: usize,
    pub u: usize,
    pub count: usize,
}

// The number that ends first from a place on, and the place after what ends it.
#[derive(Clone, Copy)]
pub struct Found {
    pub value: usize,
    pub next: usize,
}

// A space or a newline ends a number.
fn ends_number(byte: u8) -> bool
    ensures { result ≡ ends_number byte }
{
    matches!(byte, b' ' | b'\n')
}

// What a byte counts for as a digit, whatever it is.
fn digit_of(byte: u8) -> usize
    ensures { result ≡ byte - 48 }
{
    usize::from(byte.saturating_sub(b'0'))
}

// A number of at most three digits with one more digit: of four the first is lost.
fn grown(value: usize, byte: u8) -> usize
    requires { value < 1000 }
    ensures { (result ≡ grown_by value byte) × (result < 1000) }
{
    (value * 10 + digit_of(byte)) % 1000
}

// The number that ends first from a place on.
fn number_at(text: &[u8], from: usize) -> Option<Found>
    ensures { FoundIn text.now from result }
{
    let mut value = 0;
    for at in from..text.len() {
        let byte = text[at];
        if ends_number(byte) {
            return Some(Found {
                value,
                next: at + 1,
            });
        }
        value = grown(value, byte);
    }
    None
}

// The numbers from a place on as a row; answers how many there are.
fn read_row(text: &[u8], from: usize, row: &mut [u8]) -> usize
    requires { length text.now ≤ length row.old }
    ensures upper_bound { result ≤ length row.new }
    ensures row_after { take result row.new ≡ map as_byte (numbers_from 0 (drop from text.now)) }
{
    let mut at = from;
    let mut count = 0;
    while let Some(found) = number_at(text, at) {
        row[count] = (found.value % 256) as u8;
        count += 1;
        at = found.next;
    }
    count
}

// What a text asks, if it is taken; the row's numbers go into the first places of a lent row.
pub fn read_request(text: &[u8], row: &mut [u8]) -> Option<Asked>
    requires { length row.old ≡ 4096 }
    ensures row_after { saying result row.new ≡ reading text.now }
    ensures means { Means text.now (saying result row.new) }
    ensures result_in_bounds { count_in result ≤ length row.new }
{
    if text.len() > 4096 {
        return None;
    }
    let Found { value: q, next } = number_at(text, 0)?;
    let Found { value: u, next } = number_at(text, next)?;
    let count = read_row(text, next, row);
    if count == 0 {
        return None;
    }
    let taken = is_text_of(text, q, u, &row[..count]);
    taken.then_some(Asked { q, u, count })
}

// The line of each row that has something to tell, by its record in two bytes; and a line of a word and a number.
#![tactic(auto)]

ghost use Rattle.std.specs.Prelude.{[], ◌∷◌, ◌++◌, ◌≡◌, ◌+◌, ◌*◌, ◌≤◌, length};
ghost use Rattle.lines.specs.Text.{digits};
ghost use Rattle.lines.specs.Page.{Put};
ghost use Rattle.lists.specs.Tables.{join};
ghost use Rattle.rowlines.specs.RowLines.{tells, row_line, line_at};

use lines::Page;

// A word and a number, which has at most 20 digits.
fn put_piece(page: &mut Page, word: &[u8], n: usize)
    requires { page.old.end + length word.now + 20 ≤ length page.old.out.now }
    ensures wrote { Put page.old (word.now ++ digits n) page.new }
    ensures upper_bound { page.new.end ≤ page.old.end + length word.now + 20 }
{
    page.word(word);
    page.number(n);
}

// A word, a number and the end of the line.
pub fn put_line(page: &mut Page, word: &[u8], n: usize)
    requires { page.old.end + length word.now + 21 ≤ length page.old.out.now }
    ensures wrote { Put page.old (word.now ++ digits n ++ (10 ∷ [])) page.new }
    ensures upper_bound { page.new.end ≤ page.old.end + length word.now + 21 }
{
    put_piece(page, word, n);
    page.byte(b'\n');
}

// Whether a row has something to tell.
fn is_told(state: u8, count: u8) -> bool
    ensures { result ≡ tells state count }
{
    state != 0 || count != 0
}

// The line of a row, nothing if it has nothing to tell.
fn put_row(page: &mut Page, r: usize, state: u8, count: u8)
    requires { page.old.end + 79 ≤ length page.old.out.now }
    ensures { Put page.old (row_line r state count) page.new }
{
    if !is_told(state, count) {
        return;
    }
    put_piece(page, b"row ", r);
    put_piece(page, b" state ", usize::from(state));
    put_piece(page, b" count ", usize::from(count));
    page.byte(b'\n');
}

// The lines of the first rows, whose records have two bytes each.
pub fn put_rows(page: &mut Page, records: &[u8], rows: usize)
    requires { (rows ≤ 1024) × (2 * rows ≤ length records.now) × (page.old.end + 32768 ≤ length page.old.out.now) }
    ensures wrote { Put page.old (join rows (line_at records.now)) page.new }
    ensures upper_bound { page.new.end ≤ page.old.end + 29 * rows }
{
    for r in 0..rows {
        put_row(page, r, records[2 * r], records[2 * r + 1]);
    }
}

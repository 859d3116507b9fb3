// The text that asks for the trace of a row: its two lines written, and whether a text is that one.
#![tactic(auto)]

ghost use Rattle.std.specs.Prelude.{[], ◌∷◌, ◌≡◌, ◌≤◌, ◌<◌, length};
ghost use Rattle.lines.specs.Page.{Put, Room};
ghost use Rattle.asking.specs.Request.{line, request};
ghost use Rattle.lists.specs.Same.{same_list};

use lines::Page;

// The line "q u".
pub fn put_code(page: &mut Page, q: usize, u: usize)
    requires { Room page.old (line (q ∷ u ∷ [])) }
    ensures { Put page.old (line (q ∷ u ∷ [])) page.new }
{
    page.number(q);
    page.byte(b' ');
    page.number(u);
    page.byte(b'\n');
}

// The line of a row that has a number.
fn put_row(page: &mut Page, row: &[u8])
    requires row_nonzero { 0 < length row.now }
    requires row_in_bounds { Room page.old (line row.now) }
    ensures { Put page.old (line row.now) page.new }
{
    page.number(usize::from(row[0]));
    page.spaced(&row[1..]);
    page.byte(b'\n');
}

// Whether a text is the one of q, u and a row. A page has room for the longest: each number takes four bytes at most.
pub fn is_text_of(text: &[u8], q: usize, u: usize, row: &[u8]) -> bool
    requires { (q < 1000) × (u < 1000) × (0 < length row.now) × (length row.now ≤ 4096) }
    ensures { result ≡ same_list text.now (request q u row.now) }
{
    let mut out = [0u8; 16392];
    let mut page = Page::new(&mut out);
    put_code(&mut page, q, u);
    put_row(&mut page, row);
    let end = page.end;
    text == &page.out[..end]
}

// The row that is passed on.
#![tactic(auto)]

ghost use Rattle.std.specs.Prelude.{◌≡◌, cond};
ghost use Rattle.passing.specs.PassOn.{first_row, passed_on};

// The first n symbols of a row, or an empty part of it. Two ifs, since `get(..n)` promises the symbols of the part that it gives but
// not where it starts, and `ref_ptr_value` promises that too.
#[tactic(auto, unfolding(crate::specs::PassOn::first_row))]
fn first_row<'a>(q: usize, row: &'a [u8]) -> &'a [u8]
    ensures result_value { result.now ≡ first_row q row.now }
    ensures ref_ptr_value { result.ref_ptr ≡ row.entry.ref_ptr }
{
    if !symbols::is_known(q) {
        return &row[..0];
    }
    let n = curve::point_count(q);
    if row.len() < n { &row[..0] } else { &row[..n] }
}

// The row that is passed on: a part of one of the two lent rows, that starts where that row starts, and no copy.
#[tactic(auto, unfolding(crate::specs::PassOn::passed_on))]
pub fn pass_on<'a>(q: usize, accepted: bool, received: &'a [u8], corrected: &'a [u8]) -> &'a [u8]
    ensures result_value { result.now ≡ passed_on q accepted received.now corrected.now }
    ensures ref_ptr_value { result.ref_ptr ≡ cond accepted corrected.entry.ref_ptr received.entry.ref_ptr }
{
    if accepted {
        first_row(q, corrected)
    } else {
        first_row(q, received)
    }
}

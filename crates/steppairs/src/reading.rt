// Symbols read in the work area: a coefficient, and the leading one of a row.
ghost use Rattle.std.specs.Prelude.{◌≡◌, ◌+◌, ◌*◌, ◌<◌, ◌≤◌, length};
ghost use Rattle.symbols.specs.Rule.{number};
ghost use Rattle.published.specs.Start.{width};
ghost use Rattle.workarea.specs.Area.{Area, Cells, Starts, Narrow};
ghost use Rattle.steppairs.specs.Reading.{Short, LeadingOf};

// A row's degree and the symbol there; both 0 for a row of zeros.
#[derive(Clone, Copy)]
pub struct RowLead {
    pub degree: usize,
    pub coefficient: u8,
}

// The leading symbol of row r of polynomial p, which has no symbol but zero from `height` on.
#[tactic(auto, using(workarea::proofs::Cells::row_fits, workarea::proofs::Sizes::row_small))]
pub fn leading_below(work: &[u8], q: usize, p: usize, r: usize, height: usize) -> RowLead
    requires area { Area q (length work.now) }
    requires p_bound { (p < 2 * q) × (r < 2 * q) × (height ≤ width q) }
    ensures degree_bound { result.degree < width q }
    ensures leading_of { (S : Cells q) → Starts q work.now S → Short q height (S p r) → LeadingOf q result (S p r) }
{
    let at = workarea::row_place(q, p, r);
    let row = &work[at..at + height];
    let degree = row.iter().rposition(|symbol| *symbol != 0).unwrap_or(0);
    RowLead {
        degree,
        coefficient: work[at + degree],
    }
}

// The leading symbol of any row.
pub fn leading_of(work: &[u8], q: usize, p: usize, r: usize) -> RowLead
    requires area { Area q (length work.now) }
    requires p_bound { (p < 2 * q) × (r < 2 * q) }
    ensures degree_bound { result.degree < width q }
    ensures leading_of { (S : Cells q) → Starts q work.now S → LeadingOf q result (S p r) }
{
    leading_below(work, q, p, r, workarea::width_of(q))
}

// The coefficient of x^i in row r of polynomial p, 0 past the width.
#[tactic(auto, using(workarea::proofs::Cells::row_fits, workarea::proofs::Sizes::row_small))]
pub fn coefficient_at(work: &[u8], q: usize, p: usize, r: usize, i: usize) -> u8
    requires area { Area q (length work.now) }
    requires p_bound { (p < 2 * q) × (r < 2 * q) }
    ensures { (S : Cells q) → Narrow q S → Starts q work.now S → result ≡ number q (S p r i) }
{
    if i < workarea::width_of(q) {
        return work[workarea::row_place(q, p, r) + i];
    }
    0
}

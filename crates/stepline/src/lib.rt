// The line of a step, from the work area after it.
#![tactic(auto)]

ghost use Rattle.std.specs.Prelude.{◌≡◌, ◌+◌, ◌*◌, ◌≤◌, ◌<◌, length, take};
ghost use Rattle.symbols.specs.Sizes.{most_q};
ghost use Rattle.symbols.specs.Rule.{symbols};
ghost use Rattle.published.specs.Start.{Polynomials, start_weight};
ghost use Rattle.workarea.specs.Area.{Area, Starts, cells_of};
ghost use Rattle.lines.specs.Page.{Put};
ghost use Rattle.published.specs.Steps.{State};
ghost use Rattle.stepline.specs.StepLine.{step_size, step_line, degrees as degrees_of, vote_at};
ghost use Rattle.stepline.specs.Shown.{Shown, leader as leader_of};

use lines::Page;
use report::put_step;
use steppairs::leading_of;
use stepvotes::is_voted;
use symbols::MOST_POLYNOMIALS;

// Which polynomial has its leading term in row r: f_r in an upper row, g_(r-q) in a lower one.
fn leader(q: usize, r: usize) -> usize
    requires { (q ≤ most_q) × (r < 2 * q) }
    ensures { (result ≡ leader_of q r) × (result < 2 * q) }
{
    if r < q { q + r } else { r - q }
}

// The leading degrees, those of the f before those of the g, in the first 2q places.
pub fn read_degrees(work: &[u8], q: usize, degrees: &mut [u8])
    requires area { Area q (length work.now) }
    requires q_in_bounds { 2 * q ≤ length degrees.old }
    ensures { (S : Polynomials (symbols q) q) → Starts q work.now (cells_of q S) → take (2 * q) degrees.new ≡ degrees_of q S }
{
    for r in 0..2 * q {
        degrees[r] = leading_of(work, q, leader(q, r), r).degree as u8;
    }
}

// The line of step s.
pub fn put_step_line(page: &mut Page, q: usize, u: usize, s: usize, vote: u8, work: &[u8])
    requires area { Area q (length work.now) }
    requires s_bound { (s ≤ start_weight q) × (page.old.end + step_size q ≤ length page.old.out.now) }
    requires shown { Shown q s vote work.now }
    ensures { (state : State (symbols q) q) → Starts q work.now (cells_of q state.polys) → vote ≡ vote_at q s state
        → Put page.old (step_line q u s state) page.new }
{
    let mut degrees = [0u8; MOST_POLYNOMIALS];
    read_degrees(work, q, &mut degrees);
    let vote = is_voted(q, u, s).then_some(vote);
    put_step(page, s, vote, &degrees[..2 * q]);
}

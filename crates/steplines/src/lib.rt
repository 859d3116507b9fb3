// The lines of a row's steps, made while the steps are taken: one step and its line after the other.
#![tactic(auto)]

ghost use Rattle.std.specs.Prelude.{List, ℕ, ◌+◌, ◌*◌, ◌≤◌, length};
ghost use Rattle.lines.specs.Page.{Put};
ghost use Rattle.symbols.specs.Rule.{Known};
ghost use Rattle.published.specs.Start.{step_count};
ghost use Rattle.published.specs.Picture.{area_size};
ghost use Rattle.workarea.specs.Area.{Starts, cells_of};
ghost use Rattle.steps.specs.Stop.{state_after};
ghost use Rattle.steplines.specs.StepLines.{step_lines};
ghost use Rattle.stepline.specs.StepLine.{step_size};
ghost use Rattle.steplines.specs.Walk.{Started};

use heights::Heights;
use lines::Page;
use products::Products;
use stepline::put_step_line;
use steps::{step_count, take_step};

// The lines of all steps of a row whose start stands in the work area.
pub fn put_steps(page: &mut Page, q: usize, u: usize, work: &mut [u8])
    requires known { Known q × (area_size q ≤ length work.old)
        × (page.old.end + step_count q * step_size q ≤ length page.old.out.now) }
    requires started { Started q u work.old }
    ensures { (row : List ℕ) → Starts q work.old (cells_of q (state_after q u row 0).polys)
        → Put page.old (step_lines q u row (step_count q)) page.new }
{
    let count = step_count(q);
    let products = Products::of(q);
    let mut heights = Heights::at_start(q).each;
    for t in 0..count {
        let vote = take_step(products, u, t, work, &mut heights);
        put_step_line(page, q, u, count - 1 - t, vote, work);
    }
}

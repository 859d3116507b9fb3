// The votes after all steps on a row, with the work area left zero.
#![tactic(auto)]

ghost use Rattle.std.specs.Prelude.{◌≡◌, ◌++◌, ◌≤◌, length, drop};
ghost use Rattle.curve.specs.Codes.{dimension};
ghost use Rattle.published.specs.Picture.{area_size};
ghost use Rattle.voting.specs.Voting.{cleared, voted};
ghost use Rattle.curve.specs.Given.{Received};

use curve::Code;

// Puts the votes after all steps in the first k places of `votes`, and leaves its part of the work area zero.
pub fn vote_all(code: Code, row: &[u8], work: &mut [u8], votes: &mut [u8])
    requires received { Received code.q code.u row.now }
    requires room { (area_size code.q ≤ length work.old) × (dimension code.q code.u ≤ length votes.old) }
    ensures work_left { work.new ≡ cleared (area_size code.q) work.old }
    ensures votes_left { votes.new ≡ voted code.q code.u row.now ++ drop (dimension code.q code.u) votes.old }
{
    let count = steps::step_count(code.q);
    let size = workarea::area_size(code.q);
    steps::advance(code, count, row, work, votes);
    workarea::clear(work, size);
}

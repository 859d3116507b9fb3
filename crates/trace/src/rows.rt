// All lines of a row, or the line of its refusal.
ghost use Rattle.std.specs.Prelude.{◌+◌, ◌≤◌, length};
ghost use Rattle.lines.specs.Page.{Put, Room};
ghost use Rattle.curve.specs.Given.{Received};
ghost use Rattle.published.specs.Picture.{area_size};
ghost use Rattle.workarea.specs.Area.{Starts, cells_of};
ghost use Rattle.steps.specs.Stop.{state_after};
ghost use Rattle.voting.specs.Voting.{voted};
ghost use Rattle.decoder.specs.Decoding.{decoded};
ghost use Rattle.trace.specs.Trace.{last_line, row_lines, answer as answer_lines};
ghost use Rattle.trace.specs.Size.{last_size, trace_size, longest_trace};

use curve::Code;
use decoder::decode_row;
use lines::Page;
use refusals::Refusal;
use report::{put_acceptance, put_refusal};
use requesttext::put_code;
use steplines::put_steps;
use steps::advance;
use symbols::{MOST_AREA, MOST_POINTS};

// The last line, from what decoding answered and the message.
fn put_decoded(page: &mut Page, answered: Result<usize, Refusal>, message: &[u8])
    requires { Room page.old (last_line answered message.now) }
    ensures { Put page.old (last_line answered message.now) page.new }
{
    match answered {
        Ok(count) => put_acceptance(page, count, message),
        Err(why) => put_refusal(page, why),
    }
}

// The last line: what decoding the row answers.
fn put_last(page: &mut Page, code: Code, row: &[u8], work: &mut [u8])
    requires received { Received code.q code.u row.now }
    requires room { (area_size code.q ≤ length work.old) × (page.old.end + last_size code.q ≤ length page.old.out.now) }
    ensures { Put page.old
        (last_line (decoded code.q code.u row.now) (voted code.q code.u row.now)) page.new }
{
    let mut message = [0u8; MOST_POINTS];
    let mut corrected = [0u8; MOST_POINTS];
    let answered = decode_row(code, row, work, &mut message, &mut corrected);
    let k = code.k;
    put_decoded(page, answered, &message[..k]);
}

// All lines of a full row whose start stands in the work area.
fn put_lines(page: &mut Page, code: Code, row: &[u8], work: &mut [u8])
    requires received { Received code.q code.u row.now }
    requires room { (area_size code.q ≤ length work.old) × (page.old.end + trace_size code.q ≤ length page.old.out.now) }
    requires starts { Starts code.q work.old (cells_of code.q (state_after code.q code.u row.now 0).polys) }
    ensures { Put page.old (row_lines code.q code.u row.now) page.new }
{
    put_code(page, code.q, code.u);
    put_steps(page, code.q, code.u, work);
    put_last(page, code, row, work);
}

// The answer under a code: refused with 4 or 5, or all lines, from the start that no step makes.
fn answer_under(page: &mut Page, code: Code, row: &[u8])
    requires { page.old.end + longest_trace ≤ length page.old.out.now }
    ensures { Put page.old (answer_lines code.q code.u row.now) page.new }
{
    if row.len() != code.n {
        return put_refusal(page, Refusal::WrongLength);
    }
    if !symbols::all_symbols(code.q, row) {
        return put_refusal(page, Refusal::NoSymbol);
    }
    let mut work = [0u8; MOST_AREA];
    let mut votes = [0u8; MOST_POINTS];
    advance(code, 0, row, &mut work, &mut votes);
    put_lines(page, code, row, &mut work);
}

// What is printed for q, u and a row.
pub fn answer(page: &mut Page, q: usize, u: usize, row: &[u8])
    requires { page.old.end + longest_trace ≤ length page.old.out.now }
    ensures { Put page.old (answer_lines q u row.now) page.new }
{
    match curve::code_of(q, u) {
        Ok(code) => answer_under(page, code, row),
        Err(why) => put_refusal(page, why),
    }
}

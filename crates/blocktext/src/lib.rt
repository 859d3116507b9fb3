// What blockcheck prints: a line for each row with something to tell, and the verdict.
#![tactic(auto)]

ghost use Rattle.std.specs.Prelude.{◌≡◌, ◌+◌, ◌≤◌, length};
ghost use Rattle.io.specs.Counts.{IsPrefixLen};
ghost use Rattle.lines.specs.Text.{Wrote};
ghost use Rattle.lines.specs.Page.{Put};
ghost use Rattle.blocktext.specs.Report.{verdict_line, rows_told, check_text};

use answers::Verdict;
use layout::{MESSAGE_BYTES, TAPE_AREA};
use lines::Page;
use refusals::Refusal;
use report::put_refusal;
use rowlines::{put_line, put_rows};
use verifying::verify_bytes;

// The last line.
fn put_verdict(page: &mut Page, verdict: Result<Verdict, Refusal>)
    requires { page.old.end + 32 ≤ length page.old.out.now }
    ensures wrote { Put page.old (verdict_line verdict) page.new }
    ensures upper_bound { page.new.end ≤ page.old.end + 32 }
{
    match verdict {
        Ok(Verdict::Copied(total)) => put_line(page, b"copied ", total),
        Ok(Verdict::Differs(r)) => put_line(page, b"differs ", r),
        Ok(Verdict::Unreadable(r)) => put_line(page, b"unreadable ", r),
        Err(why) => put_refusal(page, why),
    }
}

// How many rows there are lines of: the payload has 20 bytes a row where nothing is refused.
fn rows_told(verdict: Result<Verdict, Refusal>, payload: usize) -> usize
    ensures { result ≡ rows_told verdict payload }
{
    verdict.map_or(0, |_| payload / MESSAGE_BYTES)
}

// All lines for a block and its payload; answers how many bytes they have.
pub fn check_text(block: &[u8], payload: &[u8], out: &mut [u8; 32768]) -> usize
    ensures text { Wrote out.old 0 (check_text block.now payload.now) out.new result }
    ensures within { IsPrefixLen result out.new }
{
    let mut records = [0u8; 2048];
    let mut work = [0u8; TAPE_AREA];
    let verdict = verify_bytes(block, payload, &mut records, &mut work);
    let mut page = Page::new(out);
    put_rows(&mut page, &records, rows_told(verdict, payload.len()));
    put_verdict(&mut page, verdict);
    page.end
}

// The line of a verdict alone; answers how many bytes it has.
pub fn verdict_text(verdict: Result<Verdict, Refusal>, out: &mut [u8; 32]) -> usize
    ensures text { Wrote out.old 0 (verdict_line verdict) out.new result }
    ensures within { IsPrefixLen result out.new }
{
    let mut page = Page::new(out);
    put_verdict(&mut page, verdict);
    page.end
}

// What blockwrite prints of what writing answered.
#![tactic(auto)]

ghost use Rattle.io.specs.Counts.{IsPrefixLen};
ghost use Rattle.lines.specs.Text.{Wrote};
ghost use Rattle.writetext.specs.Told.{written_line};

use lines::Page;
use refusals::Refusal;
use report::put_refusal;
use rowlines::put_line;

// The line on what writing answered; answers how many bytes it has.
pub fn written_text(written: Result<usize, Refusal>, out: &mut [u8; 32]) -> usize
    ensures text { Wrote out.old 0 (written_line written) out.new result }
    ensures within { IsPrefixLen result out.new }
{
    let mut page = Page::new(out);
    match written {
        Ok(bytes) => put_line(&mut page, b"wrote ", bytes),
        Err(why) => put_refusal(&mut page, why),
    }
    page.end
}

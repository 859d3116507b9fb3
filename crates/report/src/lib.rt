// The lines that are printed, from what stands in them: a refusal, a step, an acceptance.
#![tactic(auto)]

ghost use Rattle.lines.specs.Page.{Put, Room};
ghost use Rattle.report.specs.Report.{refuse_line, accept_line, vote_text, step_text};

use lines::Page;
use refusals::Refusal;

// "refuse" and its number.
pub fn put_refusal(page: &mut Page, why: Refusal)
    requires { Room page.old (refuse_line why) }
    ensures { Put page.old (refuse_line why) page.new }
{
    page.word(b"refuse ");
    page.number(usize::from(u8::from(why)));
    page.byte(b'\n');
}

// "accept", the count and the message.
pub fn put_acceptance(page: &mut Page, count: usize, message: &[u8])
    requires { Room page.old (accept_line count message.now) }
    ensures { Put page.old (accept_line count message.now) page.new }
{
    page.word(b"accept ");
    page.number(count);
    page.word(b" :");
    page.spaced(message);
    page.byte(b'\n');
}

// The vote of a step, - if none.
fn put_vote(page: &mut Page, vote: Option<u8>)
    requires { Room page.old (vote_text vote) }
    ensures { Put page.old (vote_text vote) page.new }
{
    match vote {
        Some(vote) => page.spaced(&[vote]),
        None => page.word(b" -"),
    }
}

// The line of a step: its weight, its vote, the leading degrees.
pub fn put_step(page: &mut Page, s: usize, vote: Option<u8>, degrees: &[u8])
    requires { Room page.old (step_text s vote degrees.now) }
    ensures { Put page.old (step_text s vote degrees.now) page.new }
{
    page.number(s);
    put_vote(page, vote);
    page.spaced(degrees);
    page.byte(b'\n');
}

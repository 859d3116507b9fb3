// rowtrace's text read and its lines made.
#![tactic(auto)]

use files::read_full;
use lines::Page;
use refusals::Refusal;
use report::put_refusal;
use request::{Asked, read_request};
use std::io;
use std::io::{Read, Write};

mod rows;

ghost use Rattle.std.specs.Prelude.{IfSome, OnOk, take};
ghost use Rattle.std.specs.Io.KnownBytes.{Appends};
ghost use Rattle.io.specs.Counts.{IsPrefixLen};
ghost use Rattle.lines.specs.Text.{Wrote};
ghost use Rattle.request.specs.Request.{Means, reading};
ghost use Rattle.trace.specs.Trace.{trace_text};

// The bytes that the longest trace may take: `longest_trace` of the definitions.
pub const TRACE_SIZE: usize = 2489;

// What rowtrace prints for a text, in the first places of a lent buffer; answers how many bytes it is.
pub fn trace(text: &[u8], out: &mut [u8; TRACE_SIZE]) -> usize
    ensures wrote { Wrote out.old 0 (trace_text text.now) out.new result }
    ensures prefix_len { IsPrefixLen result out.new }
    ensures means { Means text.now (reading text.now) }
{
    let mut row = [0u8; 4096];
    let mut page = Page::new(out);
    match read_request(text, &mut row) {
        Some(Asked { q, u, count }) => rows::answer(&mut page, q, u, &row[..count]),
        None => put_refusal(&mut page, Refusal::WrongLength),
    }
    page.end
}

// Reads a text and prints its trace. One byte more than a text may have is read, so that a longer text is refused and not cut.
pub fn print_trace<R: Read, W: Write>(from: &mut R, to: &mut W) -> io::Result<()>
    ensures { OnOk result (IfSome (R.remaining from.old) (λ text.
        Appends (W.contents to.old) (W.contents to.new) (trace_text (take 4097 text)))) }
{
    // arrays, each with how much of it is used: nothing here allocates
    let mut text = [0u8; 4097];
    let length = read_full(from, &mut text)?;
    let mut out = [0u8; TRACE_SIZE];
    let printed = trace(&text[..length], &mut out);
    to.write_all(&out[..printed])
}

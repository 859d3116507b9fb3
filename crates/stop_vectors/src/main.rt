// Runs the stop service on the cases of standard input and tells of each the answer, the output and the work area, every place
// of both: a digit for a symbol, a dot where nothing was written. A case is a line: q, u, the number of steps, the lengths of
// the work area and of the output, and the row. Among them are the bounds of document 01's hand-worked table: 76 and 77
// steps, 1,472 and 1,471 places of work. The files stdin and stdout were made outside: they are what tests/reference prints for
// `cargo run --example stop_vectors -- cases` and `-- answers`.
#![tactic(auto)]

ghost use Rattle.std.specs.Prelude.{◌<◌, length};

use files::read_full;
use refusals::Refusal;
use std::io;
use textlines::each_line;
use vectors::{UNTOUCHED, read_number, read_symbols, spell_symbols};

// Where the row starts in a case, after numbers of fixed widths.
const ROW_START: usize = 16;

// The answer as a word, with a number for a refusal.
fn tell(rt: &impl Print, answer: Result<(), Refusal>) -> io::Result<()> {
    match answer {
        Ok(()) => print!(rt; "done "),
        Err(why) => print!(rt; "refuse {why} "),
    }
}

// Stops after some steps, and tells what came of it.
fn run_case(
    rt: &impl Print,
    q: usize,
    u: usize,
    count: usize,
    row: &[u8],
    work: &mut [u8],
    output: &mut [u8],
) -> io::Result<()> {
    tell(rt, steps::stop(q, u, count, row, work, output))?;
    spell_symbols(output);
    rt.write_all(output)?;
    rt.write_all(b" ")?;
    spell_symbols(work);
    rt.write_all(work)?;
    rt.write_all(b"\n")
}

// Runs a case with areas of these lengths. A case with longer areas than there are is left out.
fn run_lent(
    rt: &impl Print,
    q: usize,
    u: usize,
    count: usize,
    work_length: usize,
    output_length: usize,
    line: &mut [u8],
) -> io::Result<()>
    requires { 16 < length line.old }
{
    if 1480 < work_length {
        return Ok(());
    }
    if 64 < output_length {
        return Ok(());
    }
    rt.write_all(&line[0..ROW_START])?;
    let end = line.len() - 1;
    read_symbols(&mut line[ROW_START..end]);
    let mut work = [UNTOUCHED; 1480];
    let mut output = [UNTOUCHED; 64];
    run_case(
        rt,
        q,
        u,
        count,
        &line[ROW_START..end],
        &mut work[..work_length],
        &mut output[..output_length],
    )
}

// Repeats the numbers of a case and runs it.
fn run_line(rt: &impl Print, line: &mut [u8]) -> io::Result<()> {
    if line.len() <= ROW_START {
        return Ok(());
    }
    let q = read_number(&line[0..1]);
    let u = read_number(&line[2..4]);
    let count = read_number(&line[5..7]);
    let work_length = read_number(&line[8..12]);
    let output_length = read_number(&line[13..15]);
    run_lent(rt, q, u, count, work_length, output_length, line)
}

// All cases, one to a line.
fn main(rt: HostRuntime) -> io::Result<()> {
    // an array, with how much of it was read: nothing here allocates
    let mut text = [0u8; 65536];
    let got = read_full(&mut rt.stdin(), &mut text)?;
    each_line(&mut text[..got], |line| run_line(&rt, line))
}

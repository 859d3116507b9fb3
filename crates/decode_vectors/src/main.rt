// Decodes the rows on standard input, one to a line, and tells of each the answer, the two outputs (a dot where nothing was
// written) and how many places of the work area are zero from its start on; then document 01's entries for a work area of 1,472
// and one of 1,471. The files stdin and stdout were made outside: they are what tests/reference prints for
// `cargo run --example decode_vectors -- rows` and `-- answers`.
#![tactic(auto)]

use files::read_full;
use refusals::Refusal;
use std::io;
use textlines::each_line;
use vectors::{UNTOUCHED, read_number, read_symbols, spell_symbols, zeros_first};

// The answer as a word and a number.
fn tell(rt: &impl Print, answer: Result<usize, Refusal>) -> io::Result<()> {
    match answer {
        Ok(count) => print!(rt; " accept {count}"),
        Err(why) => print!(rt; " refuse {why}"),
    }
}

// A space and an area, a digit for a symbol and a dot where nothing was written.
fn show(rt: &impl Print, area: &mut [u8]) -> io::Result<()> {
    spell_symbols(area);
    rt.write_all(b" ")?;
    rt.write_all(area)
}

// Decodes a row with the lent work area, and tells what came of it.
fn decode_row(rt: &impl Print, q: usize, u: usize, row: &[u8], work: &mut [u8]) -> io::Result<()> {
    let mut message = [UNTOUCHED; 64];
    let mut corrected = [UNTOUCHED; 64];
    tell(
        rt,
        decoder::decode(q, u, row, work, &mut message, &mut corrected),
    )?;
    show(rt, &mut message)?;
    show(rt, &mut corrected)?;
    println!(rt; " {}", zeros_first(work))
}

// A line: q in one digit, u in two, and the row.
fn decode_line(rt: &impl Print, line: &mut [u8]) -> io::Result<()> {
    if line.len() < 6 {
        return Ok(());
    }
    let end = line.len() - 1;
    let q = read_number(&line[0..1]);
    let u = read_number(&line[2..4]);
    rt.write_all(&line[0..4])?;
    read_symbols(&mut line[5..end]);
    let mut work = [UNTOUCHED; 1480];
    decode_row(rt, q, u, &line[5..end], &mut work)
}

// The zero row with a work area of this size.
fn try_work(rt: &impl Print, size: usize) -> io::Result<()> {
    let mut work = [UNTOUCHED; 1480];
    if 1480 < size {
        return Ok(());
    }
    print!(rt; "work {size}")?;
    decode_row(rt, 4, 45, &[0u8; 64], &mut work[..size])
}

fn main(rt: HostRuntime) -> io::Result<()> {
    // an array, with how much of it was read: nothing here allocates
    let mut text = [0u8; 65536];
    let got = read_full(&mut rt.stdin(), &mut text)?;
    each_line(&mut text[..got], |line| decode_line(&rt, line))?;
    try_work(&rt, 1472)?;
    try_work(&rt, 1471)
}

// Runs encoding for q = 4 on the bounds of u that document 01's hand-worked table has (its last entry), and on three messages of
// the tape code. The file stdout holds what must come out. Its rows were made outside: the messages are the first three that
// samples::Random::seeded(45) of tests/reference draws, and the rows are what curve::Code::encode there makes of them.
#![tactic(auto)]

use refusals::Refusal;
use std::io;

// The answer as a word, with a number for a refusal: as a byte, since its own `Display` takes a third more of the stack here.
fn tell(rt: &impl Print, answer: Result<(), Refusal>) -> io::Result<()> {
    match answer {
        Ok(()) => println!(rt; " done"),
        Err(why) => println!(rt; " refuse {}", u8::from(why)),
    }
}

// Whether q = 4 and u are a code, told by encoding k zeros.
fn try_code(rt: &impl Print, u: usize, k: usize) -> io::Result<()> {
    let zeros = [0u8; 64];
    let mut row = [0u8; 64];
    print!(rt; "u {u}")?;
    if k <= 64 {
        tell(rt, encoder::encode(4, u, &zeros[..k], &mut row))?;
    }
    Ok(())
}

// Each symbol with a space before it.
fn print_symbols(rt: &impl Print, row: &[u8]) -> io::Result<()> {
    for symbol in row {
        print!(rt; " {symbol}")?;
    }
    Ok(())
}

// The row of a message of the tape code, in one line.
fn print_row(rt: &impl Print, message: &[u8]) -> io::Result<()> {
    let mut row = [0u8; 64];
    let answer = encoder::encode(4, 45, message, &mut row);
    print!(rt; "row")?;
    print_symbols(rt, &row)?;
    tell(rt, answer)
}

fn main(rt: HostRuntime) -> io::Result<()> {
    try_code(&rt, 4, 2)?;
    try_code(&rt, 63, 58)?;
    try_code(&rt, 0, 0)?;
    try_code(&rt, 3, 0)?;
    try_code(&rt, 11, 0)?;
    try_code(&rt, 64, 0)?;
    print_row(
        &rt,
        b"\x01\x0f\x0e\x0e\x0f\x0f\x00\x01\x05\x06\x0a\x02\x04\x0c\x09\x07\x0c\x02\x06\x06\x0c\x03\x0a\x0d\x08\x01\x05\x05\x0d\x0b\x01\x07\x0c\x06\x09\x0d\x0a\x0d\x0f\x01",
    )?;
    print_row(
        &rt,
        b"\x06\x05\x09\x02\x09\x04\x0b\x05\x01\x06\x02\x07\x09\x0f\x03\x00\x0a\x00\x06\x08\x01\x05\x07\x08\x00\x0e\x0a\x06\x0f\x04\x01\x09\x0b\x0e\x06\x02\x0b\x06\x01\x00",
    )?;
    print_row(
        &rt,
        b"\x0c\x09\x02\x05\x06\x09\x04\x0d\x02\x00\x07\x0b\x0f\x0e\x0e\x0c\x06\x09\x0d\x05\x0d\x08\x0a\x0f\x0a\x0f\x0d\x04\x05\x00\x0f\x0b\x08\x08\x0a\x0a\x04\x0f\x05\x07",
    )
}

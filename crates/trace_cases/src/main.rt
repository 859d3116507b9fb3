// Prints the trace of each text that an argument names, with its name before it, by the function that rowtrace calls. What
// must come out is what the reference prints for the same texts.
#![tactic(auto)]

use std::fs::File;
use std::rt::{Env, Files};
use std::{io, str};

// One text: the file that argument i names.
fn print_case<R: Env + Files + Print + Eprint>(rt: &R, i: usize) -> io::Result<()> {
    let mut name = [0u8; 64];
    let length = rt.arg(i, &mut name).unwrap_or(0);
    let name = str::from_utf8(&name[..length]).unwrap_or("");
    let mut file = match File::open(rt, name) {
        Ok(file) => file,
        Err(why) => return eprintln!(rt; "{name}: {why}"),
    };
    println!(rt; "{name}")?;
    trace::print_trace(&mut file, &mut io::writer(rt))
}

fn main(rt: HostRuntime) -> io::Result<()> {
    for i in 1..files::word_count(&rt) {
        print_case(&rt, i)?;
    }
    Ok(())
}

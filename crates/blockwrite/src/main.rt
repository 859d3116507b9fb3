// blockwrite PAYLOAD BLOCK: writes the block of the payload in one file to the other file. It prints `wrote` and the block's
// length, or `refuse` and a number; a file that cannot be opened, read or written or is too long gets a line of its own and
// nothing else. The block's file changes only once the whole block has been written beside it.
#![tactic(auto)]

use refusals::Refusal;
use std::io;

// Prints what writing answered.
fn report(rt: &impl Print, written: Result<usize, Refusal>) -> io::Result<()> {
    let mut line = [0u8; 32];
    let end = writetext::written_text(written, &mut line);
    rt.write_all(&line[..end])
}

fn main(rt: HostRuntime) -> io::Result<()> {
    if files::word_count(&rt) != 3 {
        return println!(rt; "usage: blockwrite PAYLOAD BLOCK");
    }
    // Arrays of the largest sizes, each with how much of it is used: nothing here allocates.
    let mut payload = [0u8; 20481];
    let Some(end) = files::load(&rt, 1, &mut payload) else {
        return Ok(());
    };
    let mut area = [0u8; 32776];
    let written = block::write(&payload[..end], &mut area);
    if let Ok(length) = written {
        if !files::save(&rt, 2, &area[..length]) {
            return Ok(());
        }
    }
    report(&rt, written)
}

// blockcheck BLOCK PAYLOAD: verifies the block in one file against the payload in the other. It prints one line for each row
// that is not in state 0 or has a count above 0, and one last line with the verdict; a file that cannot be opened or read or is
// too long gets a line of its own and nothing else.
#![tactic(auto)]

use std::io;

// Verifies and prints the lines.
fn report(rt: &impl Print, block: &[u8], payload: &[u8]) -> io::Result<()> {
    let mut out = [0u8; 32768];
    let end = blocktext::check_text(block, payload, &mut out);
    rt.write_all(&out[..end])
}

fn main(rt: HostRuntime) -> io::Result<()> {
    if files::word_count(&rt) != 3 {
        return println!(rt; "usage: blockcheck BLOCK PAYLOAD");
    }
    // Arrays of the largest sizes, each with how much of it was read: nothing here allocates.
    let mut block = [0u8; 32777];
    let Some(block_end) = files::load(&rt, 1, &mut block) else {
        return Ok(());
    };
    let mut payload = [0u8; 20481];
    let Some(payload_end) = files::load(&rt, 2, &mut payload) else {
        return Ok(());
    };
    report(&rt, &block[..block_end], &payload[..payload_end])
}

// The lines of a text that was read.
#![tactic(auto)]

ghost use Rattle.std.specs.Fn.{CalledAtMut};
ghost use Rattle.std.specs.Prelude.{◌≡◌, ◌+◌, ◌<◌, ◌≤◌, length, drop};
ghost use Rattle.textlines.specs.Lines.{first_line, CallsEachLine};

use std::io;

// Where the line that starts at a place ends: past its newline, or at the end of the text. For who may only read the text.
pub fn line_end(text: &[u8], start: usize) -> usize
    requires { start < length text.now }
    ensures line { result ≡ start + length (first_line (drop start text.now)) }
    ensures within { (start < result) × (result ≤ length text.now) }
{
    for i in start..text.len() {
        if text[i] == b'\n' {
            return i + 1;
        }
    }
    text.len()
}

// Calls with each line of a text, newline and all, in turn, as long as no call fails.
pub fn each_line<F: FnMut(&mut [u8]) -> io::Result<()>>(text: &mut [u8], f: F) -> io::Result<()>
    requires { F.IsAlwaysCallable f }
    ensures { CallsEachLine (λ g line r h. (left : _) × CalledAtMut F.FnMut g line r h left) f text.old result }
{
    text.split_inclusive_mut(|&byte| byte == b'\n')
        .try_for_each(f)
}

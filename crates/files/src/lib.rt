// Files by name, for the programs: one is read whole, and one is written whole or not at all. What is wrong with a file is told
// in a line on standard output.
#![tactic(auto)]

ghost use Rattle.std.specs.Prelude.{◌≡◌, ◌<◌, IfOk, IfSome, length, take};
ghost use Rattle.std.specs.Io.KnownBytes.{Consumes};
ghost use Rattle.io.specs.Counts.{IsPrefixLen};

use lines::Page;
use std::env::FillError;
use std::fs::{File, OpenFile, OpenOptions};
use std::io::{Read, Write};
use std::random::RandomSource;
use std::rt::{Env, Files};
use std::{fs, io, str};

// The longest name that the system takes has one byte less.
const NAME_SIZE: usize = 4096;

// How many words the program was started with, its own name among them.
pub fn word_count(rt: &impl Env) -> usize {
    (0..usize::MAX)
        .find(|&i| matches!(rt.arg(i, &mut []), Err(FillError::NotPresent)))
        .unwrap_or(usize::MAX)
}

// Puts an argument at the start of an area and answers it there: none where there is none or it is longer than a name may be.
fn argument<'a>(rt: &impl Env, i: usize, area: &'a mut [u8; NAME_SIZE]) -> Option<&'a [u8]>
    ensures { IfSome result (λ name. IsPrefixLen (length name.now) area.old) }
{
    let length = rt.arg(i, area).ok()?;
    Some(&area[..length])
}

// What is wrong with a file, and its name. There is no other place to tell that this could not be told.
fn tell(rt: &impl Print, what: &[u8], name: &[u8]) {
    let _ = rt.write_all(what);
    let _ = rt.write_all(name);
    let _ = rt.write_all(b"\n");
}

// Reads until the buffer is full or the input ends, and answers how many bytes stand at its start.
pub fn read_full<R: Read>(from: &mut R, buffer: &mut [u8]) -> io::Result<usize>
    ensures within { IfOk result (λ n. IsPrefixLen n buffer.new) }
    ensures bytes { IfOk result (λ n. Consumes (R.remaining from.old) (R.remaining from.new) (take n buffer.new)) }
    ensures start { IfOk result (λ n. IfSome (R.remaining from.old)
        (λ text. take n buffer.new ≡ take (length buffer.new) text)) }
{
    let mut done = 0;
    // No `for`, since a read advances the count by as many bytes as it gave.
    while done < buffer.len() {
        let n = from.read(&mut buffer[done..])?;
        if n == 0 {
            break;
        }
        done += n;
    }
    Ok(done)
}

// Opens the file of a name for reading. A name that is no text names no file that std can open.
fn open<R: Files>(rt: &R, name: &[u8]) -> Option<R::File> {
    let name = str::from_utf8(name).ok()?;
    File::open(rt, name).ok()
}

// Reads the file that an argument names and answers how many bytes it has. A buffer has one place more than the longest file,
// so a full one is no file to go on with. Where there is none, what is wrong was told.
pub fn load<R: Env + Files + Print>(rt: &R, i: usize, buffer: &mut [u8]) -> Option<usize>
    ensures { IfSome result (λ n. n < length buffer.new) }
{
    let mut area = [0u8; NAME_SIZE];
    let name = argument(rt, i, &mut area).unwrap_or(b"");
    let Some(mut file) = open(rt, name) else {
        tell(rt, b"cannot open ", name);
        return None;
    };
    match read_full(&mut file, buffer) {
        Ok(got) if got < buffer.len() => return Some(got),
        Ok(_) => tell(rt, b"too long ", name),
        Err(_) => tell(rt, b"cannot read ", name),
    }
    None
}

// Eight letters that two runs do not share.
fn letters(rt: &impl RandomSource) -> [u8; 8] {
    let mut letters = [0u8; 8];
    let _ = rt.fill_bytes(&mut letters);
    for letter in letters.iter_mut() {
        *letter = b'a' + *letter % 16;
    }
    letters
}

// A name in the same folder for a file that is not whole yet, put at the start of an area; none where it would be too long.
fn name_beside<'a>(name: &[u8], letters: [u8; 8], area: &'a mut [u8; NAME_SIZE]) -> Option<&'a [u8]>
    ensures { IfSome result (λ beside. IsPrefixLen (length beside.now) area.old) }
{
    if 4000 < name.len() {
        return None;
    }
    let mut page = Page::new(area);
    page.word(name);
    page.word(b".part-");
    page.word(&letters);
    let end = page.end;
    Some(&area[..end])
}

// Writes all bytes to a new file and waits until they have reached their device.
fn put_all<F: Write + OpenFile + Drop>(mut file: F, bytes: &[u8]) -> io::Result<()> {
    file.write_all(bytes)?;
    file.sync_all()
}

// Writes the bytes beside the file of a name and renames what was written; where that fails nothing is left beside it.
fn replace<R: Files>(rt: &R, name: &str, beside: &str, bytes: &[u8]) -> io::Result<()> {
    let file = OpenOptions::new()
        .write(true)
        .create_new(true)
        .open(rt, beside)?;
    let replaced = put_all(file, bytes).and_then(|_| fs::rename(rt, beside, name));
    if replaced.is_err() {
        let _ = fs::remove_file(rt, beside);
    }
    replaced
}

// Makes the file of a name hold these bytes, if it can. A name that is no text names no file that std can open.
fn save_as<R: Files + RandomSource>(rt: &R, name: &[u8], bytes: &[u8]) -> Option<()> {
    let mut area = [0u8; NAME_SIZE];
    let beside = name_beside(name, letters(rt), &mut area)?;
    let name = str::from_utf8(name).ok()?;
    let beside = str::from_utf8(beside).ok()?;
    replace(rt, name, beside, bytes).ok()
}

// Makes the file that an argument names hold these bytes. They are written beside it and the file is renamed, so that no part of
// them ever stands under its name; where that fails, what stood there stays, and what is wrong was told.
pub fn save<R: Env + Files + Print + RandomSource>(rt: &R, i: usize, bytes: &[u8]) -> bool {
    let mut area = [0u8; NAME_SIZE];
    let name = argument(rt, i, &mut area).unwrap_or(b"");
    let saved = save_as(rt, name, bytes).is_some();
    if !saved {
        tell(rt, b"cannot write ", name);
    }
    saved
}

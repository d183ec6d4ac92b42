// The stored sheets, by the names in the arguments, and their stored pages.
ghost use Rattle.std.specs.Prelude.{◌≤◌, length};
ghost use Rattle.page_tests.specs.Counts.{IsPrefixLen};

use std::env::FillError;
use std::fs::File;
use std::io::{self, Cursor, ErrorKind, Read, Write};
use std::rt::{Env, Files};
use std::str;

// The name of a file: the stored name and what kind of file it is. A name of more than 32 bytes is none of ours.
fn path_of(name: &[u8], ending: &[u8], path: &mut [u8]) -> usize
    requires { 64 ≤ length path.old }
    ensures { result ≤ length path.new }
{
    if 32 < name.len() {
        return 0;
    }
    if 32 < ending.len() {
        return 0;
    }
    let end = text::put_bytes(path, 0, name);
    text::put_bytes(path, end, ending)
}

// The bytes of a stored file, as many as the buffer has room for. One that can not be opened is told to the errors, and has none.
pub fn read_stored<R: Files, E: Write>(
    files: &R,
    errors: &mut E,
    name: &[u8],
    ending: &[u8],
    buffer: &mut [u8],
) -> usize
    ensures { IsPrefixLen result buffer.new }
{
    let mut path = [0u8; 64];
    let length = path_of(name, ending, &mut path);
    match open(files, &path[..length]) {
        Ok(mut file) => read_full(&mut file, buffer),
        Err(error) => {
            tell(errors, name, &error);
            0
        }
    }
}

// Opens a file to read it. A path is UTF-8 text; any other is no file's.
fn open<R: Files>(files: &R, path: &[u8]) -> io::Result<R::File> {
    let Ok(path) = str::from_utf8(path) else {
        return Err(io::Error::from(ErrorKind::InvalidInput));
    };
    File::open(files, path)
}

// A line to the errors: what failed, a colon and why, as the system says it. Of an error of the system std writes its number too, which is left out.
fn tell<E: Write>(errors: &mut E, what: &[u8], error: &io::Error) {
    let mut text = [0u8; 128];
    let mut cursor = Cursor::new(&mut text[..]);
    let _ = write!(cursor, "{error}");
    let length = cursor.position() as usize;
    let said = str::from_utf8(text.get(..length).unwrap_or(b"")).unwrap_or("");
    let cause = match said.split_once(" (os error ") {
        Some((before, _)) => before,
        None => said,
    };
    let _ = errors.write_all(what);
    let _ = errors.write_all(b": ");
    let _ = errors.write_all(cause.as_bytes());
    let _ = errors.write_all(b"\n");
}

// Reads until the buffer is full, the file ends or a read fails, and answers how many bytes lie at the front of the buffer.
fn read_full<F: Read>(file: &mut F, buffer: &mut [u8]) -> usize
    ensures { IsPrefixLen result buffer.new }
{
    let mut done = 0;
    // A while: each turn reads as many bytes as the file gives.
    while done < buffer.len() {
        let more = file.read(&mut buffer[done..]).unwrap_or(0);
        if more == 0 {
            break;
        }
        done += more;
    }
    done
}

// Where two texts first differ; the length of the shorter if that is nowhere before its end.
fn first_difference(page: &[u8], stored: &[u8]) -> usize {
    page.iter()
        .zip(stored)
        .position(|(ours, theirs)| ours != theirs)
        .unwrap_or(page.len().min(stored.len()))
}

// Prints ok, or where the page differs from the stored one.
fn print_difference<O: Write>(output: &mut O, page: &[u8], stored: &[u8]) {
    if page == stored {
        let _ = output.write_all(b" ok\n");
        return;
    }
    let first = first_difference(page, stored);
    let _ = output.write_all(b" differs from byte ");
    let _ = write!(output, "{first}");
    let _ = output.write_all(b" on\n");
}

// One stored sheet.
fn check_one<R: Files, O: Write, E: Write>(files: &R, output: &mut O, errors: &mut E, name: &[u8]) {
    let _ = output.write_all(name);
    let mut sheet = [0u8; page::INPUT];
    let bytes = read_stored(files, errors, name, b".sheet", &mut sheet);
    let mut stored = [0u8; page::PAGE + 1];
    let length = read_stored(files, errors, name, b".page", &mut stored);
    let mut text = [0u8; page::PAGE];
    match page::write_page(&sheet[..bytes], &mut text) {
        Ok(end) => print_difference(output, &text[..end], &stored[..length]),
        Err(_) => print_difference(output, b"", &stored[..length]),
    }
}

// How many arguments there are, the program's own name among them: the list ends at the first that is not there.
pub fn argument_count<E: Env>(env: &E) -> usize {
    for i in 0..usize::MAX {
        if let Err(FillError::NotPresent) = env.arg(i, &mut []) {
            return i;
        }
    }
    usize::MAX
}

// The name that an argument gives, at the front of the buffer, and how long it is. One that is too long is none of ours, and is read as no name.
pub fn name_of<E: Env>(env: &E, argument: usize, name: &mut [u8; 32]) -> usize
    ensures { IsPrefixLen result name.new }
{
    env.arg(argument, name).unwrap_or(0)
}

// Each stored sheet that the arguments name.
pub fn check_all<R: Env + Files, O: Write, E: Write>(rt: &R, output: &mut O, errors: &mut E) {
    for i in 1..argument_count(rt) {
        check_argument(rt, output, errors, i);
    }
}

fn check_argument<R: Env + Files, O: Write, E: Write>(
    rt: &R,
    output: &mut O,
    errors: &mut E,
    argument: usize,
) {
    let mut name = [0u8; 32];
    let length = name_of(rt, argument, &mut name);
    check_one(rt, output, errors, &name[..length]);
}

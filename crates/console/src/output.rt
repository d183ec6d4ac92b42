// Texts to standard output and standard error.
ghost use Rattle.std.specs.Bool.{OnTrue};
ghost use Rattle.std.specs.Io.KnownBytes.{Appends, Keeps};

use sentences::put_sentence;
use std::io::Write;

// Writes a text to an output, and answers whether all of it was written. Where it was not, the program's errors say so in its name.
pub fn print<O: Write, E: Write>(
    output: &mut O,
    errors: &mut E,
    program: &[u8],
    text: &[u8],
) -> bool
    ensures written { OnTrue result (Appends (O.contents output.old) (O.contents output.new) text.now) }
    ensures silent { OnTrue result (Keeps (E.contents errors.old) (E.contents errors.new)) }
{
    if output.write_all(text).is_ok() {
        return true;
    }
    say(errors, program, b": can not write standard output\n");
    false
}

// Says to the program's errors, in its name, that a read failed.
pub fn unread<E: Write>(errors: &mut E, program: &[u8]) {
    say(errors, program, b": can not read standard input\n");
}

// Says something of a program in its name. Where that can not be written, nobody is left to be told.
fn say<E: Write>(errors: &mut E, program: &[u8], text: &[u8]) {
    let _ = errors.write_all(program);
    let _ = errors.write_all(text);
}

// Writes the sentence of a refusal to the program's errors.
pub fn explain<E: Write>(errors: &mut E, number: usize, place: usize) {
    let mut text = [0u8; 80];
    let end = put_sentence(&mut text, 0, number, place);
    let _ = errors.write_all(&text[..end]);
}

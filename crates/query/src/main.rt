// query VERB NUMBERS..: the call that its words ask for, of the sheet on standard input. crates/queries says which calls there are, and what they answer.
#![tactic(auto)]

ghost use Rattle.std.specs.Prelude.{IfSome, take};
ghost use Rattle.std.specs.Bool.{OnTrue};
ghost use Rattle.std.specs.Io.KnownBytes.{Appends};
ghost use Rattle.model.specs.Limits.{most_input};
ghost use Rattle.queries.specs.Query.{query_of};

use replies::Outcome;
use std::io::{Read, Write};

// What is said of words that are no call.
fn usage<E: Write>(errors: &mut E) {
    let _ = errors.write_all(
        b"usage: query settle | row K | compare I J | form I | walk I J LIMIT ALLOWANCE [DESK] | number I | field SIZE NUMBER | squads WHOLE SQUAD | finer I J | finer-form I | common FIELD SIZE < SHEET (numbers in decimal; ALLOWANCE of 32 bits, the others of 64)\n",
    );
}

// The call that the words ask for, of a sheet: its text to the output; the sentence of a refusal, or the usage, to the errors. Answers whether the text was printed.
fn answer<O: Write, E: Write>(output: &mut O, errors: &mut E, sheet: &[u8], words: &[u8]) -> bool
    ensures { OnTrue result (Appends (O.contents output.old) (O.contents output.new) (query_of sheet.now words.now).text) }
{
    let mut text = [0u8; queries::TEXT];
    let reply = queries::answer(sheet, words, &mut text);
    let length = reply.length;
    let printed = console::print(output, errors, b"query", &text[..length]);
    let outcome = reply.outcome;
    match outcome {
        Outcome::Answered => {}
        Outcome::Refused { number, place } => {
            if printed {
                console::explain(errors, number, place);
            }
        }
        Outcome::NoCall => usage(errors),
    }
    printed
}

// Reads the sheet that an input has, and makes the call that the words ask for. Answers whether its text was printed: to an output whose bytes are known it adds that text, and nothing else.
fn query<I: Read, O: Write, E: Write>(
    input: &mut I,
    output: &mut O,
    errors: &mut E,
    words: &[u8],
) -> bool
    ensures { OnTrue result (IfSome (I.remaining input.old) (λ s. Appends (O.contents output.old) (O.contents output.new) (query_of (take most_input s) words.now).text)) }
{
    let mut sheet = [0u8; console::INPUT];
    let Ok(bytes) = console::read_sheet(input, &mut sheet) else {
        console::unread(errors, b"query");
        return false;
    };
    answer(output, errors, &sheet[..bytes], words)
}

// The words past the program's name, with a 0 after each, take up at most so many bytes.
const WORDS: usize = 65536;

fn main(rt: HostRuntime) {
    let mut words = [0u8; WORDS];
    let Some(length) = console::arguments(&rt, &mut words, 0) else {
        usage(&mut rt.stderr());
        return;
    };
    query(
        &mut rt.stdin(),
        &mut rt.stdout(),
        &mut rt.stderr(),
        &words[..length],
    );
}

// filing: prints the page of the sheet on standard input, and says to standard error why a sheet is refused.
#![tactic(auto)]

ghost use Rattle.std.specs.Prelude.{IfSome};
ghost use Rattle.std.specs.Bool.{OnTrue};
ghost use Rattle.std.specs.Io.KnownBytes.{Appends, Keeps};
ghost use Rattle.model.specs.Page.{printed};

use acceptance::accept::accept;
use std::io::{Read, Write};

// Prints the page of a sheet, and answers whether it was printed. Every page fits the buffer, so that none is refused.
fn print_page<O: Write, E: Write>(output: &mut O, errors: &mut E, sheet: &[u8]) -> bool
    ensures written { OnTrue result (Appends (O.contents output.old) (O.contents output.new) (printed sheet.now)) }
    ensures silent { OnTrue result (Keeps (E.contents errors.old) (E.contents errors.new)) }
{
    let mut text = [0u8; page::PAGE];
    let Ok(length) = page::write_page(sheet, &mut text) else {
        return false;
    };
    console::print(output, errors, b"filing", &text[..length])
}

// Says why a sheet is refused.
fn explain_refusal<E: Write>(errors: &mut E, sheet: &[u8]) {
    if let Err(refusal) = accept(sheet) {
        console::explain(errors, refusal.number(), refusal.place());
    }
}

// Prints the page of a sheet and, where that was done and the sheet is refused, says why. Answers whether the page was printed.
fn file<O: Write, E: Write>(output: &mut O, errors: &mut E, sheet: &[u8]) -> bool
    ensures { OnTrue result (Appends (O.contents output.old) (O.contents output.new) (printed sheet.now)) }
{
    let done = print_page(output, errors, sheet);
    if done {
        explain_refusal(errors, sheet);
    }
    done
}

// Prints the page of what an input has, and answers whether it was printed: to an output whose bytes are known it adds that page, and nothing else.
// What is read is as long as what the page goes by: the types of the two agree only where their lengths do.
fn file_input<I: Read, O: Write, E: Write>(input: &mut I, output: &mut O, errors: &mut E) -> bool
    ensures { OnTrue result (IfSome (I.remaining input.old) (λ s. Appends (O.contents output.old) (O.contents output.new) (printed s))) }
{
    let mut sheet = [0u8; page::INPUT];
    let Ok(bytes) = console::read_sheet(input, &mut sheet) else {
        console::unread(errors, b"filing");
        return false;
    };
    file(output, errors, &sheet[..bytes])
}

fn main(rt: HostRuntime) {
    file_input(&mut rt.stdin(), &mut rt.stdout(), &mut rt.stderr());
}

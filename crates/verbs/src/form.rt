// form I and finer-form I.
ghost use Rattle.std.specs.Prelude.{◌≤◌, length};
ghost use Rattle.tables.specs.Senses.{sense_of};
ghost use Rattle.replies.specs.Told.{Tells};
ghost use Rattle.replies.specs.Texts.{most_text};
ghost use Rattle.verbs.specs.Calls.{form_told_in, form_told, finer_form_told};

use filer::form::form_in;
use replies::Reply;
use replies::reply::refuse;
use sheet::Card;
use tables::sense::Sense;
use text::put_counts_line;

// The counts of a field's prime form of a sense.
fn tell_form(sense: Sense, sheet: &[u8], numbers: &[u64], out: &mut [u8]) -> Reply
    requires { most_text ≤ length out.old }
    ensures { Tells (form_told_in (sense_of sense) sheet.now numbers.now) out.old out.new result }
{
    if numbers.len() != 1 {
        return Reply::no_call();
    }
    let mut form = [0u64; 32];
    match form_in(sense, sheet, numbers[0] as usize, &mut form) {
        Ok(()) => {
            let card = Card::of_header(sheet);
            let n = card.kinds;
            let length = put_counts_line(out, 0, &form[..n]);
            Reply::answered(length)
        }
        Err(refusal) => refuse(out, refusal),
    }
}

// form I.
pub fn field_form(sheet: &[u8], numbers: &[u64], out: &mut [u8]) -> Reply
    requires { most_text ≤ length out.old }
    ensures { Tells (form_told sheet.now numbers.now) out.old out.new result }
{
    tell_form(Sense::Plain, sheet, numbers, out)
}

// finer-form I.
pub fn finer_field_form(sheet: &[u8], numbers: &[u64], out: &mut [u8]) -> Reply
    requires { most_text ≤ length out.old }
    ensures { Tells (finer_form_told sheet.now numbers.now) out.old out.new result }
{
    tell_form(Sense::Finer, sheet, numbers, out)
}

// number I.
ghost use Rattle.std.specs.Prelude.{◌+◌, ◌≤◌, length};
ghost use Rattle.text.specs.Appended.{Appended};
ghost use Rattle.replies.specs.Told.{Tells};
ghost use Rattle.shelf_verbs.specs.Texts.{most_shelved, shelved_line};
ghost use Rattle.replies.specs.Texts.{most_text};
ghost use Rattle.shelf_verbs.specs.Calls.{number_told};

use numbering::number::shelf_number;
use replies::Reply;
use replies::reply::refuse;
use text::{put_byte, put_two_labelled};

// `size S number X`.
fn put_shelved(out: &mut [u8], at: usize, size: usize, number: u64) -> usize
    requires { at + most_shelved ≤ length out.old }
    ensures { Appended most_shelved out.old at (shelved_line size number) out.new result }
{
    let last = put_two_labelled(out, at, b"size ", size as u64, b" number ", number);
    put_byte(out, last, b'\n')
}

// The size and the number of a field.
pub fn field_number(sheet: &[u8], numbers: &[u64], out: &mut [u8]) -> Reply
    requires { most_text ≤ length out.old }
    ensures { Tells (number_told sheet.now numbers.now) out.old out.new result }
{
    if numbers.len() != 1 {
        return Reply::no_call();
    }
    match shelf_number(sheet, numbers[0] as usize) {
        Ok(shelved) => {
            let length = put_shelved(out, 0, shelved.size, shelved.number);
            Reply::answered(length)
        }
        Err(refusal) => refuse(out, refusal),
    }
}

// field SIZE NUMBER.
ghost use Rattle.std.specs.Prelude.{◌≤◌, length};
ghost use Rattle.replies.specs.Told.{Tells};
ghost use Rattle.replies.specs.Texts.{most_text};
ghost use Rattle.shelf_verbs.specs.Calls.{field_told};

use copies::widen;
use numbering::field::shelf_field;
use replies::Reply;
use replies::reply::refuse;
use sheet::Card;
use text::put_counts_line;

// The counts of the field of a size and a number.
pub fn numbered_field(sheet: &[u8], numbers: &[u64], out: &mut [u8]) -> Reply
    requires { most_text ≤ length out.old }
    ensures { Tells (field_told sheet.now numbers.now) out.old out.new result }
{
    if numbers.len() != 2 {
        return Reply::no_call();
    }
    let mut counts = [0u16; 32];
    match shelf_field(sheet, numbers[0] as usize, numbers[1], &mut counts) {
        Ok(()) => {
            let card = Card::of_header(sheet);
            let n = card.kinds;
            let wide: [u64; 32] = widen(&counts[..n]);
            let length = put_counts_line(out, 0, &wide[..n]);
            Reply::answered(length)
        }
        Err(refusal) => refuse(out, refusal),
    }
}

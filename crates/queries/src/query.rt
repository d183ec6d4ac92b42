// From the words to the text.
ghost use Rattle.std.specs.Prelude.{◌≤◌, length};
ghost use Rattle.replies.specs.Told.{Tells};
ghost use Rattle.replies.specs.Texts.{most_text};
ghost use Rattle.queries.specs.Query.{verb_told, query_of};

use crate::table::{Verb, verb_of};
use frequencies_verb::common::common_answers;
use replies::reply::Reply;
use shelf_verbs::field::numbered_field;
use shelf_verbs::number::field_number;
use squads_verb::count::count_squads;
use verbs::compare::{compare_fields, finer_compare_fields};
use verbs::form::{field_form, finer_field_form};
use verbs::settle::{settle, settled_row};
use walk_verb::walk::walk_fields;
use words::{numbers_in, word_end};

// No text is longer.
pub const TEXT: usize = 21564;

// The numbers that a call takes at most.
const NUMBERS: usize = 5;

// The call of a verb with its numbers.
fn call(sheet: &[u8], verb: Verb, numbers: &[u64], out: &mut [u8]) -> Reply
    requires { most_text ≤ length out.old }
    ensures { Tells (verb_told sheet.now verb numbers.now) out.old out.new result }
{
    match verb {
        Verb::Settle => settle(sheet, numbers, out),
        Verb::Row => settled_row(sheet, numbers, out),
        Verb::Compare => compare_fields(sheet, numbers, out),
        Verb::Form => field_form(sheet, numbers, out),
        Verb::Walk => walk_fields(sheet, numbers, out),
        Verb::Number => field_number(sheet, numbers, out),
        Verb::Field => numbered_field(sheet, numbers, out),
        Verb::Squads => count_squads(sheet, numbers, out),
        Verb::Finer => finer_compare_fields(sheet, numbers, out),
        Verb::FinerForm => finer_field_form(sheet, numbers, out),
        Verb::Common => common_answers(sheet, numbers, out),
    }
}

// The call that words ask for, each of them ended by a byte 0, of the bytes of a sheet: its text goes to the front of the lent buffer.
pub fn answer(sheet: &[u8], words: &[u8], out: &mut [u8; TEXT]) -> Reply
    ensures { Tells (query_of sheet.now words.now) out.old out.new result }
{
    let Some(end) = word_end(words) else {
        return Reply::no_call();
    };
    let (word, others) = words.split_at(end);
    let Some(verb) = verb_of(word) else {
        return Reply::no_call();
    };
    let mut values = [0u64; NUMBERS];
    let Some(count) = numbers_in(&others[1..], &mut values) else {
        return Reply::no_call();
    };
    call(sheet, verb, &values[..count], out)
}

// Prime form and finer Prime form.
ghost use Rattle.std.specs.Prelude.{◌≡◌, ◌^◌, ◌<◌, IfErr};
ghost use Rattle.refusals.specs.Refusals.{number_of, place_of, answer_of};
ghost use Rattle.arrays.specs.Reply.{code_of};
ghost use Rattle.exports.specs.Calls.{form_call, finer_form_call, written_code};

use arrays::reply::refused;
use filer::form::{finer_prime_form, prime_form};
use refusals::Refusal;

// Prime form, of any bytes, any field number and a buffer of any length.
#[unsafe(no_mangle)]
pub extern "C" fn limbatue_prime_form(sheet: &[u8], field: usize, counts: &mut [u64]) -> u32
    ensures value { result ≡ (form_call sheet.now field counts.old).code }
    ensures counts_after { counts.new ≡ (form_call sheet.now field counts.old).lent }
{
    forming_code(prime_form(sheet, field, counts))
}

// Finer Prime form, of any bytes, any field number and a buffer of any length.
#[unsafe(no_mangle)]
pub extern "C" fn limbatue_finer_prime_form(sheet: &[u8], field: usize, counts: &mut [u64]) -> u32
    ensures value { result ≡ (finer_form_call sheet.now field counts.old).code }
    ensures counts_after { counts.new ≡ (finer_form_call sheet.now field counts.old).lent }
{
    forming_code(finer_prime_form(sheet, field, counts))
}

// What is returned of a prime form, whose refusal, if it is one, fits the number.
fn forming_code(formed: Result<(), Refusal>) -> u32
    requires { IfErr formed (λ refusal. code_of (number_of refusal) (place_of refusal) < 2 ^ 32) }
    ensures { result ≡ written_code (answer_of (λ x. tt) formed) }
{
    match formed {
        Ok(()) => 0,
        Err(refusal) => refused(refusal),
    }
}

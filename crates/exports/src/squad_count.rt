// Squads.
ghost use Rattle.std.specs.Prelude.{◌≡◌};
ghost use Rattle.exports.specs.Calls.{squads_call, short_squads};

use arrays::reply::refused;
use arrays::values::reply_value;
use squads::squads;

// What Squads returns where the answer array has no room: a refusal of the other checks, else 12. The remainder goes to a buffer of its own.
fn short_squads(sheet: &[u8], whole: usize, squad: usize) -> u32
    ensures { result ≡ short_squads sheet.now whole squad }
{
    let mut remainder = [0u64; 1];
    match squads(sheet, whole, squad, &mut remainder) {
        Ok(_) => 12,
        Err(refusal) => refused(refusal),
    }
}

// Squads, of any bytes, any two field numbers and arrays of any length.
#[unsafe(no_mangle)]
pub extern "C" fn limbatue_squads(
    sheet: &[u8],
    whole: usize,
    squad: usize,
    remainder: &mut [u64],
    answer: &mut [u64],
) -> u32
    ensures value { result ≡ (squads_call sheet.now whole squad remainder.old answer.old).code }
    ensures remainder_after { remainder.new ≡ (squads_call sheet.now whole squad remainder.old answer.old).lent }
    ensures answer_after { answer.new ≡ (squads_call sheet.now whole squad remainder.old answer.old).values }
{
    if answer.len() < 1 {
        return short_squads(sheet, whole, squad);
    }
    match squads(sheet, whole, squad, remainder) {
        Ok(count) => reply_value(count, answer),
        Err(refusal) => refused(refusal),
    }
}

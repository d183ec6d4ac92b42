// Frequencies.
ghost use Rattle.std.specs.Prelude.{◌≡◌};
ghost use Rattle.exports.specs.Calls.{frequencies_call};

use arrays::reply::refused;
use frequencies::frequencies;

// Frequencies, of any bytes, any field number, any size and a buffer of any length.
#[unsafe(no_mangle)]
pub extern "C" fn limbatue_frequencies(
    sheet: &[u8],
    field: usize,
    size: usize,
    counts: &mut [u32],
) -> u32
    ensures value { result ≡ (frequencies_call sheet.now field size counts.old).code }
    ensures counts_after { counts.new ≡ (frequencies_call sheet.now field size counts.old).lent }
{
    match frequencies(sheet, field, size, counts) {
        Ok(()) => 0,
        Err(refusal) => refused(refusal),
    }
}

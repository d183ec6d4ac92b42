// A sheet from standard input.
ghost use Rattle.std.specs.Prelude.{◌<◌, IfOk, length, take};
ghost use Rattle.std.specs.Io.KnownBytes.{Consumes, IsAtEnd};
ghost use Rattle.console.specs.Counts.{IsPrefixLen};

use std::io;
use std::io::Read;

// One byte more than the longest sheet has.
pub const INPUT: usize = 12821;

// Reads an input until it ends, the buffer is full or a read fails, and answers how many bytes were read. What lies in the buffer is what the input had, and where the buffer is not full nothing is left.
pub fn read_sheet<R: Read>(input: &mut R, sheet: &mut [u8; INPUT]) -> io::Result<usize>
    ensures lies { IfOk result (λ n. IsPrefixLen n sheet.new) }
    ensures given { IfOk result (λ n. Consumes (R.remaining input.old) (R.remaining input.new) (take n sheet.new)) }
    ensures whole { IfOk result (λ n. n < INPUT → IsAtEnd (R.remaining input.new)) }
{
    fill(input, sheet)
}

// Reads an input to a buffer of any length, until it ends, the buffer is full or a read fails.
fn fill<R: Read>(input: &mut R, buffer: &mut [u8]) -> io::Result<usize>
    ensures lies { IfOk result (λ n. IsPrefixLen n buffer.new) }
    ensures given { IfOk result (λ n. Consumes (R.remaining input.old) (R.remaining input.new) (take n buffer.new)) }
    ensures whole { IfOk result (λ n. n < length buffer.new → IsAtEnd (R.remaining input.new)) }
{
    let mut bytes = 0;
    // A while: each turn takes as many bytes as the read gave.
    while bytes < buffer.len() {
        let rest = &mut buffer[bytes..];
        let more = input.read(rest)?;
        if more == 0 {
            return Ok(bytes);
        }
        bytes += more;
    }
    Ok(bytes)
}

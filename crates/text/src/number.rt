// Byte strings and decimal numbers, appended to what a buffer holds up to a position. Each writer answers the position past its text.
ghost use Rattle.std.specs.Prelude.{◌+◌, ◌%◌, ◌≤◌, ◌<◌, [], ◌∷◌, ◌++◌, ◌≡◌, length};
ghost use Rattle.model.specs.Page.{number};
ghost use Rattle.text.specs.Appended.{Appended};
ghost use Rattle.text.specs.Lengths.{most_digits};

// One byte.
pub fn put_byte(out: &mut [u8], at: usize, byte: u8) -> usize
    requires { at < length out.old }
    ensures { Appended 1 out.old at (byte ∷ []) out.new result }
{
    out[at] = byte;
    at + 1
}

// The bytes of a text.
pub fn put_bytes(out: &mut [u8], at: usize, text: &[u8]) -> usize
    requires { at + length text.now ≤ length out.old }
    ensures { Appended (length text.now) out.old at text.now out.new result }
{
    let end = at + text.len();
    out[at..end].copy_from_slice(text);
    end
}

// The last digit of a number.
fn digit(value: u64) -> u8
    ensures { result ≡ 48 + value % 10 }
{
    48 + (value % 10) as u8
}

// A number in decimal without leading zeros, given room for its digits: those before the last, then the last.
fn put_digits(out: &mut [u8], at: usize, value: u64) -> usize
    requires { at + length (number value) ≤ length out.old }
    ensures { Appended (length (number value)) out.old at (number value) out.new result }
{
    if value < 10 {
        put_byte(out, at, digit(value))
    } else {
        let next = put_digits(out, at, value / 10);
        put_byte(out, next, digit(value))
    }
}

// A number in decimal without leading zeros.
pub fn put_number(out: &mut [u8], at: usize, value: u64) -> usize
    requires { at + most_digits ≤ length out.old }
    ensures { Appended most_digits out.old at (number value) out.new result }
{
    put_digits(out, at, value)
}

// A text and a number after it.
pub fn put_labelled(out: &mut [u8], at: usize, label: &[u8], value: u64) -> usize
    requires { at + (length label.now + most_digits) ≤ length out.old }
    ensures { Appended (length label.now + most_digits) out.old at (label.now ++ number value) out.new result }
{
    let next = put_bytes(out, at, label);
    put_number(out, next, value)
}

// A text and a number after it, and once more.
pub fn put_two_labelled(
    out: &mut [u8],
    at: usize,
    label: &[u8],
    first: u64,
    between: &[u8],
    second: u64,
) -> usize
    requires { at + (length label.now + most_digits + (length between.now + most_digits)) ≤ length out.old }
    ensures { Appended (length label.now + most_digits + (length between.now + most_digits)) out.old at (label.now ++ number first ++ (between.now ++ number second)) out.new result }
{
    let next = put_labelled(out, at, label, first);
    put_labelled(out, next, between, second)
}

// The bytes of a small sheet, written to a buffer.
ghost use Rattle.std.specs.Prelude.{◌<◌};

// A byte is written, where the buffer has it.
pub fn put(out: &mut [u8; 128], at: usize, value: usize) {
    if let Some(byte) = out.get_mut(at) {
        *byte = (value % 256) as u8;
    }
}

// A number of two bytes, "low byte first".
pub fn put_number(out: &mut [u8; 128], at: usize, value: usize)
    requires { at < 1000000000 }
{
    put(out, at, value % 256);
    put(out, at + 1, value / 256);
}

// The header is written: the numbers of a card, and where its fields start and end.
pub fn put_header(
    kinds: usize,
    codes: usize,
    lines: usize,
    fields: usize,
    start: usize,
    end: usize,
    out: &mut [u8; 128],
) {
    put_number(out, 0, kinds);
    put_number(out, 2, codes);
    put_number(out, 4, lines);
    put_number(out, 6, fields);
    put_number(out, 8, 20);
    put_number(out, 10, 0);
    put_number(out, 12, start);
    put_number(out, 14, 0);
    put_number(out, 16, end);
    put_number(out, 18, 0);
}

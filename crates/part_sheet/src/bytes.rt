// Bytes of one slice copied into another, and numbers of two bytes.
ghost use Rattle.std.specs.Prelude.{◌+◌, ◌≤◌, ◌<◌, length};
ghost use Rattle.part_sheet.specs.Bytes.{Copied, NumberSet};

// Copies so many bytes from an offset of one slice to an offset of another.
// Byte by byte: `copy_from_slice` of parts so long calls memmove, and the library calls memcpy and memset alone.
pub fn copy_bytes(source: &[u8], from: usize, target: &mut [u8], to: usize, count: usize)
    requires { (from + count ≤ length source.now) × (to + count ≤ length target.old) }
    ensures { Copied source.now from target.old to count target.new }
{
    for i in 0..count {
        target[to + i] = source[from + i];
    }
}

// Writes a number at an offset: two bytes, low byte first.
pub fn write_number(target: &mut [u8], offset: usize, number: usize)
    requires { (number < 65536) × (offset + 1 < length target.old) }
    ensures { NumberSet number target.old offset target.new }
{
    target[offset..offset + 2].copy_from_slice(&(number as u16).to_le_bytes());
}

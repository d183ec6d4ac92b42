// "All header fields are unsigned, low byte first."
ghost use Rattle.std.specs.Prelude.{◌≡◌, ◌+◌, ◌<◌, ◌^◌};
ghost use Rattle.model.specs.Sheet.{byte, u16_at, u32_at};

// The byte at an offset, 0 past the end.
pub fn byte_at(sheet: &[u8], offset: usize) -> usize
    ensures { (result ≡ byte sheet.now offset) × (result < 256) }
{
    match sheet.get(offset) {
        Some(byte) => usize::from(*byte),
        None => 0,
    }
}

// The number of two bytes from an offset on, low byte first.
pub fn u16_at(sheet: &[u8], offset: usize) -> usize
    requires { offset + 1 < 2 ^ 64 }
    ensures { (result ≡ u16_at sheet.now offset) × (result < 65536) }
{
    byte_at(sheet, offset) + 256 * byte_at(sheet, offset + 1)
}

// The number of four bytes from an offset on, low byte first.
pub fn u32_at(sheet: &[u8], offset: usize) -> usize
    requires { offset + 3 < 2 ^ 64 }
    ensures { (result ≡ u32_at sheet.now offset) × (result < 2 ^ 32) }
{
    u16_at(sheet, offset) + 65536 * u16_at(sheet, offset + 2)
}

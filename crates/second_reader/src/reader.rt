// The numbers, lines and fields of a sheet, read from its bytes. A byte past the end is 0.
ghost use Rattle.std.specs.Prelude.{◌≡◌, ◌+◌, ◌*◌, ◌≤◌, ◌<◌};
ghost use Rattle.model.specs.Field.{at};
ghost use Rattle.model.specs.Sheet.{byte, u16_at, kind_count, code_count, line_count, field_count, lines_offset, line_of, field_of};
ghost use Rattle.second_reader.specs.Fields.{Fits};

// The byte at a position.
fn byte_at(sheet: &[u8], position: usize) -> usize
    ensures { (result ≡ byte sheet.now position) × (result < 256) }
{
    sheet.get(position).map_or(0, |byte| usize::from(*byte))
}

// The two bytes from a position on, "low byte first".
fn number_at(sheet: &[u8], position: usize) -> usize
    requires { position < 1000000000 }
    ensures { (result ≡ u16_at sheet.now position) × (result < 65536) }
{
    byte_at(sheet, position) + 256 * byte_at(sheet, position + 1)
}

// "kinds n"
pub fn kinds(sheet: &[u8]) -> usize
    ensures { (result ≡ kind_count sheet.now) × (result < 65536) }
{
    number_at(sheet, 0)
}

// "codes c"
pub fn codes(sheet: &[u8]) -> usize
    ensures { (result ≡ code_count sheet.now) × (result < 65536) }
{
    number_at(sheet, 2)
}

// "lines m"
pub fn lines(sheet: &[u8]) -> usize
    ensures { (result ≡ line_count sheet.now) × (result < 65536) }
{
    number_at(sheet, 4)
}

// "fields f"
pub fn fields(sheet: &[u8]) -> usize
    ensures { (result ≡ field_count sheet.now) × (result < 65536) }
{
    number_at(sheet, 6)
}

// Where the line of a number starts; for the number of lines, where the fields start.
pub fn line_start(sheet: &[u8], line: usize) -> usize
    requires { (kind_count sheet.now ≤ 32) × (line < 65536) }
    ensures { (result ≡ lines_offset + line * (2 + kind_count sheet.now)) × (result < 10000000) }
{
    20 + line * (2 + kinds(sheet))
}

// The kind of a line.
pub fn line_kind(sheet: &[u8], line: usize) -> usize
    requires { (kind_count sheet.now ≤ 32) × (line < 65536) }
    ensures { result ≡ (line_of sheet.now line).kind }
{
    byte_at(sheet, line_start(sheet, line))
}

// The code of a line.
pub fn line_code(sheet: &[u8], line: usize) -> usize
    requires { (kind_count sheet.now ≤ 32) × (line < 65536) }
    ensures { result ≡ (line_of sheet.now line).code }
{
    byte_at(sheet, line_start(sheet, line) + 1)
}

// How many tokens of a kind, one of the card's, a line leaves.
pub fn line_left(sheet: &[u8], line: usize, kind: usize) -> usize
    requires { (kind_count sheet.now ≤ 32) × (line < 65536) × (kind < kind_count sheet.now) }
    ensures { (result ≡ (line_of sheet.now line).left kind) × (result < 256) }
{
    byte_at(sheet, line_start(sheet, line) + 2 + kind)
}

// How many tokens of a kind, one of the card's, the field of a number has.
pub fn field_count(sheet: &[u8], number: usize, kind: usize) -> usize
    requires { (kind_count sheet.now ≤ 32) × (number < 65536) × (kind < kind_count sheet.now) }
    ensures { (result ≡ field_of sheet.now number kind) × (result < 65536) }
{
    number_at(
        sheet,
        line_start(sheet, lines(sheet)) + 2 * kinds(sheet) * number + 2 * kind,
    )
}

// The field of a number, with room for 200 rounds.
pub fn field(sheet: &[u8], number: usize) -> [usize; 32]
    requires { (kind_count sheet.now ≤ 32) × (number < 65536) }
    ensures { (at result ≡ field_of sheet.now number) × Fits sheet.now 200 result }
{
    let mut counts = [0usize; 32];
    for kind in 0..kinds(sheet) {
        counts[kind] = field_count(sheet, number, kind);
    }
    counts
}

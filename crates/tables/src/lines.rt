// The lines of a sheet as one table of bytes: the kinds of the lines, then their codes, then of each line 1 where it lowers the norm, else 0.
ghost use Rattle.std.specs.Prelude.{◌≡◌, true, ◌↔◌, ◌<◌};
ghost use Rattle.tables.specs.Lines.{lines_in, kind_in, code_in, LowersIn};

// The kind of a line.
pub fn kind_of(lines: &[u8], line: usize) -> usize
    requires { line < lines_in lines.now }
    ensures { result ≡ kind_in lines.now line }
{
    usize::from(lines[line])
}

// The code of a line.
pub fn code_of(lines: &[u8], line: usize) -> usize
    requires { line < lines_in lines.now }
    ensures { result ≡ code_in lines.now line }
{
    let codes = lines.len() / 3;
    usize::from(lines[codes + line])
}

// Whether a line lowers the norm.
pub fn lowers(lines: &[u8], line: usize) -> bool
    requires { line < lines_in lines.now }
    ensures { (result ≡ true) ↔ LowersIn lines.now line }
{
    let marks = 2 * (lines.len() / 3);
    lines[marks + line] == 1
}

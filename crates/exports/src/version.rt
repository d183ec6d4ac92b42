// The version of the library.
ghost use Rattle.std.specs.Prelude.{◌≡◌};
ghost use Rattle.exports.specs.Version.{version};

pub const MAJOR: u32 = 0;

pub const MINOR: u32 = 10;

pub const PATCH: u32 = 0;

// The version as one number, so that a later version has a greater one.
#[unsafe(no_mangle)]
pub extern "C" fn limbatue_version() -> u32
    ensures { result ≡ version }
{
    10000 * MAJOR + 100 * MINOR + PATCH
}

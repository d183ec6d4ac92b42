// Sums of counts. A line's counts are handed in as the part of the sheet's bytes where they stand; nothing is copied.
ghost use Rattle.std.specs.Prelude.{◌≡◌, ◌<◌};
ghost use Rattle.sheet.specs.Sum.{Addable, plus};

// A line's counts are added to the field's, kind by kind.
pub fn add_counts(field: &mut [u32], counts: &[u8])
    requires { Addable field.old counts.now }
    ensures { field.new ≡ plus field.old counts.now }
{
    for (k, count) in counts.iter().enumerate() {
        field[k] += u32::from(*count);
    }
}

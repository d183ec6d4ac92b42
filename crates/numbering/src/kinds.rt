// The kinds that the listing runs over.
ghost use Rattle.std.specs.Prelude.{◌≡◌, ◌≤◌};
ghost use Rattle.model.specs.Limits.{most_kinds};
ghost use Rattle.numbering.specs.Kinds.{normed_kinds};

// "Shelf numbers run over the reached kinds alone, in number order": of so many kinds, those that have a norm. They are stored at the front of the caller's array, and that part of it is handed out.
pub fn listed_kinds<'a>(kinds: usize, norms: &[u32; 32], store: &'a mut [usize; 32]) -> &'a [usize]
    requires { kinds ≤ most_kinds }
    ensures { result.now ≡ normed_kinds kinds norms.now }
{
    let mut count = 0;
    for kind in 0..kinds {
        if norms[kind] != 0 {
            store[count] = kind;
            count += 1;
        }
    }
    &store[..count]
}

// page_tests NAME ..: the page of each stored sheet NAME.sheet against NAME.page, and the filer's verdicts against a second player of the round game.
#![tactic(auto)]

// The stored pages.
mod stored;

// The second player's counts.
mod played;

fn main(rt: HostRuntime) {
    let mut output = rt.stdout();
    let mut errors = rt.stderr();
    stored::check_all(&rt, &mut output, &mut errors);
    played::play_stored(&rt, &mut output, &mut errors);
    played::play_random(&mut output);
}

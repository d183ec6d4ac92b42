// The table of verbs.
ghost use Rattle.std.specs.Prelude.{◌≡◌};
ghost use Rattle.words.specs.Words.{same_word};
ghost use Rattle.queries.specs.Call.{first_call};
ghost use Rattle.queries.specs.Verb.{verb_of};

// What a word asks for: one of the calls.
#[derive(Clone, Copy, Debug, PartialEq, Eq)]
pub enum Verb {
    Settle,
    Row,
    Compare,
    Form,
    Walk,
    Number,
    Field,
    Squads,
    Finer,
    FinerForm,
    Common,
}

// A verb and the word for it.
#[derive(Clone, Copy)]
pub struct Call {
    pub name: &'static [u8],
    pub verb: Verb,
}

const CALLS: [Call; 11] = [
    Call {
        name: b"settle",
        verb: Verb::Settle,
    },
    Call {
        name: b"row",
        verb: Verb::Row,
    },
    Call {
        name: b"compare",
        verb: Verb::Compare,
    },
    Call {
        name: b"form",
        verb: Verb::Form,
    },
    Call {
        name: b"walk",
        verb: Verb::Walk,
    },
    Call {
        name: b"number",
        verb: Verb::Number,
    },
    Call {
        name: b"field",
        verb: Verb::Field,
    },
    Call {
        name: b"squads",
        verb: Verb::Squads,
    },
    Call {
        name: b"finer",
        verb: Verb::Finer,
    },
    Call {
        name: b"finer-form",
        verb: Verb::FinerForm,
    },
    Call {
        name: b"common",
        verb: Verb::Common,
    },
];

// The first of some calls that has a name.
#[tactic(auto, unfolding(crate::specs::Call::first_call))]
fn call_in(calls: &[Call], word: &[u8]) -> Option<Call>
    ensures { result ≡ first_call word.now calls.now }
{
    calls.iter().copied().find(|call| call.is_named(word))
}

impl Call {
    // Whether a word is the call's name.
    fn is_named(&self, word: &[u8]) -> bool
        ensures { result ≡ same_word word.now self.now.name.now }
    {
        word == self.name
    }
}

// The verb that a word is.
pub fn verb_of(word: &[u8]) -> Option<Verb>
    ensures { result ≡ verb_of word.now }
{
    let call = call_in(&CALLS, word)?;
    Some(call.verb)
}

// The table of sentences.
ghost use Rattle.std.specs.Prelude.{◌≡◌};
ghost use Rattle.model.specs.Finite.{pick};
ghost use Rattle.sentences.specs.Row.{first_row, said, sentence};
ghost use Rattle.sentences.specs.Sentence.{has, sentences, unsaid};

// The places of a row: one, any line, or any kind.
#[derive(Clone, Copy)]
pub enum Place {
    Only(usize),
    Line,
    Kind,
}

// The number of a refusal, its places, and what is said.
#[derive(Clone, Copy)]
pub struct Row {
    pub number: usize,
    pub places: Place,
    pub words: &'static [u8],
}

const TABLE: [Row; 22] = [
    Row {
        number: 16,
        places: Place::Only(0),
        words: b"the desk is over 7\n",
    },
    Row {
        number: 1,
        places: Place::Only(0),
        words: b"the sheet has under 20 bytes\n",
    },
    Row {
        number: 2,
        places: Place::Only(0),
        words: b"the number of kinds is not from 1 to 32\n",
    },
    Row {
        number: 3,
        places: Place::Only(0),
        words: b"the number of codes is not from 1 to 64\n",
    },
    Row {
        number: 4,
        places: Place::Only(0),
        words: b"there are over 256 lines\n",
    },
    Row {
        number: 5,
        places: Place::Only(0),
        words: b"there are over 64 fields\n",
    },
    Row {
        number: 6,
        places: Place::Only(0),
        words: b"the offset of the lines is not 20\n",
    },
    Row {
        number: 6,
        places: Place::Only(1),
        words: b"the offset of the fields is not where the lines end\n",
    },
    Row {
        number: 6,
        places: Place::Only(2),
        words: b"the total is not where the fields end\n",
    },
    Row {
        number: 6,
        places: Place::Only(3),
        words: b"the bytes given are not as many as the total\n",
    },
    Row {
        number: 7,
        places: Place::Line,
        words: b"its kind is not under the number of kinds\n",
    },
    Row {
        number: 8,
        places: Place::Line,
        words: b"its code is not under the number of codes\n",
    },
    Row {
        number: 9,
        places: Place::Kind,
        words: b"it has no norm, since it can not be cleared\n",
    },
    Row {
        number: 10,
        places: Place::Kind,
        words: b"its norm is over 1,000,000,000\n",
    },
    Row {
        number: 11,
        places: Place::Only(0),
        words: b"the first field or kind number is too large\n",
    },
    Row {
        number: 11,
        places: Place::Only(1),
        words: b"the second field number is too large\n",
    },
    Row {
        number: 13,
        places: Place::Only(0),
        words: b"the round limit is over 8\n",
    },
    Row {
        number: 14,
        places: Place::Only(0),
        words: b"the field or the size is over 16 tokens\n",
    },
    Row {
        number: 15,
        places: Place::Only(0),
        words: b"no field of this size has so large a number\n",
    },
    Row {
        number: 17,
        places: Place::Only(1),
        words: b"the squad is empty\n",
    },
    Row {
        number: 18,
        places: Place::Only(0),
        words: b"there are over 65,536 fields of this size\n",
    },
    Row {
        number: 12,
        places: Place::Only(0),
        words: b"a buffer or table is too short\n",
    },
];

impl Row {
    // Whether the row has a number and a place.
    fn is_of(&self, number: usize, place: usize) -> bool
        ensures { result ≡ has number place (sentence self.now) }
    {
        self.number == number
            && match self.places {
                Place::Only(only) => only == place,
                Place::Line | Place::Kind => true,
            }
    }
}

// The first of some rows that has a number and a place.
#[tactic(auto, unfolding(crate::specs::Row::first_row))]
fn find_in(rows: &[Row], number: usize, place: usize) -> Option<Row>
    ensures { result ≡ first_row number place rows.now }
{
    rows.iter().copied().find(|row| row.is_of(number, place))
}

// The first row of the table that has a number and a place.
pub fn find_row(number: usize, place: usize) -> Option<Row>
    ensures { said result ≡ pick (has number place) sentences unsaid }
{
    find_in(&TABLE, number, place)
}

// What Shelf number answers. specs/Answers.antt says what it stands for.

// The size of a field, its tokens, and its number at that size.
#[derive(Clone, Copy, Debug, PartialEq, Eq)]
pub struct ShelfNumber {
    pub size: usize,
    pub number: u64,
}

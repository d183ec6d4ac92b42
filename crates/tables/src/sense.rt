// In which sense fields are compared.

// What related fields share: their norm, or their norm and their total, the number of their tokens.
#[derive(Clone, Copy, PartialEq, Eq, Debug)]
pub enum Sense {
    Plain,
    Finer,
}

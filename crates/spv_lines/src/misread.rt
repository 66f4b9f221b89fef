/// Why a token is no operand.
#[derive(Clone, Copy)]
pub enum Misread {
    /// It is none, or none of the kind that is due.
    IllFormed,
    /// It is a well-formed decimal number that is too large for its place.
    TooLarge,
}

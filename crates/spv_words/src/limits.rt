//! The numbers of a header, and how large a module of the profile may be.

/// Word 0 of a module: 0x07230203. (2.3)
pub const MAGIC_NUMBER: u32 = 0x0723_0203;

/// Word 1 of a module of the profile: version 1.6, with the major number in its third byte and the
/// minor number in its second, counted from the lowest. (2.3; that it is 1.6: own)
pub const VERSION: u32 = 0x0001_0600;

/// The greatest bound, word 3 of a module: every id is below the bound. (own)
pub const GREATEST_BOUND: u32 = 4_194_303;

/// The greatest size of a module, in bytes. (own)
pub const GREATEST_SIZE: usize = 16_777_216;

/// The greatest length of a module, in words, the five of the header too: a quarter of the greatest
/// size. (own)
pub const GREATEST_LENGTH: usize = 4_194_304;

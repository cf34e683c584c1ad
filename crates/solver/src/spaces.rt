//! Work spaces.

/// The fewest words of a work space, which a caller lends.
pub const WORK_WORDS: usize = 8192;

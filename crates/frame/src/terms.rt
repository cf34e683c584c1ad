//! One term of a frame.

/// A minute of the hour and the weight with which it counts. Any words: a frame's check looks at
/// them.
#[derive(Clone, Copy, PartialEq, Eq, Debug, Default)]
pub struct Term {
    pub minute: u16,
    pub weight: u16,
}

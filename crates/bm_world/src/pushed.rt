//! How a push is answered.

/// What became of an object that was to be put into a list or tree, with the call's position in the history.
#[derive(Clone, Copy, Debug, PartialEq, Eq)]
pub enum Pushed {
    /// It is in the list or tree now.
    Done(u32),
    /// It was in a list or tree already, which has this place among the maps: the kernel answers -EINVAL, and nothing moves.
    Already { owner: u8, position: u32 },
}

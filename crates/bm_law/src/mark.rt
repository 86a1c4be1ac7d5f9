//! What a step leaves to be done.

use bm_class::Class;

/// What the last step of a level waits for. The lists after a log have one for each level, and so have the caches that
/// write the log, since a recorder need not tell it. The marks are this project's own.
#[derive(Clone, Copy, Debug, PartialEq, Eq)]
pub enum Mark {
    /// It waits for nothing.
    Quiet,
    /// A free has begun. The next raise of an active number makes this home the target of its class; the free is a
    /// delayed one where the second part says so.
    Bound(u8, bool),
    /// A unit was taken off Free of the class, and the free count doesn't tell yet.
    Took(Class),
    /// A unit was put on Free of the class, and the free count doesn't tell yet.
    Gave(Class),
    /// Extra of the class was seen with this length.
    Saw(Class, u32),
    /// ExtraDelayed of the class was seen with this length.
    SawDelayed(Class, u32),
}

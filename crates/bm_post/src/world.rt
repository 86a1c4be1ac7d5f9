//! What processors share, as one of them sees it.

use crate::Post;
use bm_grace::Grace;

/// One processor's side of all that processors share: its side of the post and its side of the grace periods are one
/// value, so that a grace period that has passed can make the post's units ripe. This project's own.
pub trait World: Post + Grace {}

//! Notes of a world on one thread.

ghost use Rattle.std.specs.Prelude.{◌≡◌};

use crate::carry::Slip;
use crate::reference::Ref;

/// A note of a `OneWorld`. It has to be spent: an item by `take_out`, a page by `page_in`, and each, after an out of memory, by
/// `give_up`.
pub enum Note {
    /// One reference to an object, and the graph for which the object's claim goes with it, if it does.
    Item(Ref, Option<u8>),
    /// The page of the graph of this number. It tells no history.
    Page(u8),
}

impl Slip for Note {
    ghost use Rattle.bm_obj.specs.NoteShows.{item_in, page_in};

    ghost item = { item_in };

    ghost page = { page_in };
}

impl Note {
    /// Ends a note after an out of memory. An object that it carries keeps its count and never ends.
    pub fn give_up(self) {
        match self {
            Note::Item(r, _claim) => r.give_up(),
            Note::Page(_graph) => {}
        }
    }
}

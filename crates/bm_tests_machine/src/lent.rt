//! A recorder that is borrowed, for tests.

ghost use Rattle.std.specs.Prelude.{is_none};
ghost use Rattle.bm_journal.specs.Recording.{none-is_none};

use bm_journal::{Entry, Keep, Level, Recorder};

/// A recorder that is borrowed, so that its log is there when the caches have ended.
#[derive(Drop)]
pub(crate) struct Lent<'a> {
    pub(crate) keep: &'a mut Keep,
}

impl<'a> Recorder for Lent<'a> {
    ghost log = { λ r. r.keep.now.told };

    ghost counts = { λ r. r.keep.now.counted };

    ghost has_failed = { λ r. is_none r.keep.now.told };

    ghost tells_none = { λ r. none-is_none r.keep.now.told };

    fn put(&mut self, level: Level, entry: Entry) {
        self.keep.put(level, entry);
    }

    fn failed(&self) -> bool {
        self.keep.failed()
    }
}

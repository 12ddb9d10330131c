//! What observes a line.
use zvt_trace::{Direction, Observer};

/// The observers of a line: a recorder, which sees each chunk before it is passed on, and a watcher, which sees it
/// afterwards.
#[derive(Drop)]
pub struct Watched<K, V> {
    pub recorder: K,
    pub watcher: V,
}

impl<K, V: Observer> Watched<K, V> {
    ghost use Rattle.std.specs.Prelude.{◌≡◌};
    ghost use Rattle.zvt_tap.specs.Watching.{Sees};

    /// Shows a chunk to the watcher, which may miss it.
    pub(crate) fn watch(&mut self, from: Direction, bytes: &[u8])
        ensures sees { Sees V.observes V.misses from bytes.now self.old.watcher self.new.watcher }
        ensures recorder { self.new.recorder ≡ self.old.recorder }
    {
        let _ = self.watcher.observe(from, bytes);
    }
}

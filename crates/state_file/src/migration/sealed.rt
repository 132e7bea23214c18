//! A file whose records have moved.

ghost use Rattle.std.specs.Prelude.{◌≡◌, true, false};
ghost use Rattle.state_file.specs.FileStore.{disk_of, has_stopped, records_of};
ghost use Rattle.state_file.specs.Laws.{has_moved};

use crate::disk::Disk;
use crate::store::FileStore;

/// A store whose last record is a Moved. So a crash leaves records there that can't sign.
#[derive(Drop)]
pub struct Sealed<D: Disk> {
    pub(super) store: FileStore<D>,
    ghost running: { has_stopped store ≡ false },
    ghost moved: { has_moved (records_of store) ≡ true },
}

impl<D: Disk + Drop> Sealed<D> {
    ghost use Rattle.state_file.specs.Migration.{store_of};

    /// Gives the disk back.
    pub fn into_disk(self) -> D
        ensures { result ≡ disk_of (store_of self) }
    {
        self.store.into_disk()
    }
}

//! A server on a disk that can be made to fail.
ghost use Rattle.std.specs.Prelude.{◌≡◌, None, Some};

use crate::NodeStore;
use mds_out::{Disk, Fuse};

impl<D: Disk> NodeStore<D> {
    /// Puts a fuse that is not armed round the disk.
    pub fn fused(self) -> NodeStore<Fuse<D>>
        ensures { result
            ≡ record {
              disk = record { inner = self.disk; left = None; refused = 0; refused_changes = 0 };
              server =
                  self.server;
              setup = self.setup;
              log = self.log;
              up = self.up;
              doubt = self.doubt;
            } }
    {
        let NodeStore {
            disk,
            server,
            setup,
            log,
            node,
            rows,
            down,
            doubt,
        } = self;
        NodeStore {
            disk: Fuse::new(disk),
            server,
            setup,
            log,
            node,
            rows,
            down,
            doubt,
        }
    }
}

impl<D: Disk> NodeStore<Fuse<D>> {
    /// From here on `k` calls of the disk pass, and later ones fail. It takes the place of the `arm` before it.
    pub fn arm(&mut self, k: u64)
        ensures { self.new ≡ record self.old { disk = record self.old.disk { left = Some k } } }
    {
        self.disk.arm(k);
    }

    /// From here on all calls of the disk pass.
    pub fn mend(&mut self)
        ensures { self.new ≡ record self.old { disk = record self.old.disk { left = None } } }
    {
        self.disk.mend();
    }
}

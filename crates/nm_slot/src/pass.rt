//! Passes: leave to make calls on a file system.
ghost use Rattle.std.specs.Prelude.{◌≡◌};

use nm_types::{Epoch, FsNum};
use std::marker::Model;

/// Leave to make calls on a file system in one of its epochs. `Slot::enter` alone makes one, it is never copied, and
/// `Slot::leave` takes it. One that is dropped stays out, and the file system waits for it in vain.
#[derive(Drop)]
pub struct FsPass {
    pub(crate) fs: FsNum,
    pub(crate) epoch: Epoch,
}

impl Model for FsPass {
    ghost use Rattle.nm_slot.specs.Passes.{PassNow};

    ghost Value = { PassNow };

    ghost view = { λ p. record { fs = p.fs; epoch = p.epoch } };
}

impl FsPass {
    /// The epoch in which it was given.
    pub fn epoch(&self) -> Epoch
        ensures { result ≡ self.now.epoch }
    {
        self.epoch
    }
}

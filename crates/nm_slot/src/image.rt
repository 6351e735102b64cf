//! What one server offers another.
ghost use Rattle.std.specs.Prelude.{◌≡◌};

use nm_state::FsState;
use nm_types::{Epoch, FsNum, MoveNum};

/// The state of a file system as a move carries it.
pub struct Image {
    pub state: FsState,
    /// The file system.
    pub fs: FsNum,
    /// How many entries it has had.
    pub count: u64,
    /// The epoch that begins where it is installed.
    pub epoch: Epoch,
    /// The move that offers it.
    pub number: MoveNum,
}

impl Image {
    /// Its state.
    pub fn into_state(self) -> FsState
        ensures { result ≡ self.state }
    {
        let Image {
            state,
            fs: _,
            count: _,
            epoch: _,
            number: _,
        } = self;
        state
    }
}

impl Drop for Image {
    fn drop(self) {
        let Image {
            state: _,
            fs: _,
            count: _,
            epoch: _,
            number: _,
        } = self;
    }
}

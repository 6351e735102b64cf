//! What the moves of file systems leave in the row of a client string (RFC 7931).
ghost use Rattle.std.specs.Prelude.{◌≡◌, option_map};
ghost use Rattle.nm_roll.specs.Moves.{only_of, brought, brought_row, settled_record, settled_row, gone_record, gone_row, came, probed_row};

use crate::{Confirmed, StringRow};
use nm_types::{FsNum, Instance, Principal};

/// The record of an instance that comes with a file system.
pub fn brought(clock: u64, clientid: u64, instance: &Instance) -> Confirmed
    ensures { result ≡ brought clock clientid instance.now }
{
    Confirmed {
        verifier: instance.verifier(),
        principal: instance.principal(),
        clientid,
        confirm: None,
        path: None,
        lapsed: false,
        renewed: clock,
        moved: [false; 64],
        moved_at: 0,
    }
}

impl Confirmed {
    // The file system came: unless it has lapsed, the lease is renewed.
    #[tactic(auto, unfolding(crate::specs::Moves::settled_record))]
    fn settle(&mut self, clock: u64, fs: FsNum)
        ensures { self.new ≡ settled_record clock fs self.old }
    {
        if !self.lapsed {
            self.renewed = clock;
            self.moved[fs.number() as usize] = false;
        }
    }

    // The file system joins the moved set, unless the lease has lapsed.
    #[tactic(auto, unfolding(crate::specs::Moves::gone_record))]
    fn add_moved(&mut self, lease: u64, clock: u64, fs: FsNum)
        ensures { self.new ≡ gone_record lease clock fs self.old }
    {
        if !self.lapsed {
            if self.is_over(lease, clock) {
                self.moved = [false; 64];
            }
            self.moved[fs.number() as usize] = true;
            self.moved_at = clock;
        }
    }

    // The file system isn't in the moved set any more.
    fn drop_moved(&mut self, fs: FsNum)
        ensures { self.new ≡ came fs self.old }
    {
        self.moved[fs.number() as usize] = false;
    }
}

impl StringRow {
    // A record that waits for another principal goes.
    fn keep_of(&mut self, principal: Principal)
        ensures { self.new ≡ record self.old { unconfirmed = only_of principal self.old.unconfirmed } }
    {
        if self.waits_for_other(principal) {
            self.unconfirmed = None;
        }
    }

    /// The instance has a confirmed record here, with that clientid.
    pub fn bring(&mut self, clock: u64, clientid: u64, instance: &Instance)
        ensures { self.new ≡ brought_row clock clientid instance.now self.old }
    {
        self.keep_of(instance.principal());
        self.confirmed = Some(brought(clock, clientid, instance));
    }

    /// The file system came.
    pub fn settle(&mut self, clock: u64, fs: FsNum)
        ensures { self.new ≡ settled_row clock fs self.old }
    {
        if let Some(known) = &mut self.confirmed {
            known.settle(clock, fs);
        }
    }

    /// The file system has moved away.
    pub fn add_moved(&mut self, lease: u64, clock: u64, fs: FsNum)
        ensures { self.new ≡ gone_row lease clock fs self.old }
    {
        if let Some(known) = &mut self.confirmed {
            known.add_moved(lease, clock, fs);
        }
    }

    /// The client has asked where the file system is.
    pub fn drop_moved(&mut self, fs: FsNum)
        ensures { self.new ≡ probed_row fs self.old }
    {
        if let Some(known) = &mut self.confirmed {
            known.drop_moved(fs);
        }
    }
}

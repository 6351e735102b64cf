//! The forms that names have on the wire.
ghost use Rattle.std.specs.Prelude.{◌≡◌, ◌≤◌, ◌<◌, ◌^◌, ◌++◌, ℕ, List, length, Some};
ghost use Rattle.nm_types.specs.Wire.{word, word_in, hyper_in, AreBytes, is_zeros, is_ones, stateid_bytes, stateid_of, stateid_in, IsMade, handle_bytes, handle_of, IsHandle};
ghost use Rattle.nm_types.specs.declared.calls.StateId.{StateId as AnyStateId};
ghost use Rattle.nm_types.specs.declared.calls.StateRef.TheVariants.{Zeros, Ones, Named};
ghost use Rattle.nm_types.specs.declared.wire.Handle.{Handle as AnyHandle};

use crate::{StateId, StateRef};

/// The name of a file on the wire (RFC 7530, 4): its file system and its number there. The pseudo root, above all
/// file systems, is file 0 of file system 0xffffffff.
#[derive(Clone, Copy, Debug)]
pub struct Handle {
    pub fs: u32,
    pub file: u64,
}

impl StateRef {
    /// The stateid that a request gives by a seqid and the 12 bytes of its `other` (RFC 7530, 9.1.4): the file system in
    /// 4 bytes and the counter in 8. All zeros and all ones are the special ones (9.1.4.3).
    #[tactic(auto, unfolding(crate::specs::Wire::stateid_of))]
    pub fn read(seqid: u32, other: &[u8; 12]) -> StateRef
        ensures { result ≡ stateid_of seqid other.now }
    {
        let stateid = StateId {
            seqid,
            fs: word_of(other),
            counter: hyper_of(&other[4..]),
        };
        if stateid.is_zeros() {
            StateRef::Zeros
        } else if stateid.is_ones() {
            StateRef::Ones
        } else {
            StateRef::Named(stateid)
        }
    }

    /// Its 16 bytes: the seqid, and `other`.
    #[tactic(auto, unfolding(crate::specs::Wire::stateid_bytes, crate::specs::Wire::word, crate::specs::Wire::hyper))]
    pub fn wire(&self) -> [u8; 16]
        ensures { result ≡ stateid_bytes self.now }
    {
        match self {
            StateRef::Zeros => [0; 16],
            StateRef::Ones => [255; 16],
            StateRef::Named(stateid) => {
                let [s0, s1, s2, s3] = stateid.seqid.to_be_bytes();
                let [f0, f1, f2, f3] = stateid.fs.to_be_bytes();
                let [c0, c1, c2, c3, c4, c5, c6, c7] = stateid.counter.to_be_bytes();
                [
                    s0, s1, s2, s3, f0, f1, f2, f3, c0, c1, c2, c3, c4, c5, c6, c7,
                ]
            }
        }
    }
}

impl StateId {
    // Whether all its bytes are 0.
    #[tactic(auto, unfolding(crate::specs::Wire::is_zeros))]
    fn is_zeros(&self) -> bool
        ensures { result ≡ is_zeros self.now }
    {
        self.seqid == 0 && self.fs == 0 && self.counter == 0
    }

    // Whether all its bytes are 255.
    #[tactic(auto, unfolding(crate::specs::Wire::is_ones))]
    fn is_ones(&self) -> bool
        ensures { result ≡ is_ones self.now }
    {
        self.seqid == u32::MAX && self.fs == u32::MAX && self.counter == u64::MAX
    }
}

impl Handle {
    /// The file that is named by these bytes. `None` exactly where there aren't 16 of them, the last word isn't 0, or the
    /// file system is past 63 and the file isn't the pseudo root.
    #[tactic(auto, unfolding(crate::specs::Wire::handle_of))]
    pub fn read(bytes: &[u8]) -> Option<Handle>
        ensures { result ≡ handle_of bytes.now }
    {
        if bytes.len() != 16 || word_of(&bytes[12..]) != 0 {
            return None;
        }
        let handle = Handle {
            fs: word_of(bytes),
            file: hyper_of(&bytes[4..]),
        };
        if handle.fs < 64 || handle.fs == u32::MAX && handle.file == 0 {
            Some(handle)
        } else {
            None
        }
    }

    /// Its 16 bytes: the file system in 4, the number of the file in 8, and a word that is 0.
    #[tactic(auto, unfolding(crate::specs::Wire::handle_bytes, crate::specs::Wire::word, crate::specs::Wire::hyper))]
    pub fn wire(&self) -> [u8; 16]
        ensures { result ≡ handle_bytes self.now }
    {
        let [s0, s1, s2, s3] = self.fs.to_be_bytes();
        let [f0, f1, f2, f3, f4, f5, f6, f7] = self.file.to_be_bytes();
        [s0, s1, s2, s3, f0, f1, f2, f3, f4, f5, f6, f7, 0, 0, 0, 0]
    }
}

// The number in the first 4 bytes.
#[tactic(auto, unfolding(crate::specs::Wire::word_in))]
fn word_of(bytes: &[u8]) -> u32
    requires { 4 ≤ length bytes.now }
    ensures { result ≡ word_in bytes.now }
{
    u32::from_be_bytes([bytes[0], bytes[1], bytes[2], bytes[3]])
}

// The number in the first 8 bytes.
#[tactic(auto, unfolding(crate::specs::Wire::hyper_in))]
fn hyper_of(bytes: &[u8]) -> u64
    requires { 8 ≤ length bytes.now }
    ensures { result ≡ hyper_in bytes.now }
{
    u64::from_be_bytes([
        bytes[0], bytes[1], bytes[2], bytes[3], bytes[4], bytes[5], bytes[6], bytes[7],
    ])
}

/// Each stateid is read as it is written: the special ones, and those that a server makes. And what is read of 16 bytes
/// is written as these.
pub fn stateids_are_read_as_written()
    ensures zeros { stateid_in (stateid_bytes Zeros) ≡ Zeros }
    ensures ones { stateid_in (stateid_bytes Ones) ≡ Ones }
    ensures made { (s : AnyStateId) → IsMade s → stateid_in (stateid_bytes (Named s)) ≡ Named s }
    ensures written { (seqid : ℕ) (other : List ℕ) → seqid < 2 ^ 32 → length other ≡ 12 → AreBytes other
        → stateid_bytes (stateid_of seqid other) ≡ word seqid ++ other }
{}

/// Each filehandle that is read of some bytes is written as these, and it is read again.
pub fn handles_are_read_as_written()
    ensures read { (h : AnyHandle) → IsHandle h → handle_of (handle_bytes h) ≡ Some h }
    ensures written { (bytes : List ℕ) (h : AnyHandle) → AreBytes bytes → handle_of bytes ≡ Some h
        → (handle_bytes h ≡ bytes) × IsHandle h }
{}

//! The items before a call's body (RFC 5531, 9).
ghost use Rattle.std.specs.Prelude.{◌≡◌, drop};
ghost use Rattle.std.specs.Option.{option_map};
ghost use Rattle.nm_xdr.specs.Places.{Gives};
ghost use Rattle.nm_rpc.specs.Messages.{header_at, word_from, auth_from};

use nm_xdr::{Cursor, XdrFault};

/// All items before a call's body.
#[derive(Clone, Copy)]
pub(crate) struct Header<'a> {
    pub(crate) xid: u32,
    /// 0 for a call.
    pub(crate) kind: u32,
    pub(crate) rpc_version: u32,
    pub(crate) program: u32,
    pub(crate) version: u32,
    pub(crate) procedure: u32,
    pub(crate) flavor: u32,
    pub(crate) credential: &'a [u8],
    pub(crate) verifier_flavor: u32,
    pub(crate) verifier: &'a [u8],
}

/// Takes the items of a header. The fault is at the first byte of the first item that can't be read.
#[tactic(auto, unfolding(crate::specs::Messages::header_at))]
pub(crate) fn take_header<'a>(cursor: &mut Cursor<'a>) -> Result<Header<'a>, XdrFault>
    ensures { Gives (λ h. record {
      xid = h.xid;
      kind = h.kind;
      rpc_version = h.rpc_version;
      program = h.program;
      version = h.version;
      procedure = h.procedure;
      flavor = h.flavor;
      credential = h.credential.now;
      verifier_flavor = h.verifier_flavor;
      verifier = h.verifier.now;
    })
        header_at cursor.old result cursor.new }
{
    let xid = cursor.take_u32()?;
    let kind = cursor.take_u32()?;
    let rpc_version = cursor.take_u32()?;
    let program = cursor.take_u32()?;
    let version = cursor.take_u32()?;
    let procedure = cursor.take_u32()?;
    let flavor = cursor.take_u32()?;
    let credential = cursor.take_bytes(400)?;
    let verifier_flavor = cursor.take_u32()?;
    let verifier = cursor.take_bytes(400)?;
    Ok(Header {
        xid,
        kind,
        rpc_version,
        program,
        version,
        procedure,
        flavor,
        credential,
        verifier_flavor,
        verifier,
    })
}

/// The word at a place, where the bytes reach so far.
#[tactic(auto, unfolding(crate::specs::Messages::word_from))]
pub(crate) fn word_at_place(bytes: &[u8], place: usize) -> Option<u32>
    ensures { result ≡ word_from place bytes.now }
{
    let mut cursor = Cursor::new(behind(bytes, place));
    match cursor.take_u32() {
        Ok(word) => Some(word),
        Err(_) => None,
    }
}

/// The credential or the verifier at a place, where it can be read.
#[tactic(auto, unfolding(crate::specs::Messages::auth_from))]
pub(crate) fn auth_at_place(bytes: &[u8], place: usize) -> Option<&[u8]>
    ensures { option_map (λ b. b.now) result ≡ auth_from place bytes.now }
{
    let mut cursor = Cursor::new(behind(bytes, place));
    match cursor.take_bytes(400) {
        Ok(auth) => Some(auth),
        Err(_) => None,
    }
}

// The bytes behind a place, of which there may be none.
fn behind(bytes: &[u8], place: usize) -> &[u8]
    ensures { result.now ≡ drop place bytes.now }
{
    if place < bytes.len() {
        &bytes[place..]
    } else {
        &[]
    }
}

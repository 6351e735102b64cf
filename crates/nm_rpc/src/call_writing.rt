//! Writing of calls.
ghost use Rattle.std.specs.Prelude.{◌≡◌, ◌≤◌, ◌++◌, [], length, IfOk, OnOk, OnErr, true};
ghost use Rattle.nm_xdr.specs.Items.{opaque};
ghost use Rattle.nm_xdr.specs.Places.{Puts};
ghost use Rattle.nm_rpc.specs.Messages.{sys_credential, credential as credential_of, header_of, header, call, has_spelling};

use crate::CallHead;
use nm_types::Memory;
use nm_xdr::Writer;
use std::alloc::Global;

/// Puts what stands before the body of a call (RFC 5531, 9): the body is put behind it. The credential is of AUTH_NONE,
/// without a name, or of AUTH_SYS, with stamp 0, gid 0 and no gids, and the verifier is empty. The head's `body` isn't
/// looked at.
///
/// The head has flavor 0 with uid 0 and no machine, or flavor 1 with a machine of at most 255 bytes. Memory where there is
/// none for these bytes.
pub fn put_call_head(writer: &mut Writer, head: &CallHead) -> Result<(), Memory>
    requires { has_spelling head.now ≡ true }
    ensures ok { OnOk result (writer.new ≡ writer.old ++ header (header_of head.now)) }
    ensures err { OnErr result (writer.new ≡ writer.old) }
{
    let before = writer.len();
    writer.reserve(head.machine.items().len() + 64)?;
    let put = put_header(writer, head);
    if put.is_err() {
        writer.cut_back(before);
    }
    put
}

/// Writes a call with its body, behind the head that [`put_call_head`] puts. Where the call is read, the head's `body` is the
/// place after the header.
///
/// The head has flavor 0 with uid 0 and no machine, or flavor 1 with a machine of at most 255 bytes.
#[tactic(auto, unfolding(crate::specs::Messages::call))]
pub fn write_call(alloc: Global, head: &CallHead, body: &[u8]) -> Result<Vec<u8>, Memory>
    requires { has_spelling head.now ≡ true }
    ensures { IfOk result (λ bytes. bytes.items ≡ call head.now body.now) }
{
    let mut writer = Writer::new(alloc);
    put_whole_call(&mut writer, head, body)?;
    Ok(writer.finish())
}

fn put_whole_call(writer: &mut Writer, head: &CallHead, body: &[u8]) -> Result<(), Memory>
    requires { has_spelling head.now ≡ true }
    ensures { OnOk result (writer.new ≡ (writer.old ++ header (header_of head.now)) ++ body.now) }
{
    writer.reserve(body.len().saturating_add(320))?;
    put_call_head(writer, head)?;
    writer.put_bytes(body)
}

// The items of a header.
#[tactic(auto, using(nm_xdr::proofs::PutLaws::front_there, nm_xdr::proofs::PutLaws::front_stands), unfolding(crate::specs::Messages::header))]
fn put_header(writer: &mut Writer, head: &CallHead) -> Result<(), Memory>
    requires { has_spelling head.now ≡ true }
    ensures { Puts writer.old (header (header_of head.now)) result writer.new }
{
    writer.put_numbers(&[
        head.xid,
        0,
        2,
        head.program,
        head.version,
        head.procedure,
        head.principal.flavor,
    ])?;
    put_credential(writer, head)?;
    writer.put_u32(0)?;
    writer.put_opaque(&[])?;
    Ok(())
}

// The credential of whom the head names: its length comes into its place behind it.
#[tactic(auto, using(nm_xdr::proofs::PutLaws::front_there, nm_xdr::proofs::PutLaws::front_stands, nm_xdr::proofs::PutLaws::closed_opaque))]
fn put_credential(writer: &mut Writer, head: &CallHead) -> Result<(), Memory>
    requires { has_spelling head.now ≡ true }
    ensures { Puts writer.old (opaque (credential_of head.now)) result writer.new }
{
    let start = writer.len();
    writer.put_u32(0)?;
    put_inside(writer, head)?;
    writer.close_opaque(start)?;
    Ok(())
}

#[tactic(auto, using(nm_xdr::proofs::PutLaws::front_there, nm_xdr::proofs::PutLaws::front_stands), unfolding(crate::specs::Messages::credential))]
fn put_inside(writer: &mut Writer, head: &CallHead) -> Result<(), Memory>
    requires { has_spelling head.now ≡ true }
    ensures { Puts writer.old (credential_of head.now) result writer.new }
{
    if head.principal.flavor == 0 {
        return Ok(());
    }
    put_sys_credential(writer, head.machine.items(), head.principal.uid)?;
    Ok(())
}

// Stamp and gid are 0, and there are no gids.
#[tactic(auto, using(nm_xdr::proofs::PutLaws::front_there, nm_xdr::proofs::PutLaws::front_stands), unfolding(crate::specs::Messages::sys_credential))]
fn put_sys_credential(writer: &mut Writer, machine: &[u8], uid: u32) -> Result<(), Memory>
    requires { length machine.now ≤ 255 }
    ensures { Puts writer.old (sys_credential (record { stamp = 0; machine = machine.now; uid = uid; gid = 0; gids = [] })) result writer.new }
{
    writer.put_u32(0)?;
    writer.put_opaque(machine)?;
    writer.put_u32(uid)?;
    writer.put_u32(0)?;
    writer.put_u32(0)?;
    Ok(())
}

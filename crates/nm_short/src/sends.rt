//! What the clients of a script send.
ghost use Rattle.std.specs.Prelude.{◌≡◌, ◌≤◌, ◌++◌, length, codes, IfOk, option_map};
ghost use Rattle.nm_types.specs.Wire.{hyper};
ghost use Rattle.nm_short.specs.Known.{seqid_of, held_of, party_of, owner_text, no_attributes, size_alone, open_call, confirm_call, close_call, downgrade_call, read_call, write_call, size_call, remove_call, mkdir_call, list_call, call_of};

use crate::clients::{Clients, Holding};
use crate::locking::{make_lookup, make_release};
use nm_script::ClientRow;
use nm_types::{
    Action, Bytes, Call, Claim, CloseAction, CloseArgs, CreateArgs, CreateType, Deed, Fattr,
    Instance, Items, Memory, OpenAction, OpenArgs, OpenConfirmArgs, OpenDowngradeArgs, OpenType,
    Opened, Principal, ReadAction, ReadArgs, ReadDirArgs, RemoveArgs, SetAttrArgs, SizeAction,
    Stable, StateRef, WriteAction, WriteArgs,
};
use std::alloc::Global;

// Bytes behind others.
fn joined(alloc: Global, front: &[u8], back: &[u8]) -> Result<Vec<u8>, Memory>
    ensures { IfOk result (λ bytes. bytes.items ≡ front.now ++ back.now) }
{
    let mut bytes = Vec::from_slice(alloc, front)?;
    bytes.extend_from_slice(back)?;
    Ok(bytes)
}

/// A client's instance.
#[tactic(auto, unfolding(crate::specs::Known::party_of))]
pub fn instance_of(alloc: Global, client: u32, row: &ClientRow) -> Result<Instance, Memory>
    requires { length row.now.name ≤ 16 }
    ensures { IfOk result (λ instance. instance ≡ party_of client row.now) }
{
    let id = joined(alloc, b"nfsmove/", row.name.items())?;
    let principal = Principal {
        flavor: 1,
        uid: client,
    };
    match Instance::make(&id, row.verifier, principal) {
        Ok(instance) => Ok(instance),
        Err(_) => unreachable!(),
    }
}

/// An owner's text.
#[tactic(auto, unfolding(crate::specs::Known::owner_text))]
pub fn text_of_owner(alloc: Global, row: &ClientRow, owner: &Bytes) -> Result<Bytes, Memory>
    ensures { IfOk result (λ text. text ≡ owner_text row.now owner.now) }
{
    let mut text = joined(alloc, row.name.items(), b"/")?;
    text.extend_from_slice(owner.items())?;
    Ok(Items::from_slice(alloc, &text)?)
}

// No attributes.
fn no_attributes(alloc: Global) -> Fattr
    ensures { result ≡ no_attributes }
{
    Fattr {
        words: Items::new(alloc),
        values: Items::new(alloc),
    }
}

// The eight bytes of a size.
#[tactic(auto, unfolding(nm_types::specs::Wire::hyper))]
fn bytes_of_size(alloc: Global, size: u64) -> Result<Bytes, Memory>
    ensures { IfOk result (λ bytes. bytes ≡ hyper size) }
{
    Ok(Items::from_slice(alloc, &size.to_be_bytes())?)
}

// A size alone.
fn size_alone(alloc: Global, size: u64) -> Result<Fattr, Memory>
    ensures { IfOk result (λ fattr. fattr ≡ size_alone size) }
{
    Ok(Fattr {
        words: Items::from_slice(alloc, &[16])?,
        values: bytes_of_size(alloc, size)?,
    })
}

// The call of an OPEN.
#[tactic(auto, unfolding(crate::specs::Known::open_call))]
fn make_open(
    alloc: Global,
    client: u32,
    row: &ClientRow,
    a: &OpenAction,
    opentype: OpenType,
    seqid: u32,
) -> Result<Call, Memory>
    requires { length row.now.name ≤ 16 }
    ensures { IfOk result (λ call. call ≡ open_call client row.now a.now opentype seqid) }
{
    let args = OpenArgs {
        seqid,
        access: a.access,
        deny: a.deny,
        owner: text_of_owner(alloc, row, &a.owner)?,
        opentype,
        claim: Claim::Null(a.file.copy()?),
    };
    Ok(Call {
        caller: Some(instance_of(alloc, client, row)?),
        file: 1,
        deed: Deed::Open(args),
    })
}

// The call of a CLOSE.
#[tactic(auto, unfolding(crate::specs::Known::close_call))]
fn make_close(
    alloc: Global,
    client: u32,
    row: &ClientRow,
    held: &Holding,
    seqid: u32,
) -> Result<Call, Memory>
    requires { length row.now.name ≤ 16 }
    ensures { IfOk result (λ call. call ≡ close_call client row.now held.now seqid) }
{
    let args = CloseArgs {
        seqid,
        stateid: StateRef::Named(held.stateid),
    };
    Ok(Call {
        caller: Some(instance_of(alloc, client, row)?),
        file: held.handle,
        deed: Deed::Close(args),
    })
}

/// The call of an OPEN_CONFIRM of what an OPEN told.
#[tactic(auto, unfolding(crate::specs::Known::confirm_call))]
pub fn make_confirm(caller: Option<Instance>, opened: &Opened, seqid: u32) -> Call
    ensures { result ≡ confirm_call caller opened.now seqid }
{
    let args = OpenConfirmArgs {
        stateid: StateRef::Named(opened.ok.stateid),
        seqid,
    };
    Call {
        caller,
        file: opened.file,
        deed: Deed::OpenConfirm(args),
    }
}

// The call of an OPEN_DOWNGRADE.
#[tactic(auto, unfolding(crate::specs::Known::downgrade_call))]
fn make_downgrade(
    alloc: Global,
    client: u32,
    row: &ClientRow,
    a: &OpenAction,
    held: &Holding,
    seqid: u32,
) -> Result<Call, Memory>
    requires { length row.now.name ≤ 16 }
    ensures { IfOk result (λ call. call ≡ downgrade_call client row.now a.now held.now seqid) }
{
    let args = OpenDowngradeArgs {
        stateid: StateRef::Named(held.stateid),
        seqid,
        access: a.access,
        deny: a.deny,
    };
    Ok(Call {
        caller: Some(instance_of(alloc, client, row)?),
        file: held.handle,
        deed: Deed::OpenDowngrade(args),
    })
}

// The call of a READ.
#[tactic(auto, unfolding(crate::specs::Known::read_call))]
fn make_read(
    alloc: Global,
    client: u32,
    row: &ClientRow,
    a: &ReadAction,
    held: &Holding,
) -> Result<Call, Memory>
    requires { length row.now.name ≤ 16 }
    ensures { IfOk result (λ call. call ≡ read_call client row.now a.now held.now) }
{
    let open = StateRef::Named(held.stateid);
    let args = ReadArgs {
        stateid: open,
        offset: a.offset,
        count: a.count,
    };
    Ok(Call {
        caller: Some(instance_of(alloc, client, row)?),
        file: held.handle,
        deed: Deed::Read(args),
    })
}

// The call of a WRITE.
#[tactic(auto, unfolding(crate::specs::Known::write_call))]
fn make_write(
    alloc: Global,
    client: u32,
    row: &ClientRow,
    a: &WriteAction,
    held: &Holding,
) -> Result<Call, Memory>
    requires { length row.now.name ≤ 16 }
    ensures { IfOk result (λ call. call ≡ write_call client row.now a.now held.now) }
{
    let args = WriteArgs {
        stateid: StateRef::Named(held.stateid),
        offset: a.offset,
        stable: Stable::FileSync,
        data: a.data.copy()?,
    };
    Ok(Call {
        caller: Some(instance_of(alloc, client, row)?),
        file: held.handle,
        deed: Deed::Write(args),
    })
}

// The call of a SETATTR of a size.
#[tactic(auto, unfolding(crate::specs::Known::size_call))]
fn make_size(
    alloc: Global,
    client: u32,
    row: &ClientRow,
    a: &SizeAction,
    held: &Holding,
) -> Result<Call, Memory>
    requires { length row.now.name ≤ 16 }
    ensures { IfOk result (λ call. call ≡ size_call client row.now a.now held.now) }
{
    let args = SetAttrArgs {
        stateid: StateRef::Named(held.stateid),
        attributes: size_alone(alloc, a.size)?,
    };
    Ok(Call {
        caller: Some(instance_of(alloc, client, row)?),
        file: held.handle,
        deed: Deed::SetAttr(args),
    })
}

// The call of a REMOVE.
#[tactic(auto, unfolding(crate::specs::Known::remove_call))]
fn make_remove(name: &Bytes) -> Result<Call, Memory>
    ensures { IfOk result (λ call. call ≡ remove_call name.now) }
{
    Ok(Call {
        caller: None,
        file: 1,
        deed: Deed::Remove(RemoveArgs { name: name.copy()? }),
    })
}

// The call of a CREATE of a directory.
#[tactic(auto, unfolding(crate::specs::Known::mkdir_call))]
fn make_directory(alloc: Global, name: &Bytes) -> Result<Call, Memory>
    ensures { IfOk result (λ call. call ≡ mkdir_call name.now) }
{
    let args = CreateArgs {
        kind: CreateType::Directory,
        name: name.copy()?,
        attributes: no_attributes(alloc),
    };
    Ok(Call {
        caller: None,
        file: 1,
        deed: Deed::Create(args),
    })
}

/// The call of a READDIR of the root: the entries behind a cookie.
#[tactic(auto, unfolding(crate::specs::Known::list_call))]
pub fn make_list(alloc: Global, cookie: u64) -> Call
    ensures { result ≡ list_call cookie }
{
    let args = ReadDirArgs {
        cookie,
        verifier: 0,
        dircount: 0,
        maxcount: 65536,
        words: Items::new(alloc),
    };
    Call {
        caller: None,
        file: 1,
        deed: Deed::ReadDir(args),
    }
}

impl Clients {
    // The call of an open or of a create.
    fn open_call(
        &self,
        client: u32,
        row: &ClientRow,
        a: &OpenAction,
        opentype: OpenType,
    ) -> Result<Call, Memory>
        requires { length row.now.name ≤ 16 }
        ensures { IfOk result (λ call. call ≡ open_call client row.now a.now opentype (seqid_of client a.now.fs a.now.owner self.now.seqids)) }
    {
        let seqid = self.seqid_of(client, a.fs, &a.owner);
        Ok(make_open(self.alloc, client, row, a, opentype, seqid)?)
    }

    // The call of a close, where the client holds the open.
    fn close_call(
        &self,
        client: u32,
        row: &ClientRow,
        a: &CloseAction,
    ) -> Result<Option<Call>, Memory>
        requires { length row.now.name ≤ 16 }
        ensures { IfOk result (λ call. call ≡ option_map (λ held. close_call client row.now held (seqid_of client a.now.fs a.now.owner self.now.seqids)) (held_of client a.now.fs a.now.owner a.now.file self.now.held)) }
    {
        let seqid = self.seqid_of(client, a.fs, &a.owner);
        match self.held_of(client, a.fs, &a.owner, &a.file) {
            Some(held) => Ok(Some(make_close(self.alloc, client, row, held, seqid)?)),
            None => Ok(None),
        }
    }

    // The call of a downgrade, where the client holds the open.
    fn downgrade_call(
        &self,
        client: u32,
        row: &ClientRow,
        a: &OpenAction,
    ) -> Result<Option<Call>, Memory>
        requires { length row.now.name ≤ 16 }
        ensures { IfOk result (λ call. call ≡ option_map (λ held. downgrade_call client row.now a.now held (seqid_of client a.now.fs a.now.owner self.now.seqids)) (held_of client a.now.fs a.now.owner a.now.file self.now.held)) }
    {
        let seqid = self.seqid_of(client, a.fs, &a.owner);
        match self.held_of(client, a.fs, &a.owner, &a.file) {
            Some(held) => Ok(Some(make_downgrade(self.alloc, client, row, a, held, seqid)?)),
            None => Ok(None),
        }
    }

    // The call of a read, where the client holds the open.
    fn read_call(
        &self,
        client: u32,
        row: &ClientRow,
        a: &ReadAction,
    ) -> Result<Option<Call>, Memory>
        requires { length row.now.name ≤ 16 }
        ensures { IfOk result (λ call. call ≡ option_map (read_call client row.now a.now) (held_of client a.now.fs a.now.owner a.now.file self.now.held)) }
    {
        match self.held_of(client, a.fs, &a.owner, &a.file) {
            Some(held) => Ok(Some(make_read(self.alloc, client, row, a, held)?)),
            None => Ok(None),
        }
    }

    // The call of a write, where the client holds the open.
    fn write_call(
        &self,
        client: u32,
        row: &ClientRow,
        a: &WriteAction,
    ) -> Result<Option<Call>, Memory>
        requires { length row.now.name ≤ 16 }
        ensures { IfOk result (λ call. call ≡ option_map (write_call client row.now a.now) (held_of client a.now.fs a.now.owner a.now.file self.now.held)) }
    {
        match self.held_of(client, a.fs, &a.owner, &a.file) {
            Some(held) => Ok(Some(make_write(self.alloc, client, row, a, held)?)),
            None => Ok(None),
        }
    }

    // The call of a change of size, where the client holds the open.
    fn size_call(
        &self,
        client: u32,
        row: &ClientRow,
        a: &SizeAction,
    ) -> Result<Option<Call>, Memory>
        requires { length row.now.name ≤ 16 }
        ensures { IfOk result (λ call. call ≡ option_map (size_call client row.now a.now) (held_of client a.now.fs a.now.owner a.now.file self.now.held)) }
    {
        match self.held_of(client, a.fs, &a.owner, &a.file) {
            Some(held) => Ok(Some(make_size(self.alloc, client, row, a, held)?)),
            None => Ok(None),
        }
    }

    /// The call that a client's action sends first. `None` exactly where it needs a stateid that the client hasn't.
    #[tactic(auto, unfolding(crate::specs::Known::call_of))]
    pub fn call_of(
        &self,
        client: u32,
        row: &ClientRow,
        action: &Action,
    ) -> Result<Option<Call>, Memory>
        requires { length row.now.name ≤ 16 }
        ensures { IfOk result (λ call. call ≡ call_of client row.now self.now action.now) }
    {
        match action {
            Action::Open(a) => Ok(Some(self.open_call(client, row, a, OpenType::NoCreate)?)),
            Action::Create(a) => {
                let opentype = OpenType::Unchecked(no_attributes(self.alloc));
                Ok(Some(self.open_call(client, row, a, opentype)?))
            }
            Action::Close(a) => Ok(self.close_call(client, row, a)?),
            Action::Downgrade(a) => Ok(self.downgrade_call(client, row, a)?),
            Action::Lock(a) => Ok(self.lock_call(client, row, a)?),
            Action::Unlock(a) => Ok(self.unlock_call(client, row, a)?),
            Action::Test(a) => Ok(Some(make_lookup(&a.file)?)),
            Action::Release(a) => Ok(Some(make_release(self.alloc, client, row, a)?)),
            Action::Read(a) => Ok(self.read_call(client, row, a)?),
            Action::Write(a) => Ok(self.write_call(client, row, a)?),
            Action::Size(a) => Ok(self.size_call(client, row, a)?),
            Action::Remove(a) => Ok(Some(make_remove(&a.file)?)),
            Action::MkDir(a) => Ok(Some(make_directory(self.alloc, &a.file)?)),
            Action::List(_) => Ok(Some(make_list(self.alloc, 0))),
        }
    }
}

//! The lines that are run, with numbers for the names that the head gave.
ghost use Rattle.std.specs.Prelude.{◌≡◌, map};
ghost use Rattle.nm_script.specs.Reading as spec;
ghost use Rattle.nm_script.specs.Reading.{Gives};

use crate::fault::LineFault;
use crate::names::{client_number, file_system_number, server_number};
use crate::words::{access, bytes, count, deny, is_file_name, is_name, is_word, lock_kind, number};
use crate::{Head, Line, Why};
use nm_types::{
    Action, Bytes, CloseAction, LockAction, NameAction, OpenAction, ReadAction, ReleaseAction,
    SizeAction, UnlockAction, WriteAction,
};
use std::alloc::Global;

/// `F FILE ACC DENY OWNER`. The keywords are judged before the names.
#[tactic(auto, unfolding(crate::specs::Reading::open_action))]
fn open_action(
    alloc: Global,
    head: &Head,
    fs: &[u8],
    file: &[u8],
    access_word: &[u8],
    deny_word: &[u8],
    owner: &[u8],
) -> Result<OpenAction, LineFault>
    ensures { Gives result (spec.open_action head.now fs.now file.now access_word.now deny_word.now owner.now) }
{
    let access = access(access_word)?;
    let deny = deny(deny_word)?;
    let fs = file_system_number(head, fs)?;
    if !is_file_name(file) || !is_name(owner) {
        return Err(LineFault::Bad(Why::Name));
    }
    Ok(OpenAction {
        fs,
        file: Bytes::from_slice(alloc, file)?,
        access,
        deny,
        owner: Bytes::from_slice(alloc, owner)?,
    })
}

/// `F FILE OWNER`.
#[tactic(auto, unfolding(crate::specs::Reading::close_action))]
fn close_action(
    alloc: Global,
    head: &Head,
    fs: &[u8],
    file: &[u8],
    owner: &[u8],
) -> Result<CloseAction, LineFault>
    ensures { Gives result (spec.close_action head.now fs.now file.now owner.now) }
{
    let fs = file_system_number(head, fs)?;
    if !is_file_name(file) || !is_name(owner) {
        return Err(LineFault::Bad(Why::Name));
    }
    Ok(CloseAction {
        fs,
        file: Bytes::from_slice(alloc, file)?,
        owner: Bytes::from_slice(alloc, owner)?,
    })
}

/// `F FILE KIND OFFSET LENGTH OWNER`. The keyword is judged before the names, and these before the numbers.
#[tactic(auto, unfolding(crate::specs::Reading::lock_action))]
fn lock_action(
    alloc: Global,
    head: &Head,
    fs: &[u8],
    file: &[u8],
    kind_word: &[u8],
    offset_word: &[u8],
    length_word: &[u8],
    owner: &[u8],
) -> Result<LockAction, LineFault>
    ensures { Gives result (spec.lock_action head.now fs.now file.now kind_word.now offset_word.now length_word.now owner.now) }
{
    let kind = lock_kind(kind_word)?;
    let CloseAction { fs, file, owner } = close_action(alloc, head, fs, file, owner)?;
    let offset = number(offset_word)?;
    let length = number(length_word)?;
    Ok(LockAction {
        fs,
        file,
        kind,
        offset,
        length,
        owner,
    })
}

/// `F FILE OFFSET LENGTH OWNER`. The names are judged before the numbers.
#[tactic(auto, unfolding(crate::specs::Reading::unlock_action))]
fn unlock_action(
    alloc: Global,
    head: &Head,
    fs: &[u8],
    file: &[u8],
    offset_word: &[u8],
    length_word: &[u8],
    owner: &[u8],
) -> Result<UnlockAction, LineFault>
    ensures { Gives result (spec.unlock_action head.now fs.now file.now offset_word.now length_word.now owner.now) }
{
    let CloseAction { fs, file, owner } = close_action(alloc, head, fs, file, owner)?;
    let offset = number(offset_word)?;
    let length = number(length_word)?;
    Ok(UnlockAction {
        fs,
        file,
        offset,
        length,
        owner,
    })
}

/// `F OWNER`.
#[tactic(auto, unfolding(crate::specs::Reading::release_action))]
fn release_action(
    alloc: Global,
    head: &Head,
    fs: &[u8],
    owner: &[u8],
) -> Result<ReleaseAction, LineFault>
    ensures { Gives result (spec.release_action head.now fs.now owner.now) }
{
    let fs = file_system_number(head, fs)?;
    if !is_name(owner) {
        return Err(LineFault::Bad(Why::Name));
    }
    Ok(ReleaseAction {
        fs,
        owner: Bytes::from_slice(alloc, owner)?,
    })
}

/// `F FILE OFFSET COUNT OWNER`. The names are judged before the numbers.
#[tactic(auto, unfolding(crate::specs::Reading::read_action))]
fn read_action(
    alloc: Global,
    head: &Head,
    fs: &[u8],
    file: &[u8],
    offset_word: &[u8],
    count_word: &[u8],
    owner: &[u8],
) -> Result<ReadAction, LineFault>
    ensures { Gives result (spec.read_action head.now fs.now file.now offset_word.now count_word.now owner.now) }
{
    let CloseAction { fs, file, owner } = close_action(alloc, head, fs, file, owner)?;
    let offset = number(offset_word)?;
    let count = count(count_word)?;
    Ok(ReadAction {
        fs,
        file,
        offset,
        count,
        owner,
    })
}

/// `F FILE OFFSET HEX OWNER`. The names are judged before the numbers.
#[tactic(auto, unfolding(crate::specs::Reading::write_action))]
fn write_action(
    alloc: Global,
    head: &Head,
    fs: &[u8],
    file: &[u8],
    offset_word: &[u8],
    hex: &[u8],
    owner: &[u8],
) -> Result<WriteAction, LineFault>
    ensures { Gives result (spec.write_action head.now fs.now file.now offset_word.now hex.now owner.now) }
{
    let CloseAction { fs, file, owner } = close_action(alloc, head, fs, file, owner)?;
    let offset = number(offset_word)?;
    let data = bytes(alloc, hex)?;
    Ok(WriteAction {
        fs,
        file,
        offset,
        data,
        owner,
    })
}

/// `F FILE N OWNER`. The names are judged before the number.
#[tactic(auto, unfolding(crate::specs::Reading::size_action))]
fn size_action(
    alloc: Global,
    head: &Head,
    fs: &[u8],
    file: &[u8],
    size_word: &[u8],
    owner: &[u8],
) -> Result<SizeAction, LineFault>
    ensures { Gives result (spec.size_action head.now fs.now file.now size_word.now owner.now) }
{
    let CloseAction { fs, file, owner } = close_action(alloc, head, fs, file, owner)?;
    let size = number(size_word)?;
    Ok(SizeAction {
        fs,
        file,
        size,
        owner,
    })
}

/// `F FILE`.
#[tactic(auto, unfolding(crate::specs::Reading::file_action))]
fn file_action(alloc: Global, head: &Head, fs: &[u8], file: &[u8]) -> Result<NameAction, LineFault>
    ensures { Gives result (spec.file_action head.now fs.now file.now) }
{
    let fs = file_system_number(head, fs)?;
    if !is_file_name(file) {
        return Err(LineFault::Bad(Why::Name));
    }
    Ok(NameAction {
        fs,
        file: Bytes::from_slice(alloc, file)?,
    })
}

/// `list F`.
#[tactic(auto, unfolding(crate::specs::Reading::root_at))]
fn on_root(head: &Head, verb: &[u8], fs: &[u8]) -> Result<Action, Why>
    ensures { result ≡ spec.root_at head.now verb.now fs.now }
{
    if !is_word(verb, b"list") {
        return Err(Why::Word);
    }
    Ok(Action::List(file_system_number(head, fs)?))
}

/// `remove F FILE`, `mkdir F FILE` or `release F OWNER`.
#[tactic(auto, unfolding(crate::specs::Reading::file_at))]
fn on_file(
    alloc: Global,
    head: &Head,
    verb: &[u8],
    fs: &[u8],
    file: &[u8],
) -> Result<Action, LineFault>
    ensures { Gives result (spec.file_at head.now verb.now fs.now file.now) }
{
    if is_word(verb, b"remove") {
        return Ok(Action::Remove(file_action(alloc, head, fs, file)?));
    }
    if is_word(verb, b"mkdir") {
        return Ok(Action::MkDir(file_action(alloc, head, fs, file)?));
    }
    if is_word(verb, b"release") {
        return Ok(Action::Release(release_action(alloc, head, fs, file)?));
    }
    Err(LineFault::Bad(Why::Word))
}

/// `close F FILE OWNER`.
#[tactic(auto, unfolding(crate::specs::Reading::close_at))]
fn close(
    alloc: Global,
    head: &Head,
    verb: &[u8],
    fs: &[u8],
    file: &[u8],
    owner: &[u8],
) -> Result<Action, LineFault>
    ensures { Gives result (spec.close_at head.now verb.now fs.now file.now owner.now) }
{
    if !is_word(verb, b"close") {
        return Err(LineFault::Bad(Why::Word));
    }
    Ok(Action::Close(close_action(alloc, head, fs, file, owner)?))
}

/// `size F FILE N OWNER`.
#[tactic(auto, unfolding(crate::specs::Reading::size_at))]
fn set_size(
    alloc: Global,
    head: &Head,
    verb: &[u8],
    fs: &[u8],
    file: &[u8],
    size: &[u8],
    owner: &[u8],
) -> Result<Action, LineFault>
    ensures { Gives result (spec.size_at head.now verb.now fs.now file.now size.now owner.now) }
{
    if !is_word(verb, b"size") {
        return Err(LineFault::Bad(Why::Word));
    }
    let size = size_action(alloc, head, fs, file, size, owner)?;
    Ok(Action::Size(size))
}

/// `open F FILE ACC DENY OWNER`, the same with `create` or `downgrade`, `read F FILE OFFSET COUNT OWNER`,
/// `write F FILE OFFSET HEX OWNER` or `unlock F FILE OFFSET LENGTH OWNER`.
#[tactic(auto, unfolding(crate::specs::Reading::open_at))]
fn on_open(
    alloc: Global,
    head: &Head,
    verb: &[u8],
    fs: &[u8],
    file: &[u8],
    first: &[u8],
    second: &[u8],
    owner: &[u8],
) -> Result<Action, LineFault>
    ensures { Gives result (spec.open_at head.now verb.now fs.now file.now first.now second.now owner.now) }
{
    if is_word(verb, b"open") {
        let opens = open_action(alloc, head, fs, file, first, second, owner)?;
        return Ok(Action::Open(opens));
    }
    if is_word(verb, b"create") {
        let opens = open_action(alloc, head, fs, file, first, second, owner)?;
        return Ok(Action::Create(opens));
    }
    if is_word(verb, b"downgrade") {
        let narrows = open_action(alloc, head, fs, file, first, second, owner)?;
        return Ok(Action::Downgrade(narrows));
    }
    if is_word(verb, b"read") {
        let reads = read_action(alloc, head, fs, file, first, second, owner)?;
        return Ok(Action::Read(reads));
    }
    if is_word(verb, b"write") {
        let writes = write_action(alloc, head, fs, file, first, second, owner)?;
        return Ok(Action::Write(writes));
    }
    if is_word(verb, b"unlock") {
        let unlocks = unlock_action(alloc, head, fs, file, first, second, owner)?;
        return Ok(Action::Unlock(unlocks));
    }
    Err(LineFault::Bad(Why::Word))
}

/// `lock F FILE KIND OFFSET LENGTH OWNER` or the same with `test`.
#[tactic(auto, unfolding(crate::specs::Reading::lock_at))]
fn on_lock(
    alloc: Global,
    head: &Head,
    verb: &[u8],
    fs: &[u8],
    file: &[u8],
    kind: &[u8],
    offset: &[u8],
    length: &[u8],
    owner: &[u8],
) -> Result<Action, LineFault>
    ensures { Gives result (spec.lock_at head.now verb.now fs.now file.now kind.now offset.now length.now owner.now) }
{
    if is_word(verb, b"lock") {
        let locks = lock_action(alloc, head, fs, file, kind, offset, length, owner)?;
        return Ok(Action::Lock(locks));
    }
    if is_word(verb, b"test") {
        let tests = lock_action(alloc, head, fs, file, kind, offset, length, owner)?;
        return Ok(Action::Test(tests));
    }
    Err(LineFault::Bad(Why::Word))
}

/// An action by its verb and the words behind it.
#[tactic(auto, unfolding(crate::specs::Reading::action_at))]
fn action(alloc: Global, head: &Head, verb: &[u8], words: &[&[u8]]) -> Result<Action, LineFault>
    ensures { Gives result (spec.action_at head.now verb.now (map (λ word. word.now) words.now)) }
{
    match words {
        [fs] => Ok(on_root(head, verb, fs)?),
        [fs, file] => on_file(alloc, head, verb, fs, file),
        [fs, file, owner] => close(alloc, head, verb, fs, file, owner),
        [fs, file, size, owner] => set_size(alloc, head, verb, fs, file, size, owner),
        [fs, file, first, second, owner] => {
            on_open(alloc, head, verb, fs, file, first, second, owner)
        }
        [fs, file, kind, offset, length, owner] => {
            on_lock(alloc, head, verb, fs, file, kind, offset, length, owner)
        }
        _ => Err(LineFault::Bad(Why::Word)),
    }
}

// The first of a fault of an action and one of its client's name.
#[tactic(auto, unfolding(crate::specs::Reading::first_fault))]
fn first_fault(fault: Why, client: Result<u32, Why>) -> Why
    ensures { result ≡ spec.first_fault fault client }
{
    match fault {
        Why::Word => Why::Word,
        _ => match client {
            Ok(_) => fault,
            Err(name) => name,
        },
    }
}

/// `do C ACTION`. The action's keywords are judged before the names, and its numbers behind them.
#[tactic(auto, unfolding(crate::specs::Reading::action_line))]
fn action_line(
    alloc: Global,
    head: &Head,
    client: &[u8],
    verb: &[u8],
    words: &[&[u8]],
) -> Result<Line, LineFault>
    ensures { Gives result (spec.action_line head.now client.now verb.now (map (λ word. word.now) words.now)) }
{
    let client = client_number(head, client);
    match action(alloc, head, verb, words) {
        Ok(action) => Ok(Line::Do {
            client: client?,
            action,
        }),
        Err(LineFault::Memory) => Err(LineFault::Memory),
        Err(LineFault::Bad(why)) => Err(LineFault::Bad(first_fault(why, client))),
    }
}

/// `do C finish`.
#[tactic(auto, unfolding(crate::specs::Reading::finish_line))]
fn finish_line(head: &Head, client: &[u8], verb: &[u8]) -> Result<Line, Why>
    ensures { result ≡ spec.finish_line head.now client.now verb.now }
{
    if !is_word(verb, b"finish") {
        return Err(Why::Word);
    }
    let client = client_number(head, client)?;
    Ok(Line::Finish { client })
}

/// `do C ACTION` or `do C finish`, by the words behind `do`.
#[tactic(auto, unfolding(crate::specs::Reading::do_at))]
fn do_line(alloc: Global, head: &Head, words: &[&[u8]]) -> Result<Line, LineFault>
    ensures { Gives result (spec.do_at head.now (map (λ word. word.now) words.now)) }
{
    match words {
        [client, verb] => Ok(finish_line(head, client, verb)?),
        [client, verb, rest @ ..] => action_line(alloc, head, client, verb, rest),
        _ => Err(LineFault::Bad(Why::Word)),
    }
}

/// `freeze F`, `abandon F`, `commit F`, `settle F` or `show F`.
#[tactic(auto, unfolding(crate::specs::Reading::fs_line))]
fn fs_line(head: &Head, verb: &[u8], fs: &[u8]) -> Result<Line, Why>
    ensures { result ≡ spec.fs_line head.now verb.now fs.now }
{
    if is_word(verb, b"freeze") {
        return Ok(Line::Freeze(file_system_number(head, fs)?));
    }
    if is_word(verb, b"abandon") {
        return Ok(Line::Abandon(file_system_number(head, fs)?));
    }
    if is_word(verb, b"commit") {
        return Ok(Line::Commit(file_system_number(head, fs)?));
    }
    if is_word(verb, b"settle") {
        return Ok(Line::Settle(file_system_number(head, fs)?));
    }
    if is_word(verb, b"show") {
        return Ok(Line::Show(file_system_number(head, fs)?));
    }
    Err(Why::Word)
}

/// `move F S` or `shift F S`.
#[tactic(auto, unfolding(crate::specs::Reading::fs_to_line))]
fn fs_to_line(head: &Head, verb: &[u8], fs: &[u8], to: &[u8]) -> Result<Line, Why>
    ensures { result ≡ spec.fs_to_line head.now verb.now fs.now to.now }
{
    if is_word(verb, b"move") {
        let fs = file_system_number(head, fs)?;
        let to = server_number(head, to)?;
        return Ok(Line::Move { fs, to });
    }
    if is_word(verb, b"shift") {
        let fs = file_system_number(head, fs)?;
        let to = server_number(head, to)?;
        return Ok(Line::Shift { fs, to });
    }
    Err(Why::Word)
}

/// A line on a file system, by its verb and the words behind it.
#[tactic(auto, unfolding(crate::specs::Reading::fs_at))]
fn line_on_fs(head: &Head, verb: &[u8], words: &[&[u8]]) -> Result<Line, Why>
    ensures { result ≡ spec.fs_at head.now verb.now (map (λ word. word.now) words.now) }
{
    match words {
        [fs] => fs_line(head, verb, fs),
        [fs, to] => fs_to_line(head, verb, fs, to),
        _ => Err(Why::Word),
    }
}

/// A line that is run, by its words.
#[tactic(auto, unfolding(crate::specs::Reading::run_line))]
pub(crate) fn run_line(alloc: Global, head: &Head, words: &[&[u8]]) -> Result<Line, LineFault>
    ensures { Gives result (spec.run_line head.now (map (λ word. word.now) words.now)) }
{
    match words {
        [] => Err(LineFault::Bad(Why::Word)),
        [first, rest @ ..] => {
            if is_word(first, b"do") {
                return do_line(alloc, head, rest);
            }
            Ok(line_on_fs(head, first, rest)?)
        }
    }
}

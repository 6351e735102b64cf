//! Reading of compounds.
ghost use Rattle.std.specs.Prelude.{◌≡◌, ◌*◌, ◌≤◌, [], length, IfOk};
ghost use Rattle.nm_xdr.specs.Items.{word_at};
ghost use Rattle.nm_xdr.specs.Places.{end_of};
ghost use Rattle.nm_items.specs.Takes.{Takes};
ghost use Rattle.nm_args.specs.declared.compound.ArgsFault.TheVariants.{GarbageAt};
ghost use Rattle.nm_args.specs.Compounds.{next_at, ops_at, judged, compound_of, Answers};
ghost use Rattle.nm_args.specs.Steps.{OpsRead, TakesNext, unread};

use crate::operations::take_args;
use crate::parts::{Clientids, take_text};
use crate::{ArgsFault, Compound, CompoundEnd, Op, OpCode, Ops};
use nm_items::ReadFault;
use nm_types::{Bytes, Memory};
use nm_xdr::Cursor;
use std::alloc::Global;

/// Reads the arguments of a COMPOUND (RFC 7530, 15.2), which are all of these bytes.
///
/// A minor version other than 0 comes before too many operations. GarbageAt where the tag, the minor version, the count or an
/// operation's number can't be read, or where bytes follow the last operation. Memory where there is none for what is kept;
/// of a count no more is believed than the bytes that are left can hold.
#[tactic(auto, unfolding(crate::specs::Compounds::compound_of))]
pub fn read_compound(alloc: Global, body: &[u8]) -> Result<Compound, ArgsFault>
    ensures { Answers result (length body.now) (compound_of body.now) }
{
    let mut cursor = Cursor::new(body);
    let tag = take_text(alloc, &mut cursor)?;
    let minor = take_word(&mut cursor)?;
    let count = take_word(&mut cursor)?;
    read_judged(alloc, &mut cursor, tag, minor, count)
}

fn take_word(cursor: &mut Cursor<'_>) -> Result<u32, ReadFault>
    ensures { Takes word_at cursor.old result cursor.new }
{
    Ok(cursor.take_u32()?)
}

// What is behind the count.
fn read_judged(
    alloc: Global,
    cursor: &mut Cursor<'_>,
    tag: Bytes,
    minor: u32,
    count: u32,
) -> Result<Compound, ArgsFault>
    ensures { Answers result (end_of cursor.old) (judged tag minor count cursor.old.rest) }
{
    if minor != 0 {
        return Ok(Compound {
            tag,
            minor,
            ops: Ops::new(alloc),
            end: CompoundEnd::Minor,
        });
    }
    if count > 64 {
        return Ok(Compound {
            tag,
            minor,
            ops: Ops::new(alloc),
            end: CompoundEnd::TooMany { count },
        });
    }
    let ReadOps { ops, end } = read_ops(alloc, cursor, count)?;
    Ok(Compound {
        tag,
        minor,
        ops,
        end,
    })
}

/// Operations, and how they end.
#[derive(Drop)]
pub(crate) struct ReadOps {
    pub(crate) ops: Ops,
    pub(crate) end: CompoundEnd,
}

// So many operations, and nothing behind them.
fn read_ops(alloc: Global, cursor: &mut Cursor<'_>, count: u32) -> Result<ReadOps, ArgsFault>
    ensures { OpsRead result (end_of cursor.old) (ops_at count [] cursor.old.rest) }
{
    let mut ops = room_for(alloc, cursor, count)?;
    for _ in 0..count {
        match take_next(alloc, cursor)? {
            Next::One(op) => ops.push(op)?,
            Next::End(end) => return Ok(ReadOps { ops, end }),
        }
    }
    if cursor.left() > 0 {
        return Err(left_over(cursor));
    }
    Ok(ReadOps {
        ops,
        end: CompoundEnd::Clean,
    })
}

// That bytes are left behind the last operation, from here on.
fn left_over(cursor: &Cursor<'_>) -> ArgsFault
    ensures { result ≡ GarbageAt cursor.now.place }
{
    ArgsFault::GarbageAt { at: cursor.place() }
}

// No operations yet, and room for those that there can be.
fn room_for(alloc: Global, cursor: &Cursor<'_>, count: u32) -> Result<Ops, Memory>
    ensures { IfOk result (λ ops. ops ≡ []) }
{
    Ops::with_room(alloc, most_of(count, cursor.left()))
}

// How many of so many operations there can be in so many bytes: each has at least the 4 of its number.
fn most_of(count: u32, left: usize) -> usize
    ensures announced { result ≤ count }
    ensures left { 4 * result ≤ left }
{
    let most = left / 4;
    let count = count as usize;
    if most < count { most } else { count }
}

/// What the next operation is.
#[derive(Drop)]
pub(crate) enum Next {
    One(Op),
    /// There is none, and the compound ends so.
    End(CompoundEnd),
}

#[tactic(auto, unfolding(crate::specs::Compounds::next_at))]
fn take_next(alloc: Global, cursor: &mut Cursor<'_>) -> Result<Next, ReadFault>
    ensures { TakesNext cursor.old result cursor.new }
{
    let number = cursor.take_u32()?;
    let Some(code) = OpCode::read(number) else {
        return Ok(Next::End(CompoundEnd::Illegal { number }));
    };
    match take_args(alloc, cursor, code, Clientids::Any) {
        Ok(op) => Ok(Next::One(op)),
        Err(fault) => without_args(fault, number),
    }
}

// What it means that an operation's arguments aren't read: the compound ends with it, or memory is wanting.
fn without_args(fault: ReadFault, number: u32) -> Result<Next, ReadFault>
    ensures { result ≡ unread fault number }
{
    match fault {
        ReadFault::Xdr(_) => Ok(Next::End(CompoundEnd::BadXdr { op: number })),
        ReadFault::Memory => Err(ReadFault::Memory),
    }
}

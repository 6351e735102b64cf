//! Writing of compounds.
ghost use Rattle.std.specs.Prelude.{◌≡◌, ◌++◌, All, IfOk, OnOk, OnErr};
ghost use Rattle.std.specs.List.{flat_map};
ghost use Rattle.nm_xdr.specs.Places.{Puts};
ghost use Rattle.nm_args.specs.Operations.{IsOp, operation};
ghost use Rattle.nm_args.specs.Compounds.{compound, CanBeWritten};

use crate::operations::put_operation;
use crate::{Compound, Op};
use nm_xdr::{Memory, Writer};
use std::alloc::Global;

// How many bytes a compound without data mostly has at most.
const USUAL_LENGTH: usize = 256;

/// Writes the arguments of a COMPOUND (RFC 7530, 15.2): a tag, the minor version 0, and at most 64 operations, whose end is
/// Clean.
#[tactic(auto, unfolding(crate::specs::Compounds::compound))]
pub fn write_compound(alloc: Global, value: &Compound) -> Result<Vec<u8>, Memory>
    requires { CanBeWritten value.now }
    ensures { IfOk result (λ bytes. bytes.items ≡ compound value.now) }
{
    let mut writer = Writer::new(alloc);
    put_compound(&mut writer, value)?;
    Ok(writer.finish())
}

/// Puts the arguments of such a COMPOUND behind what was put before, as the body of a call is put behind its header.
///
/// Memory where there is none for all of them: then what was put before is what there is.
#[tactic(auto, using(nm_xdr::proofs::PutLaws::front_there, nm_xdr::proofs::PutLaws::front_stands), unfolding(crate::specs::Compounds::compound))]
pub fn put_compound(writer: &mut Writer, value: &Compound) -> Result<(), Memory>
    requires { CanBeWritten value.now }
    ensures ok { OnOk result (writer.new ≡ writer.old ++ compound value.now) }
    ensures err { OnErr result (writer.new ≡ writer.old) }
{
    writer.reserve(usual_length(value.ops.items()))?;
    let before = writer.len();
    match put_parts(writer, value) {
        Ok(()) => Ok(()),
        Err(memory) => {
            writer.cut_back(before);
            Err(memory)
        }
    }
}

// How many bytes such operations mostly have with a tag: room for these is made at once.
fn usual_length(ops: &[Op]) -> usize {
    let mut length = USUAL_LENGTH;
    for op in ops {
        if let Op::Write(args) = op {
            length = length.saturating_add(args.data.items().len());
        }
    }
    length
}

#[tactic(auto, using(nm_xdr::proofs::PutLaws::front_there, nm_xdr::proofs::PutLaws::front_stands), unfolding(crate::specs::Compounds::compound))]
fn put_parts(writer: &mut Writer, value: &Compound) -> Result<(), Memory>
    requires { CanBeWritten value.now }
    ensures { Puts writer.old (compound value.now) result writer.new }
{
    writer.put_opaque(value.tag.items())?;
    writer.put_u32(value.minor)?;
    writer.put_u32(value.ops.items().len() as u32)?;
    put_operations(writer, value.ops.items())?;
    Ok(())
}

#[tactic(auto, using(nm_xdr::proofs::PutLaws::front_there, nm_xdr::proofs::PutLaws::front_stands))]
fn put_operations(writer: &mut Writer, ops: &[Op]) -> Result<(), Memory>
    requires { All IsOp ops.now }
    ensures { Puts writer.old (flat_map operation ops.now) result writer.new }
{
    for op in ops {
        put_operation(writer, op)?;
    }
    Ok(())
}

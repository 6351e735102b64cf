//! Writing of results.
ghost use Rattle.std.specs.Prelude.{◌≡◌, ◌++◌, All, IfOk, OnOk, OnErr};
ghost use Rattle.std.specs.List.{flat_map};
ghost use Rattle.nm_xdr.specs.Places.{Puts};
ghost use Rattle.nm_results.specs.Results.{result_bytes, results_bytes, IsOpResult, AreResults};

use crate::lengths::results_length;
use crate::value_writing::put_result_value;
use crate::{OpResult, Results};
use nm_types::Memory;
use nm_xdr::Writer;
use std::alloc::Global;

/// Writes the results of a compound (RFC 7530, 16; RFC 7531, COMPOUND4res). Each value is the one that its operation has with
/// its status, lengths are within their limits, and there are fewer than 2^32 results.
///
/// A change is written as atomic, and a delegation as not recalled, for nobody in particular, and for a file of up to 1 MiB.
/// Memory where there is none for the bytes.
pub fn write_results(alloc: Global, value: &Results) -> Result<Vec<u8>, Memory>
    requires { AreResults value.now }
    ensures { IfOk result (λ bytes. bytes.items ≡ results_bytes value.now) }
{
    let mut writer = Writer::new(alloc);
    put_results(&mut writer, value)?;
    Ok(writer.finish())
}

/// Puts the results of a compound behind what was put before, as the body of a reply is put behind its header. What can be written, and
/// how, is as with [`write_results`]. Room for all of it is made at once.
///
/// Memory where there is none for all of the bytes: then what was put before is what there is.
pub fn put_results(writer: &mut Writer, value: &Results) -> Result<(), Memory>
    requires { AreResults value.now }
    ensures ok { OnOk result (writer.new ≡ writer.old ++ results_bytes value.now) }
    ensures err { OnErr result (writer.new ≡ writer.old) }
{
    if let Some(length) = results_length(value) {
        writer.reserve(length)?;
    }
    let before = writer.len();
    match put_parts(writer, value) {
        Ok(()) => Ok(()),
        Err(memory) => {
            writer.cut_back(before);
            Err(memory)
        }
    }
}

#[tactic(auto, using(nm_xdr::proofs::PutLaws::front_there, nm_xdr::proofs::PutLaws::front_stands), unfolding(crate::specs::Results::results_bytes))]
fn put_parts(writer: &mut Writer, value: &Results) -> Result<(), Memory>
    requires { AreResults value.now }
    ensures { Puts writer.old (results_bytes value.now) result writer.new }
{
    writer.put_u32(value.status.number())?;
    writer.put_opaque(value.tag.items())?;
    writer.put_u32(value.items.items().len() as u32)?;
    put_each(writer, value.items.items())?;
    Ok(())
}

// The results, one after the other.
#[tactic(auto, using(nm_xdr::proofs::PutLaws::front_there, nm_xdr::proofs::PutLaws::front_stands))]
fn put_each(writer: &mut Writer, results: &[OpResult]) -> Result<(), Memory>
    requires { All IsOpResult results.now }
    ensures { Puts writer.old (flat_map result_bytes results.now) result writer.new }
{
    for item in results {
        put_result(writer, item)?;
    }
    Ok(())
}

#[tactic(auto, using(nm_xdr::proofs::PutLaws::front_there, nm_xdr::proofs::PutLaws::front_stands), unfolding(crate::specs::Results::result_bytes))]
fn put_result(writer: &mut Writer, value: &OpResult) -> Result<(), Memory>
    requires { IsOpResult value.now }
    ensures { Puts writer.old (result_bytes value.now) result writer.new }
{
    writer.put_u32(value.op)?;
    writer.put_u32(value.status.number())?;
    put_result_value(writer, &value.value)?;
    Ok(())
}

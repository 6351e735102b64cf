//! Writing behind what was written before.
ghost use Rattle.std.specs.Prelude.{◌≡◌, ◌++◌, decimal, OnOk, OnErr};
ghost use Rattle.nm_script.specs.Writing.{Stands};

use nm_types::Memory;

/// Writes a text behind what was written.
#[tactic(auto, using(crate::proofs::TextLemmas::stands_still))]
pub(crate) fn append(out: &mut Vec<u8>, text: &[u8]) -> Result<(), Memory>
    ensures ok { OnOk result (out.new.items ≡ out.old.items ++ text.now) }
    ensures err { OnErr result (Stands out.old.items out.new.items) }
{
    Ok(out.extend_from_slice(text)?)
}

/// Writes a number behind it, in decimal digits.
#[tactic(auto, using(crate::proofs::TextLemmas::stands_still))]
pub(crate) fn append_number(out: &mut Vec<u8>, n: u64) -> Result<(), Memory>
    ensures ok { OnOk result (out.new.items ≡ out.old.items ++ decimal n) }
    ensures err { OnErr result (Stands out.old.items out.new.items) }
{
    let digits = format!(in *out.allocator(); "{n}")?;
    append(out, digits.as_bytes())
}

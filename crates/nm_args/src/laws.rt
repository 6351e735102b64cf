//! What holds of all compounds, each law the contract of a function that does nothing.
ghost use Rattle.std.specs.Prelude.{ℕ, ◌*◌, ◌≤◌, List, length, ◌≡◌, Ok};
ghost use Rattle.nm_xdr.specs.Fields.{IsBytes, IsItem};
ghost use Rattle.nm_xdr.specs.Places.{IsExact};
ghost use Rattle.nm_args.specs.declared.compound.Compound.{Compound as AnyCompound};
ghost use Rattle.nm_args.specs.declared.compound.CompoundEnd.TheVariants.{Clean};
ghost use Rattle.nm_args.specs.declared.op.OpCode.{OpCode as AnyCode};
ghost use Rattle.nm_args.specs.Operations.{code_of, args_at, args, IsOp};
ghost use Rattle.nm_args.specs.Deeds.{deed_at, deed_bytes, IsDeed};
ghost use Rattle.nm_args.specs.Compounds.{compound, compound_of, CanBeWritten, IsCompound};

/// The arguments of each operation are read exactly where they are spelled, whatever follows. So each value has one spelling,
/// and none is the beginning of another's.
pub fn arguments_are_read_as_spelled()
    ensures items { (code : AnyCode) → IsItem (args_at code) args (λ o. IsOp o × (code_of o ≡ code)) }
    ensures exact { (code : AnyCode) → IsExact (args_at code) args (λ o. IsOp o × (code_of o ≡ code)) }
{}

/// A compound is read of bytes exactly where they are its arguments: with the end Clean nothing stands behind its operations;
/// with BadXdr the number of an operation, and bytes of which no beginning spells its arguments; with Illegal a number that
/// no operation has. All other bytes are garbage. Of an operation that is kept there are at least four bytes, whatever count is
/// announced.
pub fn compounds_are_read_as_spelled()
    ensures found { (bytes : List ℕ) (c : AnyCompound) → IsBytes bytes → compound_of bytes ≡ Ok c → IsCompound c bytes }
    ensures again { (bytes : List ℕ) (c : AnyCompound) → IsBytes bytes → IsCompound c bytes → compound_of bytes ≡ Ok c }
    ensures few { (bytes : List ℕ) (c : AnyCompound) → IsBytes bytes → compound_of bytes ≡ Ok c → 4 * length c.ops ≤ length bytes }
{}

/// A compound that is written is read again.
pub fn compounds_are_read_as_written()
    ensures { (c : AnyCompound) → CanBeWritten c → compound_of (compound c) ≡ Ok c }
{}

/// A compound that was read to a clean end can be written again.
pub fn clean_compounds_can_be_written()
    ensures { (bytes : List ℕ) (c : AnyCompound) → IsBytes bytes → compound_of bytes ≡ Ok c → c.end ≡ Clean → CanBeWritten c }
{}

/// A kept call is read exactly where it is spelled, whatever follows: what is written is read again as it was, and no other bytes
/// are read as the same call.
pub fn kept_calls_are_read_as_written()
    ensures item { IsItem deed_at deed_bytes IsDeed }
    ensures exact { IsExact deed_at deed_bytes IsDeed }
{}

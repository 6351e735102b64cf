//! What holds of all of these items, each law the contract of a function that does nothing.
ghost use Rattle.std.specs.Prelude.{◌≡◌};
ghost use Rattle.nm_xdr.specs.Fields.{IsItem};
ghost use Rattle.nm_xdr.specs.Items.{opaque};
ghost use Rattle.nm_types.specs.declared.calls.StateId.{StateId as AnyStateId};
ghost use Rattle.nm_types.specs.declared.calls.StateRef.{StateRef as AnyStateRef};
ghost use Rattle.nm_types.specs.Wire.{stateid_bytes, stateid_from, handle_bytes, IsHandle};
ghost use Rattle.nm_items.specs.Parts.{stateid, stateid_at, IsStateId, ref_at, IsStateRef, numbers_of, handle_at, fattr, fattr_at, AreAttributes};

/// What is read of an item is spelled so, and what is spelled so is read, whatever follows. A stateid has one spelling, by its
/// numbers and as what it is.
pub fn parts_are_read_as_spelled()
    ensures numbers { IsItem stateid_at stateid IsStateId }
    ensures stateids { IsItem ref_at stateid_bytes IsStateRef }
    ensures handles { IsItem handle_at (λ h. opaque (handle_bytes h)) IsHandle }
    ensures attributes { IsItem fattr_at fattr AreAttributes }
{}

/// The stateid of some numbers has these bytes and these numbers, and it is found again by them.
pub fn stateids_are_told_apart()
    ensures bytes { (s : AnyStateId) → stateid_bytes (stateid_from s) ≡ stateid s }
    ensures numbers { (s : AnyStateId) → numbers_of (stateid_from s) ≡ s }
    ensures again { (r : AnyStateRef) → IsStateRef r → stateid_from (numbers_of r) ≡ r }
{}

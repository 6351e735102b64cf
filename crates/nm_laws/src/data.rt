//! Laws of data: who may read a file, write it and set its size (RFC 7530, 9.9 and 16.23, 16.32, 16.36).
ghost use Rattle.std.specs.Prelude.{◌≡◌, ◌∷◌, ℕ, Bool, true, List, Some};
ghost use Rattle.nm_rules.specs.Answer.{answer, IsLegal};
ghost use Rattle.nm_rules.specs.Attributes.{has_size};
ghost use Rattle.nm_rules.specs.Past.{Past};
ghost use Rattle.nm_laws.specs.DataReadings.{MayRead, MayWrite};
ghost use Rattle.nm_types.specs.declared.args.ReadArgs.{ReadArgs as AnyRead};
ghost use Rattle.nm_types.specs.declared.args.SetAttrArgs.{SetAttrArgs as AnySetAttr};
ghost use Rattle.nm_types.specs.declared.args.WriteArgs.{WriteArgs as AnyWrite};
ghost use Rattle.nm_types.specs.declared.calls.Call.{Call as AnyCall};
ghost use Rattle.nm_types.specs.declared.calls.Deed.TheVariants as deed;
ghost use Rattle.nm_types.specs.declared.calls.Event.TheVariants.{Asked};
ghost use Rattle.nm_types.specs.declared.calls.ReplyValue.TheVariants as told;
ghost use Rattle.nm_types.specs.declared.calls.Verdict.{Verdict as AnyVerdict};
ghost use Rattle.nm_types.specs.declared.results.ReadOk.{ReadOk as AnyReadOk};
ghost use Rattle.nm_types.specs.declared.results.WriteOk.{WriteOk as AnyWriteOk};

/// A READ that told data, as an OK does, was let in by its stateid (RFC 7530, 9.9 and 16.23): the open that the stateid stands for, itself or by its lock
/// owner, is of the caller's own instance (9.1.4) and reads the file, and no other owner denies reading; by the special stateid of all zeros nobody denies
/// it (9.1.4.3).
pub fn reads_meet_no_deny()
    ensures { (fs : ℕ) (grants : Bool) (es : Past) (call : AnyCall) (verdict : AnyVerdict) (args : AnyRead) (ok : AnyReadOk)
        → IsLegal fs grants es → call.deed ≡ deed.Read args
        → (answer fs grants es (Asked call verdict)).value ≡ told.Read (Some ok) → MayRead es call.caller call.file args.stateid }
{}

/// A WRITE that told its count, as an OK does, was let in by its stateid (RFC 7530, 9.9 and 16.36): the open that the stateid stands for, itself or by its lock
/// owner, is of the caller's own instance (9.1.4) and writes the file, and no other owner denies writing; by either special stateid nobody denies it
/// (9.1.4.3).
pub fn writes_meet_no_deny()
    ensures { (fs : ℕ) (grants : Bool) (es : Past) (call : AnyCall) (verdict : AnyVerdict) (args : AnyWrite) (ok : AnyWriteOk)
        → IsLegal fs grants es → call.deed ≡ deed.Write args
        → (answer fs grants es (Asked call verdict)).value ≡ told.Write (Some ok) → MayWrite es call.caller call.file args.stateid }
{}

/// A SETATTR that named a size and set something was let in as a WRITE is (RFC 7530, 16.32).
pub fn sizes_meet_no_deny()
    ensures { (fs : ℕ) (grants : Bool) (es : Past) (call : AnyCall) (verdict : AnyVerdict) (args : AnySetAttr) (word : ℕ) (words : List ℕ)
        → IsLegal fs grants es → call.deed ≡ deed.SetAttr args → has_size args.attributes.words ≡ true
        → (answer fs grants es (Asked call verdict)).value ≡ told.SetAttr (word ∷ words) → MayWrite es call.caller call.file args.stateid }
{}

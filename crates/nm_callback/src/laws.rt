//! What holds of all callbacks, each law the contract of a function that does nothing.
ghost use Rattle.std.specs.Prelude.{ℕ, List, ◌<◌, ◌^◌, drop, ◌++◌, ◌≡◌, ◌≢◌, [], length, true, Ok, Err};
ghost use Rattle.nm_xdr.specs.Fields.{IsBytes};
ghost use Rattle.nm_rpc.specs.Messages.{EndsWithin};
ghost use Rattle.nm_rpc.specs.Replies.{reply_of};
ghost use Rattle.nm_rpc.specs.declared.replies.ReplyOutcome.TheVariants.{Success};
ghost use Rattle.nm_types.specs.declared.calls.StateId.{StateId as AnyStateId};
ghost use Rattle.nm_types.specs.declared.status.OpStatus.{OpStatus as AnyStatus};
ghost use Rattle.nm_types.specs.declared.wire.Handle.{Handle as AnyHandle};
ghost use Rattle.nm_callback.specs.declared.callback.Callback.{Callback as AnyCallback};
ghost use Rattle.nm_callback.specs.declared.callback.Callback.TheVariants.{Recall};
ghost use Rattle.nm_callback.specs.declared.callback.CallbackFault.TheVariants.{At};
ghost use Rattle.nm_callback.specs.Callbacks.{recall, callback_of, IsCallback, CanBeRecalled, recall_items, is_known, callback_reply, result_body};

/// A callback is read of bytes exactly where they are this one, with anything in the place of what is passed over: the
/// program, the credential and the verifier, the tag, the minor version and `truncate`, the arguments of CB_GETATTR, and
/// the number of an unknown operation with all that follows it.
pub fn callbacks_are_read_as_spelled()
    ensures found { (c : AnyCallback) (bytes : List ℕ) → IsBytes bytes → callback_of bytes ≡ Ok c → IsCallback c bytes }
    ensures again { (c : AnyCallback) (bytes : List ℕ) → IsCallback c bytes → callback_of bytes ≡ Ok c }
{}

/// A recall that is written is read again.
pub fn recalls_are_read_as_written()
    ensures { (xid program ident : ℕ) (state : AnyStateId) (handle : AnyHandle) → CanBeRecalled xid program ident state handle
        → callback_of (recall xid program ident state handle) ≡ Ok (Recall xid ident state handle) }
{}

/// A recall that is cut is refused at the first byte of the item in which it is cut.
pub fn cut_recalls_are_refused()
    ensures { (xid program ident : ℕ) (state : AnyStateId) (handle : AnyHandle) (front more : List ℕ) → CanBeRecalled xid program ident state handle
        → recall xid program ident state handle ≡ front ++ more → more ≢ []
        → (at : ℕ) × EndsWithin (recall_items xid program ident state handle) front at × (callback_of front ≡ Err (At at)) }
{}

/// Behind a callback that isn't an unknown operation, bytes that are left over are refused at the first of them.
pub fn longer_callbacks_are_refused()
    ensures { (c : AnyCallback) (bytes more : List ℕ) → IsCallback c bytes → is_known c ≡ true → more ≢ []
        → callback_of (bytes ++ more) ≡ Err (At (length bytes)) }
{}

/// The reply to a callback is read as done, with the xid that was written, and its body is one result.
pub fn replies_are_read_as_written()
    ensures read { (xid op : ℕ) (status : AnyStatus) → xid < 2 ^ 32 → reply_of (callback_reply xid op status) ≡ Ok (record { xid = xid; outcome = Success 24 }) }
    ensures behind { (xid op : ℕ) (status : AnyStatus) → drop 24 (callback_reply xid op status) ≡ result_body op status }
{}

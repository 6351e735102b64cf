//! What holds of all messages, each law the contract of a function that does nothing.
ghost use Rattle.std.specs.Prelude.{ℕ, List, [], ◌++◌, ◌≡◌, ◌≢◌, ◌<◌, ◌≤◌, ◌^◌, length, true, Ok, Err};
ghost use Rattle.nm_xdr.specs.Fields.{IsBytes};
ghost use Rattle.nm_rpc.specs.declared.calls.Service.{Service as AnyService};
ghost use Rattle.nm_rpc.specs.declared.calls.CallHead.{CallHead as AnyCallHead};
ghost use Rattle.nm_rpc.specs.declared.calls.CallFault.{CallFault as AnyCallFault};
ghost use Rattle.nm_rpc.specs.declared.calls.CallFault.TheVariants.{NotCall, Garbage};
ghost use Rattle.nm_rpc.specs.declared.replies.ReplyHead.{ReplyHead as AnyReplyHead};
ghost use Rattle.nm_rpc.specs.declared.replies.ReplyOutcome.TheVariants.{Success};
ghost use Rattle.nm_rpc.specs.Messages.{CallHeader, parts, header, IsHeader, judged, EndsWithin, header_of, call, call_of, has_spelling, IsHead, IsServed, IsCall};
ghost use Rattle.nm_rpc.specs.Replies.{done, reply, reply_of, IsReply, refusal, HasWords, told, read_of, read_head};

/// A head is read of bytes exactly where they are a call with this head: its header with any verifier, and for AUTH_SYS
/// with any stamp, gid and gids, and the body behind it.
pub fn calls_are_read_as_spelled()
    ensures found { (services : List AnyService) (head : AnyCallHead) (bytes : List ℕ) → IsBytes bytes → call_of services bytes ≡ Ok head → IsCall services head bytes }
    ensures again { (services : List AnyService) (head : AnyCallHead) (bytes : List ℕ) → IsCall services head bytes → call_of services bytes ≡ Ok head }
{}

/// A header that is all there is judged by its items: the first fault that one of them is, in their order, or the head.
pub fn calls_are_judged_by_their_items()
    ensures { (services : List AnyService) (h : CallHeader) (body : List ℕ) → IsHeader h → call_of services (header h ++ body) ≡ judged services h }
{}

/// Where a header that would be taken is cut, fewer than 8 bytes are no call, and more are Garbage at the first byte of
/// the item in which it is cut.
pub fn cut_calls_are_garbage()
    ensures short { (services : List AnyService) (front : List ℕ) → length front < 8 → call_of services front ≡ Err NotCall }
    ensures garbage { (services : List AnyService) (h : CallHeader) (head : AnyCallHead) (front more : List ℕ) → IsHeader h → judged services h ≡ Ok head
        → IsBytes front → header h ≡ front ++ more → more ≢ [] → 8 ≤ length front
        → (at : ℕ) × EndsWithin (parts h) front at × (call_of services front ≡ Err (Garbage h.xid at)) }
{}

/// A call that is written is read again by whoever serves it, with the place of its body.
pub fn calls_are_read_as_written()
    ensures { (services : List AnyService) (head : AnyCallHead) (body : List ℕ) → IsHead head → has_spelling head ≡ true
        → IsServed services head.program head.version head.procedure
        → call_of services (call head body) ≡ Ok (record head { body = length (header (header_of head)) }) }
{}

/// A head is read of bytes exactly where they are a reply with this head.
pub fn replies_are_read_as_spelled()
    ensures found { (head : AnyReplyHead) (bytes : List ℕ) → IsBytes bytes → reply_of bytes ≡ Ok head → IsReply head bytes }
    ensures again { (head : AnyReplyHead) (bytes : List ℕ) → IsReply head bytes → reply_of bytes ≡ Ok head }
{}

/// A reply that is written is read again: a success with the place of its body, and a refusal with what it tells.
pub fn replies_are_read_as_written()
    ensures success { (xid : ℕ) (body : List ℕ) → xid < 2 ^ 32 → reply_of (reply xid (done body)) ≡ Ok (record { xid = xid; outcome = Success 24 }) }
    ensures refused { (fault : AnyCallFault) → HasWords fault → read_of (refusal fault) ≡ read_head (told fault) }
{}

//! What a seqid says of a call, and whether a call is the one that came before (RFC 7530, 9.1.7): caller, file and
//! arguments are equal. Only operations with a seqid are compared.
ghost use Rattle.std.specs.Prelude.{◌≡◌};
ghost use Rattle.nm_rules.specs.Repeats.{is_close, is_confirm, is_downgrade, is_lock, is_open, is_unlock, same_opentype, same_claim, same_deed, same_call};
ghost use Rattle.nm_rules.specs.Seqids.{judged};

use nm_types::{
    Call, Claim, CloseArgs, Deed, Judgement, LockArgs, OpenArgs, OpenConfirmArgs,
    OpenDowngradeArgs, OpenType, OwnerRow, UnlockArgs,
};

#[tactic(auto, unfolding(crate::specs::Repeats::is_close))]
fn is_close(args: &CloseArgs, deed: &Deed) -> bool
    ensures { result ≡ is_close args.now deed.now }
{
    match deed {
        Deed::Close(kept) => args == kept,
        _ => false,
    }
}

fn is_same_opentype(a: &OpenType, b: &OpenType) -> bool
    ensures { result ≡ same_opentype a.now b.now }
{
    a == b
}

fn is_same_claim(a: &Claim, b: &Claim) -> bool
    ensures { result ≡ same_claim a.now b.now }
{
    a == b
}

#[tactic(auto, unfolding(crate::specs::Repeats::is_open))]
fn is_open(args: &OpenArgs, deed: &Deed) -> bool
    ensures { result ≡ is_open args.now deed.now }
{
    match deed {
        Deed::Open(kept) => {
            args.seqid == kept.seqid
                && args.access == kept.access
                && args.deny == kept.deny
                && args.owner == kept.owner
                && is_same_opentype(&args.opentype, &kept.opentype)
                && is_same_claim(&args.claim, &kept.claim)
        }
        _ => false,
    }
}

#[tactic(auto, unfolding(crate::specs::Repeats::is_confirm))]
fn is_confirm(args: &OpenConfirmArgs, deed: &Deed) -> bool
    ensures { result ≡ is_confirm args.now deed.now }
{
    match deed {
        Deed::OpenConfirm(kept) => args == kept,
        _ => false,
    }
}

#[tactic(auto, unfolding(crate::specs::Repeats::is_downgrade))]
fn is_downgrade(args: &OpenDowngradeArgs, deed: &Deed) -> bool
    ensures { result ≡ is_downgrade args.now deed.now }
{
    match deed {
        Deed::OpenDowngrade(kept) => args == kept,
        _ => false,
    }
}

#[tactic(auto, unfolding(crate::specs::Repeats::is_lock))]
fn is_lock(args: &LockArgs, deed: &Deed) -> bool
    ensures { result ≡ is_lock args.now deed.now }
{
    match deed {
        Deed::Lock(kept) => args == kept,
        _ => false,
    }
}

#[tactic(auto, unfolding(crate::specs::Repeats::is_unlock))]
fn is_unlock(args: &UnlockArgs, deed: &Deed) -> bool
    ensures { result ≡ is_unlock args.now deed.now }
{
    match deed {
        Deed::Unlock(kept) => args == kept,
        _ => false,
    }
}

// Whether it is that operation, which was kept, with equal arguments.
#[tactic(auto, unfolding(crate::specs::Repeats::same_deed))]
fn is_same_deed(deed: &Deed, kept: &Deed) -> bool
    ensures { result ≡ same_deed deed.now kept.now }
{
    match deed {
        Deed::Close(args) => is_close(args, kept),
        Deed::Lock(args) => is_lock(args, kept),
        Deed::Open(args) => is_open(args, kept),
        Deed::OpenConfirm(args) => is_confirm(args, kept),
        Deed::OpenDowngrade(args) => is_downgrade(args, kept),
        Deed::Unlock(args) => is_unlock(args, kept),
        _ => false,
    }
}

/// Whether a call is one that was kept: callers' instances, files, and the arguments of operations with a seqid are
/// equal. Other operations are never the same.
#[tactic(auto, unfolding(crate::specs::Repeats::same_call))]
pub fn is_repeat(call: &Call, kept: &Call) -> bool
    ensures { result ≡ same_call call.now.caller call.now.file call.now.deed kept.now }
{
    call.caller == kept.caller && call.file == kept.file && is_same_deed(&call.deed, &kept.deed)
}

/// What is kept of an owner says this of an operation of it with that seqid.
#[tactic(auto, unfolding(crate::specs::Seqids::judged))]
pub fn judge(row: &OwnerRow, seqid: u32, call: &Call) -> Judgement
    ensures { result ≡ judged (Some row.now) seqid call.now.caller call.now.file call.now.deed }
{
    let next = if row.seqid == u32::MAX {
        1
    } else {
        row.seqid + 1
    };
    if seqid == next {
        Judgement::Fresh
    } else if seqid == row.seqid && is_repeat(call, &row.call) {
        Judgement::Again
    } else {
        Judgement::Bad
    }
}

//! Which value a result has.
ghost use Rattle.std.specs.Prelude.{◌≡◌};
ghost use Rattle.nm_results.specs.Arms.{is_op, ok_arm, failed_arm, denied_arm, in_use_arm, illegal_arm, arm_of};

use nm_types::OpStatus;

/// The values of results, by their kinds.
#[derive(Clone, Copy, PartialEq, Eq)]
pub enum Arm {
    Nothing,
    Access,
    Close,
    Commit,
    Create,
    GetAttr,
    GetFh,
    Lock,
    Denied,
    LockU,
    Open,
    OpenConfirm,
    OpenDowngrade,
    Read,
    ReadDir,
    Remove,
    SetAttr,
    SetClientId,
    ClientInUse,
    Write,
}

/// Whether an operation of this number has results.
#[tactic(auto, unfolding(crate::specs::Arms::is_op))]
pub(crate) fn is_op(op: u32) -> bool
    ensures { result ≡ is_op op }
{
    matches!(op, 3..=39 | 10044)
}

/// The value of an operation with a status. `None` where it can't have this status.
#[tactic(auto, unfolding(crate::specs::Arms::arm_of))]
pub(crate) fn arm_of(op: u32, status: OpStatus) -> Option<Arm>
    ensures { result ≡ arm_of op status }
{
    match status {
        OpStatus::Nfs4Ok => ok_arm(op),
        OpStatus::Denied => denied_arm(op),
        OpStatus::ClidInUse => in_use_arm(op),
        OpStatus::OpIllegal => illegal_arm(op),
        _ => failed_arm(op),
    }
}

// The value of an operation with OK.
#[tactic(auto, unfolding(crate::specs::Arms::ok_arm, crate::specs::Arms::served))]
fn ok_arm(op: u32) -> Option<Arm>
    ensures { result ≡ ok_arm op }
{
    match op {
        3 => Some(Arm::Access),
        4 => Some(Arm::Close),
        5 => Some(Arm::Commit),
        6 => Some(Arm::Create),
        8 => Some(Arm::Nothing),
        9 => Some(Arm::GetAttr),
        10 => Some(Arm::GetFh),
        12 => Some(Arm::Lock),
        13 => Some(Arm::Nothing),
        14 => Some(Arm::LockU),
        15 => Some(Arm::Nothing),
        16 => Some(Arm::Nothing),
        18 => Some(Arm::Open),
        20 => Some(Arm::OpenConfirm),
        21 => Some(Arm::OpenDowngrade),
        22 => Some(Arm::Nothing),
        23 => Some(Arm::Nothing),
        24 => Some(Arm::Nothing),
        25 => Some(Arm::Read),
        26 => Some(Arm::ReadDir),
        28 => Some(Arm::Remove),
        30 => Some(Arm::Nothing),
        31 => Some(Arm::Nothing),
        32 => Some(Arm::Nothing),
        34 => Some(Arm::SetAttr),
        35 => Some(Arm::SetClientId),
        36 => Some(Arm::Nothing),
        38 => Some(Arm::Write),
        39 => Some(Arm::Nothing),
        _ => None,
    }
}

#[tactic(auto, unfolding(crate::specs::Arms::failed_arm))]
fn failed_arm(op: u32) -> Option<Arm>
    ensures { result ≡ failed_arm op }
{
    if op == 34 {
        return Some(Arm::SetAttr);
    }
    if op == 10044 {
        return None;
    }
    Some(Arm::Nothing)
}

#[tactic(auto, unfolding(crate::specs::Arms::denied_arm))]
fn denied_arm(op: u32) -> Option<Arm>
    ensures { result ≡ denied_arm op }
{
    if op == 12 || op == 13 {
        return Some(Arm::Denied);
    }
    failed_arm(op)
}

#[tactic(auto, unfolding(crate::specs::Arms::in_use_arm))]
fn in_use_arm(op: u32) -> Option<Arm>
    ensures { result ≡ in_use_arm op }
{
    if op == 35 {
        return Some(Arm::ClientInUse);
    }
    failed_arm(op)
}

#[tactic(auto, unfolding(crate::specs::Arms::illegal_arm))]
fn illegal_arm(op: u32) -> Option<Arm>
    ensures { result ≡ illegal_arm op }
{
    if op == 10044 {
        return Some(Arm::Nothing);
    }
    failed_arm(op)
}

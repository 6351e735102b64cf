//! What the arguments of an OPEN say by themselves (RFC 7530, 16.16).
ghost use Rattle.std.specs.Prelude.{◌≡◌, IfOk, option_copied};
ghost use Rattle.nm_rules.specs.Past.{claimed_name, opener, opentype_asks, cuts, exclusive_verifier};
ghost use Rattle.nm_rules.specs.Opens.{target, claim_unresolved, claim_fault, claim_arguments, open_fault, is_made_by, name_refusal, touches};
ghost use Rattle.nm_state.specs.Asked.{asks_of_code};

use crate::attributes::{Asked, asks_of};
use crate::checks::{arguments_fault, refuse_if};
use nm_shares::is_share;
use nm_types::{
    Bytes, Claim, FileRow, Instance, Memory, OpStatus, OpenArgs, OpenType, Owner, OwnerKind,
};

/// The name that a claim gives.
#[tactic(auto, unfolding(nm_rules::specs::Past::claimed_name))]
pub fn name_of(claim: &Claim) -> Option<&Bytes>
    ensures { option_copied result ≡ claimed_name claim.now }
{
    match claim {
        Claim::Null(name) | Claim::DelegatePrev(name) => Some(name),
        Claim::DelegateCur { stateid: _, name } => Some(name),
        Claim::Previous(_) => None,
    }
}

/// What the attributes of an OPEN ask for a file that it makes.
#[tactic(auto, unfolding(nm_rules::specs::Past::opentype_asks))]
pub fn opentype_asks(opentype: &OpenType) -> Asked
    ensures { asks_of_code result ≡ opentype_asks opentype.now }
{
    match opentype {
        OpenType::Unchecked(fattr) | OpenType::Guarded(fattr) => asks_of(fattr),
        OpenType::NoCreate | OpenType::Exclusive(_) => Asked::Sets {
            size: None,
            mode: None,
        },
    }
}

/// An UNCHECKED OPEN with size 0 cuts a file that is there.
#[tactic(auto, unfolding(nm_rules::specs::Past::cuts))]
pub fn cuts(opentype: &OpenType) -> bool
    ensures { result ≡ cuts opentype.now }
{
    match opentype {
        OpenType::Unchecked(fattr) => asks_of(fattr).size() == Some(0),
        OpenType::NoCreate | OpenType::Guarded(_) | OpenType::Exclusive(_) => false,
    }
}

/// The verifier that an EXCLUSIVE OPEN leaves with the file.
#[tactic(auto, unfolding(nm_rules::specs::Past::exclusive_verifier))]
pub fn exclusive_verifier(opentype: &OpenType) -> Option<u64>
    ensures { result ≡ exclusive_verifier opentype.now }
{
    match opentype {
        OpenType::Exclusive(verifier) => Some(*verifier),
        OpenType::NoCreate | OpenType::Unchecked(_) | OpenType::Guarded(_) => None,
    }
}

/// A claim by a delegation names its stateid, and there is none yet.
#[tactic(auto, unfolding(nm_rules::specs::Opens::claim_unresolved))]
pub fn claim_unresolved(claim: &Claim) -> Option<OpStatus>
    ensures { result ≡ claim_unresolved claim.now }
{
    match claim {
        Claim::DelegateCur { .. } => Some(OpStatus::BadStateId),
        Claim::Null(_) | Claim::Previous(_) | Claim::DelegatePrev(_) => None,
    }
}

/// Nothing is reclaimed, and no delegation outlives its client.
#[tactic(auto, unfolding(nm_rules::specs::Opens::claim_fault))]
pub fn claim_fault(claim: &Claim) -> Option<OpStatus>
    ensures { result ≡ claim_fault claim.now }
{
    match claim {
        Claim::Previous(_) => Some(OpStatus::NoGrace),
        Claim::DelegatePrev(_) => Some(OpStatus::NotSupp),
        Claim::Null(_) | Claim::DelegateCur { .. } => None,
    }
}

/// What is wrong with a claim's name and the attributes, and what else may be invalid.
#[tactic(auto, unfolding(nm_rules::specs::Opens::claim_arguments))]
pub fn claim_arguments(invalid: bool, claim: &Claim, asks: Asked) -> Option<OpStatus>
    ensures { result ≡ claim_arguments invalid (claimed_name claim.now) (asks_of_code asks) }
{
    match name_of(claim) {
        Some(name) => arguments_fault(invalid, name.items(), asks),
        None if invalid || asks.is_invalid() => Some(OpStatus::Inval),
        None => refuse_if(asks.is_unsupported(), OpStatus::AttrNotSupp),
    }
}

/// What is wrong with the arguments of an OPEN by themselves.
#[tactic(auto, unfolding(nm_rules::specs::Opens::open_fault))]
pub fn open_fault(args: &OpenArgs) -> Option<OpStatus>
    ensures { result ≡ open_fault args.now }
{
    let invalid = !is_share(args.access, args.deny);
    claim_arguments(invalid, &args.claim, opentype_asks(&args.opentype)).or(claim_fault(
        &args.claim,
    ))
}

/// An EXCLUSIVE OPEN with this verifier made the file.
#[tactic(auto, unfolding(nm_rules::specs::Opens::is_made_by))]
pub fn is_made_by(verifier: u64, row: Option<&FileRow>) -> bool
    ensures { result ≡ is_made_by verifier (option_copied row.entry) }
{
    match row {
        Some(row) => row.verifier == Some(verifier),
        None => false,
    }
}

/// A file that is there isn't made again, unless by the same EXCLUSIVE OPEN; one that isn't there is made or missed.
#[tactic(auto, unfolding(nm_rules::specs::Opens::name_refusal))]
pub fn name_refusal(
    opentype: &OpenType,
    file: Option<u64>,
    row: Option<&FileRow>,
) -> Option<OpStatus>
    ensures { result ≡ name_refusal opentype.now file (option_copied row.entry) }
{
    match opentype {
        OpenType::NoCreate => refuse_if(file.is_none(), OpStatus::NoEnt),
        OpenType::Unchecked(_) => None,
        OpenType::Guarded(_) => refuse_if(file.is_some(), OpStatus::Exist),
        OpenType::Exclusive(verifier) => refuse_if(
            file.is_some() && !is_made_by(*verifier, row),
            OpStatus::Exist,
        ),
    }
}

/// The owner that opens.
pub fn owner_of(party: Instance, args: &OpenArgs) -> Result<Owner, Memory>
    ensures { IfOk result (λ owner. owner ≡ opener party args.now) }
{
    Ok(Owner {
        instance: party,
        kind: OwnerKind::Opens,
        text: args.owner.copy()?,
    })
}

/// Whether an OPEN makes or cuts its file.
pub fn touches(target: Option<u64>, opentype: &OpenType) -> bool
    ensures { result ≡ touches target opentype.now }
{
    match target {
        None => true,
        Some(_) => cuts(opentype),
    }
}

//! Who calls: the credentials of AUTH_NONE and AUTH_SYS (RFC 5531, 8.2 and appendix A).
ghost use Rattle.std.specs.Prelude.{◌≡◌};
ghost use Rattle.std.specs.Option.{option_map};
ghost use Rattle.nm_xdr.specs.Fields.{all_of};
ghost use Rattle.nm_xdr.specs.Places.{Gives};
ghost use Rattle.nm_rpc.specs.Messages.{sys_caller_at, sys_caller_of, sys_credential_at, caller_in};

use nm_types::Principal;
use nm_xdr::{Cursor, XdrFault};

/// Who calls, and from which machine.
#[derive(Clone, Copy)]
pub(crate) struct Caller<'a> {
    pub(crate) principal: Principal,
    pub(crate) machine: &'a [u8],
}

/// The caller of a credential of this flavor. None for a flavor other than AUTH_NONE and AUTH_SYS, and where the bytes
/// of AUTH_SYS aren't of its layout, all of them.
#[tactic(auto, unfolding(crate::specs::Messages::caller_in))]
pub(crate) fn caller_in_credential<'a>(flavor: u32, credential: &'a [u8]) -> Option<Caller<'a>>
    ensures { option_map (λ c. record { principal = c.principal; machine = c.machine.now }) result ≡ caller_in flavor credential.now }
{
    match flavor {
        0 => Some(Caller {
            principal: Principal { flavor: 0, uid: 0 },
            machine: b"",
        }),
        1 => all_sys_caller(credential),
        _ => None,
    }
}

// The caller of a credential of AUTH_SYS.
#[tactic(auto, using(crate::proofs::Passing::whole_caller, crate::proofs::Passing::longer_caller, crate::proofs::Passing::no_caller))]
fn all_sys_caller<'a>(credential: &'a [u8]) -> Option<Caller<'a>>
    ensures { option_map (λ c. record { principal = c.principal; machine = c.machine.now }) result
        ≡ sys_caller_of (all_of sys_credential_at credential.now) }
{
    let mut cursor = Cursor::new(credential);
    let caller = take_sys_caller(&mut cursor).ok()?;
    cursor.end().ok()?;
    Some(caller)
}

// Stamp, gid and gids are passed over.
#[tactic(auto, unfolding(crate::specs::Messages::sys_caller_at))]
fn take_sys_caller<'a>(cursor: &mut Cursor<'a>) -> Result<Caller<'a>, XdrFault>
    ensures { Gives (λ c. record { principal = c.principal; machine = c.machine.now }) sys_caller_at cursor.old result cursor.new }
{
    cursor.take_u32()?;
    let machine = cursor.take_opaque(255)?;
    let uid = cursor.take_u32()?;
    cursor.take_u32()?;
    cursor.pass_words(16)?;
    Ok(Caller {
        principal: Principal { flavor: 1, uid },
        machine,
    })
}

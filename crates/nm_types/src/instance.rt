//! Client instances: a client's string, the verifier of one of its starts, and its principal.
ghost use Rattle.std.specs.Prelude.{◌≡◌, ◌<◌, ◌≤◌, ◌↔◌, ℕ, length, IsTrue, IfOk, IfErr, IsOk};
ghost use Rattle.nm_types.specs.Parties.{padded, same_party};
ghost use Rattle.nm_types.specs.declared.instance.NameFault.TheVariants.{TooLong};

use std::cmp::Ordering;
use std::fmt;
use std::marker::Model;

/// Who vouches for a caller: an RPC flavor with the user that it names. AUTH_NONE (flavor 0) has uid 0;
/// AUTH_SYS is flavor 1 (RFC 5531, 8.2).
#[derive(Clone, Copy, Debug, PartialEq, Eq, PartialOrd, Ord)]
pub struct Principal {
    /// The RPC authentication flavor.
    pub flavor: u32,
    /// The user's number.
    pub uid: u32,
}

/// Why a client's string is refused.
#[derive(Clone, Copy, Debug)]
pub enum NameFault {
    /// The string has more than 1,024 bytes, the limit of RFC 7530, 3.1 (NFS4_OPAQUE_LIMIT).
    TooLong {
        /// How many bytes it has.
        got: usize,
    },
}

/// One start of a client (RFC 7530, 9.1.1): its string, its boot verifier and its principal. The string stands in
/// place, so an instance is copied without memory.
#[derive(Clone, Copy)]
pub struct Instance {
    id: [u8; 1024],
    used: usize,
    verifier: u64,
    principal: Principal,
}

impl Model for Instance {
    ghost use Rattle.nm_types.specs.Parties.{Party};

    ghost Value = { Party };

    ghost use Rattle.std.specs.Prelude.{take, length};
    ghost use Rattle.nm_types.specs.Parties.{padded, IsKept};

    ghost view = { λ i. record { id = take i.used i.id; verifier = i.verifier; principal = i.principal } };

    ghost invariant = { λ i. IsKept i.id i.used };

    ghost inverse = { λ p. record { id = padded p.id; used = length p.id; verifier = p.verifier; principal = p.principal } };
}

// The string, filled up with zeros to the length of the array.
#[tactic(auto, using(crate::proofs::PartyLemmas::drop_zeros_is_padded))]
fn padded_with_zeros(id: &[u8]) -> [u8; 1024]
    requires { length id.now ≤ 1024 }
    ensures { result ≡ padded id.now }
{
    let mut bytes = [0; 1024];
    bytes[..id.len()].copy_from_slice(id);
    bytes
}

impl Instance {
    /// The instance of that string, verifier and principal. It takes no memory. `TooLong` exactly past 1,024 bytes.
    #[tactic(auto, using(crate::proofs::PartyLemmas::kept_when_padded, crate::proofs::PartyLemmas::take_of_padded))]
    pub fn make(id: &[u8], verifier: u64, principal: Principal) -> Result<Instance, NameFault>
        ensures value { IfOk result (λ i. (i.id ≡ id.now) × (i.verifier ≡ verifier) × (i.principal ≡ principal)) }
        ensures fits { IsOk result ↔ (length id.now ≤ 1024) }
        ensures too_long { IfErr result (λ e. e ≡ TooLong (length id.now)) }
    {
        if id.len() > 1024 {
            return Err(NameFault::TooLong { got: id.len() });
        }
        Ok(Instance {
            id: padded_with_zeros(id),
            used: id.len(),
            verifier,
            principal,
        })
    }

    /// The same instance once more.
    pub fn share(&self) -> Instance
        ensures { result ≡ self.now }
    {
        *self
    }

    /// Whether both are the same start of the same client.
    pub fn is_same(&self, other: &Instance) -> bool
        ensures value { result ≡ same_party self.now other.now }
    {
        self == other
    }

    /// Its string, of at most 1,024 bytes.
    pub fn id(&self) -> &[u8]
        ensures value { result.now ≡ self.now.id }
        ensures length { length result.now ≤ 1024 }
    {
        &self.id[..self.used]
    }

    /// The verifier of this start.
    pub fn verifier(&self) -> u64
        ensures { result ≡ self.now.verifier }
    {
        self.verifier
    }

    /// Who vouches for it.
    pub fn principal(&self) -> Principal
        ensures { result ≡ self.now.principal }
    {
        self.principal
    }
}

impl fmt::Debug for Instance {
    /// Its string, verifier and principal.
    fn fmt<W: fmt::Write>(&self, f: &mut fmt::Formatter<W>) -> fmt::Result {
        let (id, principal) = (self.id(), self.principal);
        write!(
            f,
            "Instance {{ id: {id:?}, verifier: {}, principal: {principal:?} }}",
            self.verifier
        )
    }
}

impl PartialEq for Instance {
    ghost use Rattle.std.specs.Prelude.{◌==◌, ◌&&◌};
    ghost use Rattle.std.specs.Str.{bytes_eq};
    ghost use Rattle.std.specs.Cmp.Rules.{comparing};
    ghost use Rattle.std.proofs.Common.{rules};

    ghost eq = { λ a b. (a.verifier == b.verifier)
        && (a.principal.flavor == b.principal.flavor)
        && (a.principal.uid == b.principal.uid)
        && bytes_eq a.id b.id };

    ghost laws = { Prim.search (comparing, rules) };

    fn eq(&self, other: &Self) -> bool {
        let same_start = self.verifier == other.verifier;
        let same_principal = self.principal == other.principal;
        same_start && same_principal && self.id() == other.id()
    }
}

impl Eq for Instance {
    ghost use Rattle.std.specs.Cmp.Rules.{comparing};
    ghost use Rattle.std.proofs.Common.{rules};

    ghost laws = { Prim.search (comparing, rules) };
}

impl Ord for Instance {
    ghost use Rattle.nm_types.specs.Parties.{party_cmp};
    ghost use Rattle.std.specs.Cmp.Rules.{comparing};
    ghost use Rattle.std.proofs.Common.{rules};

    ghost cmp = { party_cmp };

    ghost total = { Prim.search (comparing, rules) };

    ghost matches_partial_cmp = { Prim.search (comparing, rules) };

    ghost matches_eq = { Prim.search (comparing, rules) };

    /// The order of string, verifier, flavor and user.
    fn cmp(&self, other: &Self) -> Ordering {
        self.id()
            .cmp(other.id())
            .then(self.verifier.cmp(&other.verifier))
            .then(self.principal.flavor.cmp(&other.principal.flavor))
            .then(self.principal.uid.cmp(&other.principal.uid))
    }
}

impl PartialOrd for Instance {
    ghost use Rattle.nm_types.specs.Parties.{party_cmp};
    ghost use Rattle.std.specs.Cmp.{partial_order_from_own_ties};
    ghost use Rattle.std.specs.Cmp.Rules.{comparing};
    ghost use Rattle.std.specs.Ordering.{as_partial_cmp};
    ghost use Rattle.std.proofs.Common.{rules};

    ghost partial_cmp = { as_partial_cmp party_cmp };

    ghost laws = { partial_order_from_own_ties (Prim.search (comparing, rules) depth 12) (Prim.search (comparing, rules) depth 12) };

    fn partial_cmp(&self, other: &Self) -> Option<Ordering> {
        Some(self.cmp(other))
    }
}

//! Who holds the lock that is in the way, by its index.
ghost use Rattle.std.specs.Prelude.{◌≡◌};
ghost use Rattle.std.specs.List.{position_or_len};
ghost use Rattle.std.specs.List.Sorted.{IsStrictlySortedBy};
ghost use Rattle.nm_types.specs.Parties.{party_cmp};
ghost use Rattle.nm_results.specs.Holders.{index_of, is_party};

use nm_types::Instance;

/// The index of an instance among these, which rise. One that isn't among them has the number of them all.
#[tactic(auto, unfolding(crate::specs::Holders::index_of))]
pub(crate) fn index_of(holders: &[Instance], instance: &Option<Instance>) -> usize
    requires { IsStrictlySortedBy party_cmp holders.now }
    ensures { result ≡ index_of holders.now instance.now }
{
    match instance {
        Some(instance) => place_of(holders, instance),
        None => holders.len(),
    }
}

fn place_of(holders: &[Instance], instance: &Instance) -> usize
    requires { IsStrictlySortedBy party_cmp holders.now }
    ensures { result ≡ position_or_len (is_party instance.now) holders.now }
{
    match holders.binary_search(instance) {
        Ok(place) => place,
        Err(_) => holders.len(),
    }
}

//! Names of files (RFC 7530, 12).
ghost use Rattle.std.specs.Prelude.{◌≡◌, ◌||◌, [], ◌∷◌};
ghost use Rattle.std.specs.List.{list_any};
ghost use Rattle.std.specs.Str.{bytes_eq};
ghost use Rattle.nm_rules.specs.Lists.{is_empty};
ghost use Rattle.nm_rules.specs.Names.{parts_paths, is_bad_name, name_fault};
ghost use Rattle.nm_rules.specs.Checks.{name_stop};

use nm_types::OpStatus;

// Whether the name has a slash or a zero byte.
fn has_separator(name: &[u8]) -> bool
    ensures { result ≡ list_any parts_paths name.now }
{
    name.iter().any(|byte| *byte == b'/' || *byte == 0)
}

// Whether it is `.` or `..`.
fn is_dots(name: &[u8]) -> bool
    ensures { result ≡ (bytes_eq name.now (46 ∷ []) || bytes_eq name.now (46 ∷ 46 ∷ [])) }
{
    name == b".".as_slice() || name == b"..".as_slice()
}

#[tactic(auto, unfolding(nm_rules::specs::Names::is_bad_name))]
fn is_bad(name: &[u8]) -> bool
    ensures { result ≡ is_bad_name name.now }
{
    is_dots(name) || has_separator(name)
}

// What is wrong with a name that isn't empty.
#[tactic(auto, unfolding(nm_rules::specs::Names::name_fault))]
fn fault(name: &[u8]) -> Option<OpStatus>
    ensures { result ≡ name_fault name.now }
{
    if name.len() > 255 {
        return Some(OpStatus::NameTooLong);
    }
    if is_bad(name) {
        return Some(OpStatus::BadName);
    }
    None
}

/// Whether there are no bytes.
#[tactic(auto, unfolding(nm_rules::specs::Lists::is_empty))]
pub fn is_empty(bytes: &[u8]) -> bool
    ensures { result ≡ is_empty bytes.now }
{
    match bytes {
        [] => true,
        _ => false,
    }
}

/// What is wrong with a name.
#[tactic(auto, using(crate::proofs::CallLemmas::name_stop_of))]
pub fn name_stop(name: &[u8]) -> Option<OpStatus>
    ensures { result ≡ name_stop name.now }
{
    if is_empty(name) {
        Some(OpStatus::Inval)
    } else {
        fault(name)
    }
}

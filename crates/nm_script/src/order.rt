//! The order of a script's lines, which their first words alone decide.
ghost use Rattle.std.specs.Prelude.{◌≡◌, map};
ghost use Rattle.nm_script.specs.Reading as spec;

use crate::words::is_word;

/// What a line is, by its first word: one of the head, or one that is run. They come in this order:
///
/// ```text
/// nfsmove -> lease -> server -> fs -> client -> lines that are run
/// ```
///
/// The first three come in every script, and each of the others may be missing.
#[derive(Clone, Copy)]
pub(crate) enum Kind {
    Version,
    Lease,
    Server,
    FileSystem,
    Client,
    Run,
}

/// What a line is that begins with this word.
#[tactic(auto, unfolding(crate::specs::Reading::kind_of))]
fn kind_of(word: &[u8]) -> Kind
    ensures { result ≡ spec.kind_of word.now }
{
    if is_word(word, b"nfsmove") {
        return Kind::Version;
    }
    if is_word(word, b"lease") {
        return Kind::Lease;
    }
    if is_word(word, b"server") {
        return Kind::Server;
    }
    if is_word(word, b"fs") {
        return Kind::FileSystem;
    }
    if is_word(word, b"client") {
        return Kind::Client;
    }
    Kind::Run
}

/// What a line of these words is.
pub(crate) fn first_kind(words: &[&[u8]]) -> Kind
    ensures { result ≡ spec.first_kind (map (λ word. word.now) words.now) }
{
    match words {
        [] => Kind::Run,
        [first, ..] => kind_of(first),
    }
}

/// Whether a line of that kind may stand behind the last one.
#[tactic(auto, unfolding(crate::specs::Reading::may_follow))]
pub(crate) fn may_follow(last: Option<Kind>, next: Kind) -> bool
    ensures { result ≡ spec.may_follow last next }
{
    match last {
        None => matches!(next, Kind::Version),
        Some(Kind::Version) => matches!(next, Kind::Lease),
        Some(Kind::Lease) => matches!(next, Kind::Server),
        Some(Kind::Server) => !matches!(next, Kind::Version | Kind::Lease),
        Some(Kind::FileSystem) => matches!(next, Kind::FileSystem | Kind::Client | Kind::Run),
        Some(Kind::Client) => matches!(next, Kind::Client | Kind::Run),
        Some(Kind::Run) => matches!(next, Kind::Run),
    }
}

//! The attributes that a request sets, as they came (RFC 7530, 5.8): of the supported ones size and mode alone can be set.
ghost use Rattle.std.specs.Prelude.{◌≡◌, ◌==◌, ◌≤◌, true, false, [], ◌∷◌, length, bit_or, IfOk};
ghost use Rattle.std.specs.List.{list_all};
ghost use Rattle.nm_rules.specs.Attributes.{are_within, asked_mode, asked_size, asks_of, has_mode, has_size, is_invalid, is_unsupported, set_words, sets_any, values_ask};
ghost use Rattle.nm_types.specs.Wire.{hyper_in, word_in};
ghost use Rattle.nm_state.specs.Asked.{asks_of_code};

use nm_types::{Fattr, Items, Memory, Words};
use std::alloc::Global;

/// What attributes ask for.
#[derive(Clone, Copy)]
pub enum Asked {
    /// One of them isn't supported.
    Unsupported,
    /// One can't be set, or the values can't be read.
    Invalid,
    /// A size in bytes, a mode, both or none.
    Sets {
        size: Option<u64>,
        mode: Option<u32>,
    },
}

impl Asked {
    /// The size that is to be set, in bytes.
    pub fn size(self) -> Option<u64>
        ensures { result ≡ asked_size (asks_of_code self) }
    {
        match self {
            Asked::Sets { size, .. } => size,
            Asked::Unsupported | Asked::Invalid => None,
        }
    }

    /// The mode that is to be set.
    pub fn mode(self) -> Option<u32>
        ensures { result ≡ asked_mode (asks_of_code self) }
    {
        match self {
            Asked::Sets { mode, .. } => mode,
            Asked::Unsupported | Asked::Invalid => None,
        }
    }

    /// Something is set.
    pub fn sets_any(self) -> bool
        ensures { result ≡ sets_any (asks_of_code self) }
    {
        match (self.size(), self.mode()) {
            (None, None) => false,
            (Some(_), _) => true,
            (None, Some(_)) => true,
        }
    }

    /// One can't be set, or the values can't be read.
    pub fn is_invalid(self) -> bool
        ensures { result ≡ is_invalid (asks_of_code self) }
    {
        match self {
            Asked::Invalid => true,
            Asked::Unsupported | Asked::Sets { .. } => false,
        }
    }

    /// One isn't supported.
    pub fn is_unsupported(self) -> bool
        ensures { result ≡ is_unsupported (asks_of_code self) }
    {
        match self {
            Asked::Unsupported => true,
            Asked::Invalid | Asked::Sets { .. } => false,
        }
    }
}

/// The words of the bitmap of what was set.
#[tactic(auto, unfolding(nm_rules::specs::Attributes::set_words))]
pub fn set_words(alloc: Global, size: Option<u64>, mode: Option<u32>) -> Result<Words, Memory>
    ensures { IfOk result (λ words. words ≡ set_words size mode) }
{
    match (size, mode) {
        (None, None) => Ok(Items::new(alloc)),
        (Some(_), None) => Items::from_slice(alloc, &[16]),
        (None, Some(_)) => Items::from_slice(alloc, &[0, 2]),
        (Some(_), Some(_)) => Items::from_slice(alloc, &[16, 2]),
    }
}

/// What attributes ask for, read off their bitmap and their values.
#[tactic(auto, unfolding(nm_rules::specs::Attributes::asks_of))]
pub fn asks_of(fattr: &Fattr) -> Asked
    ensures { asks_of_code result ≡ asks_of fattr.now }
{
    let words = fattr.words.items();
    if !are_within(0x0118_0fff, 2, words) {
        return Asked::Unsupported;
    }
    if !are_within(16, 2, words) {
        return Asked::Invalid;
    }
    values_ask(has_size(words), has_mode(words), fattr.values.items())
}

// Whether each bit of a bitmap is one of these in its first two words.
#[tactic(auto, unfolding(nm_rules::specs::Attributes::are_within))]
fn are_within(first: u32, second: u32, words: &[u32]) -> bool
    ensures { result ≡ are_within (first ∷ second ∷ []) words.now }
{
    match words.split_first() {
        None => true,
        Some((word, others)) => {
            if !has_only(*word, first) {
                return false;
            }
            is_within(second, others)
        }
    }
}

// Whether each bit of a bitmap is one of these in its first word.
#[tactic(auto, using(crate::proofs::AttributeLemmas::within_none), unfolding(nm_rules::specs::Attributes::are_within))]
fn is_within(these: u32, words: &[u32]) -> bool
    ensures { result ≡ are_within (these ∷ []) words.now }
{
    match words.split_first() {
        None => true,
        Some((word, others)) => {
            if !has_only(*word, these) {
                return false;
            }
            all_zero(others)
        }
    }
}

// Whether each bit of a word is one of these.
fn has_only(word: u32, these: u32) -> bool
    ensures { result ≡ (bit_or word these == these) }
{
    word | these == these
}

// No bit of these words is set.
fn all_zero(words: &[u32]) -> bool
    ensures { result ≡ list_all (λ word. word == 0) words.now }
{
    words.iter().all(|word| *word == 0)
}

/// Whether a bitmap has size (attribute 4).
#[tactic(auto, unfolding(nm_rules::specs::Attributes::has_size))]
pub fn has_size(words: &[u32]) -> bool
    ensures { result ≡ has_size words.now }
{
    match words {
        [] => false,
        [word, ..] => *word & 16 != 0,
    }
}

// Whether a bitmap has mode (attribute 33).
#[tactic(auto, unfolding(nm_rules::specs::Attributes::has_mode))]
fn has_mode(words: &[u32]) -> bool
    ensures { result ≡ has_mode words.now }
{
    match words {
        [] | [_] => false,
        [_, word, ..] => *word & 2 != 0,
    }
}

// What the values of size, of mode, of both or of none ask for.
#[tactic(auto, unfolding(nm_rules::specs::Attributes::values_ask))]
fn values_ask(has_size: bool, has_mode: bool, values: &[u8]) -> Asked
    ensures { asks_of_code result ≡ values_ask has_size has_mode values.now }
{
    match (has_size, has_mode) {
        (false, false) => nothing_in(values),
        (true, false) => size_in(values),
        (false, true) => mode_in(values),
        (true, true) => both_in(values),
    }
}

#[tactic(auto, unfolding(nm_rules::specs::Attributes::values_ask))]
fn nothing_in(values: &[u8]) -> Asked
    ensures { asks_of_code result ≡ values_ask false false values.now }
{
    if values.len() != 0 {
        return Asked::Invalid;
    }
    Asked::Sets {
        size: None,
        mode: None,
    }
}

#[tactic(auto, unfolding(nm_rules::specs::Attributes::values_ask))]
fn size_in(values: &[u8]) -> Asked
    ensures { asks_of_code result ≡ values_ask true false values.now }
{
    if values.len() != 8 {
        return Asked::Invalid;
    }
    Asked::Sets {
        size: Some(hyper_of(values)),
        mode: None,
    }
}

#[tactic(auto, unfolding(nm_rules::specs::Attributes::values_ask))]
fn mode_in(values: &[u8]) -> Asked
    ensures { asks_of_code result ≡ values_ask false true values.now }
{
    if values.len() != 4 {
        return Asked::Invalid;
    }
    Asked::Sets {
        size: None,
        mode: Some(word_of(values)),
    }
}

#[tactic(auto, unfolding(nm_rules::specs::Attributes::values_ask))]
fn both_in(values: &[u8]) -> Asked
    ensures { asks_of_code result ≡ values_ask true true values.now }
{
    if values.len() != 12 {
        return Asked::Invalid;
    }
    Asked::Sets {
        size: Some(hyper_of(values)),
        mode: Some(word_of(&values[8..])),
    }
}

// The number in the first 4 bytes.
#[tactic(auto, unfolding(nm_types::specs::Wire::word_in))]
fn word_of(bytes: &[u8]) -> u32
    requires { 4 ≤ length bytes.now }
    ensures { result ≡ word_in bytes.now }
{
    u32::from_be_bytes([bytes[0], bytes[1], bytes[2], bytes[3]])
}

// The number in the first 8 bytes.
#[tactic(auto, unfolding(nm_types::specs::Wire::hyper_in))]
fn hyper_of(bytes: &[u8]) -> u64
    requires { 8 ≤ length bytes.now }
    ensures { result ≡ hyper_in bytes.now }
{
    u64::from_be_bytes([
        bytes[0], bytes[1], bytes[2], bytes[3], bytes[4], bytes[5], bytes[6], bytes[7],
    ])
}

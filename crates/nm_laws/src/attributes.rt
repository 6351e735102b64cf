//! That what may be named of a file's attributes is what messages have of them.
ghost use Rattle.std.specs.Prelude.{◌≡◌};
ghost use Rattle.nm_attrs.specs.Attributes.{supported_words as words_of_the_table};
ghost use Rattle.nm_rules.specs.Attributes.{supported_words};

/// The attributes that a call may name without ATTRNOTSUPP (RFC 7530, 5.6 and 5.7) are those that are read and written of messages.
pub fn one_list_of_attributes_is_supported()
    ensures { supported_words ≡ words_of_the_table }
{}

//! Parts of the bytes of a file, and of those that a WRITE brings.
ghost use Rattle.std.specs.Prelude.{◌≡◌, ◌≤◌, take, length};
ghost use Rattle.nm_rules.specs.Contents.{part, taken};

/// The bytes of one READ or WRITE.
pub const TRANSFER_LIMIT: usize = 65_536;

/// So many bytes from an offset, or as many as there are.
#[tactic(auto, using(std::proofs::lemmas::List::take_min, std::proofs::lemmas::List::drop_min), unfolding(nm_rules::specs::Contents::part))]
pub fn part(bytes: &[u8], offset: u64, count: usize) -> &[u8]
    ensures { result.now ≡ part offset count bytes.now }
{
    let start = offset.min(bytes.len() as u64) as usize;
    front(bytes.split_at(start).1, count)
}

// The first bytes.
#[tactic(auto, using(std::proofs::lemmas::List::take_min))]
fn front(bytes: &[u8], count: usize) -> &[u8]
    ensures value { result.now ≡ take count bytes.now }
    ensures bound { length result.now ≤ count }
{
    bytes.split_at(count.min(bytes.len())).0
}

/// What is written of the bytes that a WRITE brings.
#[tactic(auto, unfolding(nm_rules::specs::Contents::taken))]
pub fn taken(bytes: &[u8]) -> &[u8]
    ensures value { result.now ≡ taken bytes.now }
    ensures bound { length result.now ≤ 65536 }
{
    front(bytes, TRANSFER_LIMIT)
}

//! Laws of legal lists: each is the contract of a function that does nothing. They are over the definitions alone, and
//! the contracts of the crates above bind the code to the same definitions.
ghost use Rattle.std.specs.Prelude.{◌≡◌, ◌≢◌, ◌≤◌, ◌<◌, ◌+◌, ℕ, Bool, true, Some, length, slice_get};
ghost use Rattle.nm_rules.specs.Contents.{file_at};
ghost use Rattle.nm_rules.specs.FileReadings.{IsRead};
ghost use Rattle.nm_types.specs.declared.rows.FileRow.{FileRow as AnyRow};
ghost use Rattle.nm_rules.specs.Opens.{rows_limit, rows_taken};
ghost use Rattle.nm_rules.specs.OwnerReadings.{closed_of, counter_list, kept_close, owner_now, seqids_of};
ghost use Rattle.nm_rules.specs.Past.{Past, now, judgement};
ghost use Rattle.nm_rules.specs.Seqids.{owner_at};
ghost use Rattle.nm_rules.specs.Seen.{Seen, seen, look, after};
ghost use Rattle.nm_rules.specs.Answer.{answer, IsLegal};
ghost use Rattle.nm_rules.specs.Sound.{FilesFit, IsSound, OwnersAreKnown, all_stand_in};
ghost use Rattle.nm_types.specs.Parties.{Party};
ghost use Rattle.nm_rules.specs.Holders.{holders, has_row, is_among, parties_rise};
ghost use Rattle.nm_rules.specs.Readings.{share_of, share_in, AreCompatible};
ghost use Rattle.nm_rules.specs.StateidReadings.{makes, stateids_made, TellsCounter};
ghost use Rattle.nm_types.specs.declared.calls.Owner.{Owner as AnyOwner};
ghost use Rattle.nm_types.specs.declared.calls.Call.{Call as AnyCall};
ghost use Rattle.nm_types.specs.declared.calls.Event.{Event as AnyEvent};
ghost use Rattle.nm_types.specs.declared.calls.Event.TheVariants.{Asked};
ghost use Rattle.nm_types.specs.declared.calls.Verdict.{Verdict as AnyVerdict};
ghost use Rattle.nm_types.specs.declared.owners.Judgement.TheVariants.{Again};
ghost use Rattle.nm_types.specs.declared.calls.Reply.{Reply as AnyReply};

/// No two owners hold conflicting shares of a file (RFC 7530, 9.9): what one does is never what the other denies.
pub fn shares_never_conflict()
    ensures { (fs : ℕ) (grants : Bool) (es : Past) → IsLegal fs grants es
        → (owner other : AnyOwner) (file : ℕ) → owner ≢ other
        → AreCompatible (share_of es owner file) (share_of es other file) }
{}

/// The table of opens keeps the share of each owner on each file, as the entries tell it.
pub fn tables_keep_shares()
    ensures { (fs : ℕ) (grants : Bool) (es : Past) → IsLegal fs grants es
        → (owner : AnyOwner) (file : ℕ) → share_of es owner file ≡ share_in owner file (seen fs grants es).opens }
{}

/// The tables show what stands: each look-up in them gives what the entries leave under its key.
pub fn tables_show_what_stands()
    ensures { (fs : ℕ) (grants : Bool) (es : Past) → IsLegal fs grants es → look (seen fs grants es) ≡ now es }
{}

/// The counter of the last stateid is how many were made, one by each OPEN that acted while its owner had no share of the file
/// (RFC 7530, 16.16) and by each LOCK that acted for a new lock owner (16.10); and the k-th one is told with the counter k.
pub fn stateids_are_counted()
    ensures last { (fs : ℕ) (grants : Bool) (es : Past) → IsLegal fs grants es → (seen fs grants es).last ≡ stateids_made es }
    ensures told { (fs : ℕ) (grants : Bool) (es : Past) (event : AnyEvent) → IsLegal fs grants es
        → makes es event (answer fs grants es event) ≡ true → TellsCounter (answer fs grants es event).value (stateids_made es + 1) }
{}

/// The tables of a legal list are sound: counters rise up to the last, all opens may stand together, and no two files of a
/// directory have one name.
pub fn legal_tables_are_sound()
    ensures { (fs : ℕ) (grants : Bool) (es : Past) → IsLegal fs grants es → IsSound (seen fs grants es) }
{}

/// A file system never has more than 4,096 files, a file more than 1 MiB, or all files together more than 64 MiB.
pub fn files_stay_within_their_limits()
    ensures { (fs : ℕ) (grants : Bool) (es : Past) → IsLegal fs grants es → FilesFit (seen fs grants es).tree }
{}

/// Each file but the root is in a directory that is there.
pub fn files_are_in_directories()
    ensures { (fs : ℕ) (grants : Bool) (es : Past) → IsLegal fs grants es → all_stand_in (seen fs grants es).tree.table ≡ true }
{}

/// The owner of each live open is an owner of opens, and is known. So is that of each open whose CLOSE is its owner's kept call, and
/// that of each lock stateid: no stateid has an owner of whom nothing is kept.
pub fn owners_of_opens_are_known()
    ensures { (fs : ℕ) (grants : Bool) (es : Past) → IsLegal fs grants es → OwnersAreKnown (seen fs grants es) }
{}

/// No more than 65,536 rows are ever taken: owners that are known, live opens, and opens whose CLOSE is their owner's kept call.
pub fn rows_stay_within_the_limit()
    ensures { (fs : ℕ) (grants : Bool) (es : Past) → IsLegal fs grants es → rows_taken (seen fs grants es) ≤ rows_limit }
{}

/// The list of holders rises, so that none stands in it twice, and an instance is in it exactly where it has a row: an owner
/// of it is known, or an open of it is live.
pub fn holders_have_rows()
    ensures rise { (s : Seen) → parties_rise (holders s) ≡ true }
    ensures exact { (s : Seen) (party : Party) → is_among party (holders s) ≡ has_row party s }
{}

/// There are no more holders than opens and owners, and an event adds at most one of each. So room for two more than there are
/// is room for the holders after the next event.
pub fn rows_grow_by_two()
    ensures fit { (s : Seen) → length (holders s) ≤ length s.opens + length s.owners }
    ensures grow { (s : Seen) (event : AnyEvent) (reply : AnyReply)
        → length (after s event reply).opens + length (after s event reply).owners ≤ length s.opens + length s.owners + 2 }
{}

/// An operation whose seqid says that it came before changes nothing (RFC 7530, 9.1.7), whatever it is answered.
pub fn repeats_change_nothing()
    ensures { (s : Seen) (call : AnyCall) (verdict : AnyVerdict) (reply : AnyReply)
        → judgement (look s) call ≡ Again → after s (Asked call verdict) reply ≡ s }
{}

/// While an owner is known it comes back to a seqid only after all others (RFC 7530, 9.1.7): of two operations that moved it on
/// by the same seqid, 2^32 - 2 such operations stand between them. Here they are numbered from the newest, and a LOCK that
/// starts a lock owner is one of them.
pub fn seqids_are_apart()
    ensures { (fs : ℕ) (grants : Bool) (es : Past) (owner : AnyOwner) (newer older n : ℕ) → IsLegal fs grants es
        → slice_get (seqids_of es owner) newer ≡ Some n → slice_get (seqids_of es owner) older ≡ Some n
        → newer < older → newer + 4294967295 ≤ older }
{}

/// An open that is closed is kept exactly while its CLOSE is its owner's kept call: the counters of an owner's closed opens are
/// that of the kept call, where it is a CLOSE that was carried out, and else none. So a CLOSE that comes again finds its owner.
pub fn closed_opens_are_kept_closes()
    ensures { (fs : ℕ) (grants : Bool) (es : Past) → IsLegal fs grants es
        → (owner : AnyOwner) → closed_of owner (seen fs grants es).closed ≡ counter_list (kept_close (owner_at owner (seen fs grants es).owners)) }
{}

/// The table of owners keeps of each owner what the entries tell: the seqid, the call and the reply of its latest fresh
/// operation whose status moves it on, or of the LOCK that started it (16.10), since its client's latest end and its own latest
/// release (RFC 7530, 9.1.7 and 16.37), and whether an OPEN_CONFIRM of it was carried out since then (16.18). An owner is known
/// exactly where there is such an operation.
pub fn owners_are_kept_as_noted()
    ensures { (fs : ℕ) (grants : Bool) (es : Past) → IsLegal fs grants es
        → (owner : AnyOwner) → owner_at owner (seen fs grants es).owners ≡ owner_now es owner }
{}

/// The tree says of each file what the entries say: its bytes are those of the latest WRITEs that cover them since it was
/// made or cut, its size and its mode those of the latest SETATTR or WRITE, and its name and directory those of its making.
pub fn files_read_as_written()
    ensures { (fs : ℕ) (grants : Bool) (es : Past) → IsLegal fs grants es
        → (file : ℕ) (row : AnyRow) → file_at file (seen fs grants es).tree.table ≡ Some row → IsRead es row }
{}

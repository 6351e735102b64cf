//! OPEN (RFC 7530, 16.16).
ghost use Rattle.std.specs.Prelude.{◌≡◌, ◌<◌, ◌≤◌, ◌+◌, ◌^◌, true, false, None, Some, IfOk, OnOk, is_none, nat_lt, option_copied};
ghost use Rattle.std.specs.Option.{option_or};
ghost use Rattle.nm_rules.specs.Sound.{rises};
ghost use Rattle.nm_rules.specs.Shares.{is_opposed, open_of};
ghost use Rattle.nm_rules.specs.Past.{claimed_name, opener};
ghost use Rattle.nm_rules.specs.Checks.{behind_seqid, refuse_if};
ghost use Rattle.nm_rules.specs.Opens.{GoesOpen, target, target_at, row_of, file_to_open, open_kind, is_share, name_refusal, draws_past_end, tree_limit, open_limit, open_checks, row_to_open, rows_limit, rows_with_open, one_if, open_change, open_flags, open_set, open_value};
ghost use Rattle.nm_rules.specs.Stateids.{stateid_of};
ghost use Rattle.nm_types.specs.declared.status.OpStatus.TheVariants.{Resource};
ghost use Rattle.nm_rules.specs.Seqids.OwnerWord.{Stays};
ghost use Rattle.nm_types.specs.declared.calls.Event.TheVariants.{Asked as AskedEvent};
ghost use Rattle.nm_types.specs.declared.calls.Deed.TheVariants.{Open as OpenDeed};
ghost use Rattle.nm_rules.specs.Answer.{answer_to};
ghost use Rattle.nm_state.specs.Opening.{Applied, after_open, after_taking};
ghost use Rattle.nm_state.specs.Turns.{Passes, Went, reply_behind};

use crate::attributes::set_words;
use crate::checks::{LAST, is_dir, lease_refusal, refuse_if};
use crate::claims::{cuts, name_of, name_refusal, open_fault, opentype_asks, owner_of, touches};
use crate::closed::count_others;
use crate::seqids::{ROWS_LIMIT, Turn};
use crate::tables::Tables;
use nm_shares::seqid_after;
use nm_types::{
    Call, ChangeInfo, Claim, FileRow, Instance, Memory, OpStatus, OpenArgs, OpenDelegation, OpenOk,
    OpenType, Opened, Owner, Reply, ReplyValue, StateId, Verdict, Words,
};

// A number and one more, where there is one.
fn with_one(count: usize, more: bool) -> usize
    requires { count ≤ 2 ^ 63 }
    ensures { result ≡ count + one_if more }
{
    if more { count + 1 } else { count }
}

// 4 says that locks follow POSIX, and 2 that the owner has to confirm.
fn open_flags(confirmed: bool) -> u32
    ensures { result ≡ open_flags confirmed }
{
    if confirmed { 4 } else { 6 }
}

impl Tables {
    /// The file that an OPEN names: by its name in the current directory, or the current file itself.
    #[tactic(auto, unfolding(nm_rules::specs::Opens::target_at))]
    pub fn target(&self, file: u64, claim: &Claim) -> Option<u64>
        ensures { result ≡ target_at self.now.tree.table file (claimed_name claim.now) }
    {
        match name_of(claim) {
            Some(name) => self.tree.child(file, name.items()),
            None => Some(file),
        }
    }

    // That file's row.
    fn row_of(&self, file: Option<u64>) -> Option<&FileRow>
        ensures { option_copied result ≡ row_of self.now.tree.table file }
    {
        match file {
            Some(file) => self.tree.row(file),
            None => None,
        }
    }

    // The file that an OPEN opens: the one that it names, or a new one.
    fn file_to_open(&self, file: u64, args: &OpenArgs) -> u64
        ensures { result ≡ file_to_open self.now file args.now }
    {
        self.target(file, &args.claim)
            .unwrap_or(self.tree.last_file() + 1)
    }

    // What is opened by name is in a directory, and none itself.
    #[tactic(auto, unfolding(nm_rules::specs::Opens::open_kind))]
    fn open_kind(&self, file: u64, claim: &Claim) -> Option<OpStatus>
        ensures { result ≡ open_kind self.now.tree.table file (claimed_name claim.now) }
    {
        match name_of(claim) {
            None => refuse_if(self.is_dir(file), OpStatus::IsDir),
            Some(name) => {
                let child = self.row_of(self.tree.child(file, name.items()));
                refuse_if(self.is_no_dir(file), OpStatus::NotDir).or(refuse_if(
                    is_dir(child),
                    OpStatus::IsDir,
                ))
            }
        }
    }

    // A file that is there, or isn't.
    fn target_stop(&self, file: u64, args: &OpenArgs) -> Option<OpStatus>
        ensures { result ≡ name_refusal args.now.opentype (target self.now file args.now) (row_of self.now.tree.table (target self.now file args.now)) }
    {
        let target = self.target(file, &args.claim);
        name_refusal(&args.opentype, target, self.row_of(target))
    }

    // Whether an OPEN would draw a counter past the last.
    fn draws_past_end(&self, party: Instance, owner: &Owner, file: u64, args: &OpenArgs) -> bool
        requires { owner.now ≡ opener party args.now }
        ensures { result ≡ draws_past_end self.now party file args.now }
    {
        self.shares
            .open_of(owner, self.file_to_open(file, args))
            .is_none()
            && LAST <= self.shares.last()
    }

    // What an OPEN makes, and what it cuts, past the limits.
    #[tactic(auto, unfolding(nm_rules::specs::Opens::tree_limit))]
    fn tree_limit(&self, target: Option<u64>, opentype: &OpenType) -> Option<OpStatus>
        ensures { result ≡ tree_limit self.now target opentype.now }
    {
        match target {
            None => self
                .sized_limit(None, opentype_asks(opentype).size())
                .or(refuse_if(self.makes_past_end(), OpStatus::Resource)),
            Some(_) => refuse_if(
                cuts(opentype) && self.changes_past_end(),
                OpStatus::Resource,
            ),
        }
    }

    // Whether an OPEN would leave more rows than there may be. Its owner's and its open's may be new, and the owner's closed
    // opens go.
    fn fills_rows(&self, owner: &Owner, file: u64) -> bool
        ensures { result ≡ nat_lt rows_limit (rows_with_open self.now owner.now file) }
    {
        let owners = self.owners.rows().len();
        let opens = self.shares.rows().len();
        let owner_is_new = self.owners.row_of(owner).is_none();
        let open_is_new = self.shares.open_of(owner, file).is_none();
        let closed = count_others(&self.closed, owner);
        ROWS_LIMIT
            < with_one(owners, owner_is_new)
                .saturating_add(with_one(opens, open_is_new))
                .saturating_add(closed)
                .saturating_add(self.lock_rows())
    }

    // The counter that an OPEN would draw, and the rows that it would leave.
    fn rows_stop(
        &self,
        party: Instance,
        owner: &Owner,
        file: u64,
        args: &OpenArgs,
    ) -> Option<OpStatus>
        requires { owner.now ≡ opener party args.now }
        ensures { result ≡ option_or (refuse_if (draws_past_end self.now party file args.now) Resource) (refuse_if (nat_lt rows_limit (rows_with_open self.now (opener party args.now) (file_to_open self.now file args.now))) Resource) }
    {
        refuse_if(
            self.draws_past_end(party, owner, file, args),
            OpStatus::Resource,
        )
        .or(refuse_if(
            self.fills_rows(owner, self.file_to_open(file, args)),
            OpStatus::Resource,
        ))
    }

    // The limits that an OPEN meets.
    #[tactic(auto, unfolding(nm_rules::specs::Opens::open_limit))]
    fn open_limit(
        &self,
        party: Instance,
        owner: &Owner,
        file: u64,
        args: &OpenArgs,
    ) -> Option<OpStatus>
        requires { owner.now ≡ opener party args.now }
        ensures { result ≡ open_limit self.now party file args.now }
    {
        self.tree_limit(self.target(file, &args.claim), &args.opentype)
            .or(self.rows_stop(party, owner, file, args))
    }

    // The first class behind the seqid that refuses an OPEN.
    #[tactic(auto, unfolding(nm_rules::specs::Opens::open_checks))]
    fn open_stop(
        &self,
        party: Instance,
        owner: &Owner,
        file: u64,
        args: &OpenArgs,
        verdict: Verdict,
    ) -> Option<OpStatus>
        requires { owner.now ≡ opener party args.now }
        ensures { result ≡ behind_seqid (open_checks self.now (Some party) file args.now verdict) }
    {
        if let Some(status) = lease_refusal(verdict) {
            return Some(status);
        }
        if let Some(status) = self.missing_stop(file) {
            return Some(status);
        }
        if let Some(status) = self.open_kind(file, &args.claim) {
            return Some(status);
        }
        if let Some(status) = open_fault(args) {
            return Some(status);
        }
        if let Some(status) = self.target_stop(file, args) {
            return Some(status);
        }
        let opened = self.file_to_open(file, args);
        if self
            .shares
            .is_opposed(owner, opened, args.access, args.deny)
        {
            return Some(OpStatus::ShareDenied);
        }
        self.open_limit(party, owner, file, args)
    }

    // The stateid that an OPEN that nothing stops tells.
    #[tactic(auto, unfolding(nm_rules::specs::Opens::row_to_open, nm_rules::specs::Shares::opened_row))]
    fn opened_stateid(&self, party: Instance, owner: &Owner, file: u64, args: &OpenArgs) -> StateId
        requires owner { owner.now ≡ opener party args.now }
        requires goes { GoesOpen self.now party file args.now }
        ensures { result ≡ stateid_of self.now.fs (row_to_open self.now party file args.now) }
    {
        let (seqid, counter) = match self.shares.open_of(owner, self.file_to_open(file, args)) {
            Some(row) => (seqid_after(row.seqid), row.counter),
            None => (1, self.shares.last() + 1),
        };
        StateId {
            seqid,
            fs: self.fs.number(),
            counter,
        }
    }

    // The directory's numbers around an OPEN.
    fn open_change(&self, file: u64, touched: bool) -> ChangeInfo
        ensures { result ≡ open_change self.now file touched }
    {
        let before = self.change_of(file);
        let after = if touched {
            self.tree.change() + 1
        } else {
            before
        };
        ChangeInfo { before, after }
    }

    // The bitmap of what an OPEN sets.
    fn open_set(&self, target: Option<u64>, opentype: &OpenType) -> Result<Words, Memory>
        ensures { IfOk result (λ words. words ≡ open_set target opentype.now) }
    {
        let asks = opentype_asks(opentype);
        match target {
            None => set_words(self.alloc, asks.size(), asks.mode()),
            Some(_) if cuts(opentype) => set_words(self.alloc, Some(0), None),
            Some(_) => Ok(Words::new(self.alloc)),
        }
    }

    // What an OPEN that nothing stops tells.
    #[tactic(auto, unfolding(nm_rules::specs::Opens::open_value))]
    fn opened(
        &self,
        party: Instance,
        owner: &Owner,
        file: u64,
        args: &OpenArgs,
    ) -> Result<Opened, Memory>
        requires owner { owner.now ≡ opener party args.now }
        requires goes { GoesOpen self.now party file args.now }
        ensures { IfOk result (λ opened. Some opened ≡ open_value self.now (Some party) file args.now) }
    {
        let target = self.target(file, &args.claim);
        let ok = OpenOk {
            stateid: self.opened_stateid(party, owner, file, args),
            cinfo: self.open_change(file, touches(target, &args.opentype)),
            rflags: open_flags(self.owners.is_confirmed(owner)),
            attrset: self.open_set(target, &args.opentype)?,
            delegation: OpenDelegation::None,
        };
        Ok(Opened {
            ok,
            file: self.file_to_open(file, args),
        })
    }

    // Takes the open of an OPEN that no row opposes.
    #[tactic(auto, unfolding(nm_shares::specs::Rows::take_answer, nm_shares::specs::Rows::after_take, crate::specs::Opening::after_taking))]
    fn take(&mut self, owner: &Owner, file: u64, args: &OpenArgs) -> Result<(), Memory>
        requires room { is_none (open_of owner.now file self.old.opens) ≡ true → self.old.last < 2 ^ 63 }
        requires share { is_share args.now.access args.now.deny ≡ true }
        requires free { is_opposed owner.now file args.now.access args.now.deny self.old.opens ≡ false }
        ensures rising { rises 0 self.old.last self.old.opens ≡ true }
        ensures after { OnOk result (self.new ≡ after_taking self.old owner.now file args.now.access args.now.deny) }
    {
        match self.shares.take_open(owner, file, args.access, args.deny) {
            Ok(_) => Ok(()),
            // No row opposes it, so it is want of memory.
            Err(_) => Err(Memory),
        }
    }

    // Carries out an OPEN that nothing stops.
    #[tactic(auto, using(crate::proofs::OpeningLemmas::room_to_take), unfolding(crate::specs::Opening::after_open, crate::specs::Opening::after_word))]
    fn open_file(
        &mut self,
        party: Instance,
        owner: &Owner,
        file: u64,
        args: &OpenArgs,
    ) -> Result<(), Memory>
        requires owner { owner.now ≡ opener party args.now }
        requires goes { GoesOpen self.old party file args.now }
        ensures rising { OnOk result (rises 0 self.old.last self.old.opens ≡ true) }
        ensures after { OnOk result (self.new ≡ after_open self.old party file args.now) }
    {
        let opened = self.file_to_open(file, args);
        self.change_tree(file, args)?;
        Ok(self.take(owner, opened, args)?)
    }

    // What an OPEN whose turn it is is answered.
    #[tactic(auto, using(crate::proofs::TurnLemmas::open_passes))]
    fn open_reply(
        &self,
        party: Instance,
        owner: &Owner,
        call: &Call,
        args: &OpenArgs,
        verdict: Verdict,
    ) -> Result<Reply, Memory>
        requires owner { owner.now ≡ opener party args.now }
        requires passes { Passes (open_checks self.now (Some party) call.now.file args.now verdict) }
        ensures { IfOk result (λ r. r ≡ reply_behind self.now (record { caller = Some party; file = call.now.file; deed = OpenDeed args.now }) verdict) }
    {
        if let Some(status) = self.open_stop(party, owner, call.file, args, verdict) {
            return Ok(self.reply(status, ReplyValue::Open(None)));
        }
        let opened = self.opened(party, owner, call.file, args)?;
        Ok(self.reply(OpStatus::Nfs4Ok, ReplyValue::Open(Some(opened))))
    }

    // What an OPEN whose turn it is does.
    #[tactic(auto, using(crate::proofs::TurnLemmas::open_passes))]
    fn open_in_turn(
        &mut self,
        party: Instance,
        owner: &Owner,
        call: &Call,
        args: &OpenArgs,
        verdict: Verdict,
    ) -> Result<Reply, Memory>
        requires owner { owner.now ≡ opener party args.now }
        requires passes { Passes (open_checks self.old (Some party) call.now.file args.now verdict) }
        ensures { IfOk result (λ r. Went self.old (record { caller = Some party; file = call.now.file; deed = OpenDeed args.now }) verdict r None Stays self.new) }
    {
        if let Some(status) = self.open_stop(party, owner, call.file, args, verdict) {
            return Ok(self.reply(status, ReplyValue::Open(None)));
        }
        let opened = self.opened(party, owner, call.file, args)?;
        self.open_file(party, owner, call.file, args)?;
        Ok(self.reply(OpStatus::Nfs4Ok, ReplyValue::Open(Some(opened))))
    }

    /// What an OPEN is answered.
    pub fn open_answer(
        &self,
        call: &Call,
        args: &OpenArgs,
        verdict: Verdict,
    ) -> Result<Reply, Memory>
        requires { call.now.deed ≡ OpenDeed args.now }
        ensures { IfOk result (λ r. r ≡ answer_to self.now (AskedEvent call.now verdict)) }
    {
        let Some(party) = call.caller else {
            return Ok(self.reply(OpStatus::StaleClientId, ReplyValue::Open(None)));
        };
        let owner = owner_of(party, args)?;
        match self.turn_to_open(party, &owner, call, args)? {
            Turn::Answered(reply) => Ok(reply),
            Turn::Of(_) => Ok(self.open_reply(party, &owner, call, args, verdict)?),
        }
    }

    // Answers an owner's OPEN, and carries it out where nothing stops it.
    fn open_by(
        &mut self,
        party: Instance,
        owner: &Owner,
        call: &Call,
        args: &OpenArgs,
        verdict: Verdict,
    ) -> Result<Reply, Memory>
        requires caller { call.now.caller ≡ Some party }
        requires deed { call.now.deed ≡ OpenDeed args.now }
        requires owner { owner.now ≡ opener party args.now }
        ensures { IfOk result (λ r. Applied self.old (AskedEvent call.now verdict) r self.new) }
    {
        match self.turn_to_open(party, owner, call, args)? {
            Turn::Answered(reply) => Ok(reply),
            Turn::Of(_) => {
                let reply = self.open_in_turn(party, owner, call, args, verdict)?;
                self.note(owner, call, &reply, None)?;
                Ok(reply)
            }
        }
    }

    /// Answers an OPEN, and carries it out where nothing stops it.
    pub fn open(&mut self, call: &Call, args: &OpenArgs, verdict: Verdict) -> Result<Reply, Memory>
        requires { call.now.deed ≡ OpenDeed args.now }
        ensures { IfOk result (λ r. Applied self.old (AskedEvent call.now verdict) r self.new) }
    {
        let Some(party) = call.caller else {
            return Ok(self.reply(OpStatus::StaleClientId, ReplyValue::Open(None)));
        };
        let owner = owner_of(party, args)?;
        self.open_by(party, &owner, call, args, verdict)
    }
}

//! SETATTR (RFC 7530, 16.32): it sets the size and the mode of a file.
ghost use Rattle.std.specs.Prelude.{◌≡◌, None, IfOk, OnOk, option_copied, is_none};
ghost use Rattle.nm_rules.specs.Answer.{answer_to};
ghost use Rattle.nm_rules.specs.Attributes.{asked_mode, asked_size, asks_of, is_invalid, is_unsupported, set_words, sets_any};
ghost use Rattle.nm_rules.specs.Checks.{first, refusal};
ghost use Rattle.nm_rules.specs.Data.{attributes_stop, mode_checks, set_limit, setattr_checks, setattr_value, size_checks, unknown_stop};
ghost use Rattle.nm_rules.specs.Files.{current};
ghost use Rattle.nm_rules.specs.Past.{set_tree};
ghost use Rattle.nm_types.specs.declared.calls.Event.TheVariants.{Asked as AskedEvent};
ghost use Rattle.nm_types.specs.declared.calls.Deed.TheVariants.{SetAttr as SetAttrDeed};
ghost use Rattle.nm_state.specs.Asked.{asks_of_code};
ghost use Rattle.nm_state.specs.Opening.{Applied, after_word};

use crate::attributes::{Asked, asks_of, has_size, set_words};
use crate::checks::{lease_refusal, refuse_if};
use crate::tables::Tables;
use nm_types::{
    Instance, Items, Memory, OpStatus, Reply, ReplyValue, SetAttrArgs, StateRef, Verdict, Words,
};

// Attributes that aren't set.
#[tactic(auto, unfolding(nm_rules::specs::Data::attributes_stop))]
fn attributes_stop(asks: Asked) -> Option<OpStatus>
    ensures { result ≡ attributes_stop (asks_of_code asks) }
{
    match asks {
        Asked::Invalid => Some(OpStatus::Inval),
        Asked::Unsupported => Some(OpStatus::AttrNotSupp),
        Asked::Sets { .. } => None,
    }
}

impl Tables {
    // A stateid that a server made has to stand for an open or for locks.
    #[tactic(auto, unfolding(nm_rules::specs::Data::unknown_stop))]
    fn unknown_stop(&self, stateid: StateRef) -> Option<OpStatus>
        ensures { result ≡ unknown_stop self.now stateid }
    {
        match stateid {
            StateRef::Zeros => None,
            StateRef::Ones => None,
            StateRef::Named(_) => {
                let unknown = self.resolved(stateid).is_none()
                    && self.lock_named(stateid).is_none();
                refuse_if(unknown, OpStatus::BadStateId)
            }
        }
    }

    // The limits that a SETATTR passes.
    #[tactic(auto, unfolding(nm_rules::specs::Data::set_limit))]
    fn set_limit(&self, file: u64, asks: Asked) -> Option<OpStatus>
        ensures { result ≡ set_limit self.now file (asks_of_code asks) }
    {
        let size = self.sized_limit(self.tree.row(file), asks.size());
        size.or(refuse_if(
            asks.sets_any() && self.changes_past_end(),
            OpStatus::Resource,
        ))
    }

    // The first class that refuses a SETATTR that names a size.
    #[tactic(auto, unfolding(nm_rules::specs::Data::size_checks))]
    fn size_stop(
        &self,
        caller: Option<Instance>,
        file: u64,
        args: &SetAttrArgs,
        verdict: Verdict,
    ) -> Option<OpStatus>
        ensures { refusal result ≡ first (size_checks self.now caller file args.now verdict) }
    {
        let asks = asks_of(&args.attributes);
        if let Some(status) = self.unresolved_stop(caller, args.stateid) {
            return Some(status);
        }
        if let Some(status) = lease_refusal(verdict) {
            return Some(status);
        }
        if let Some(status) = self.missing_stop(file) {
            return Some(status);
        }
        if let Some(status) = refuse_if(self.is_dir(file), OpStatus::IsDir) {
            return Some(status);
        }
        if let Some(status) = attributes_stop(asks) {
            return Some(status);
        }
        if let Some(status) = self.stale_stop(file, args.stateid, 2) {
            return Some(status);
        }
        if let Some(status) = refuse_if(self.write_denied(file, args.stateid), OpStatus::Locked) {
            return Some(status);
        }
        self.set_limit(file, asks)
    }

    // The first class that refuses a SETATTR that names none.
    #[tactic(auto, unfolding(nm_rules::specs::Data::mode_checks))]
    fn mode_stop(&self, file: u64, args: &SetAttrArgs, verdict: Verdict) -> Option<OpStatus>
        ensures { refusal result ≡ first (mode_checks self.now file args.now verdict) }
    {
        let asks = asks_of(&args.attributes);
        if let Some(status) = self.unknown_stop(args.stateid) {
            return Some(status);
        }
        if let Some(status) = lease_refusal(verdict) {
            return Some(status);
        }
        if let Some(status) = self.missing_stop(file) {
            return Some(status);
        }
        if let Some(status) = attributes_stop(asks) {
            return Some(status);
        }
        if let Some(status) = self.stale_stop(file, args.stateid, 0) {
            return Some(status);
        }
        self.set_limit(file, asks)
    }

    // The first class that refuses a SETATTR.
    #[tactic(auto, unfolding(nm_rules::specs::Data::setattr_checks))]
    fn setattr_stop(
        &self,
        caller: Option<Instance>,
        file: u64,
        args: &SetAttrArgs,
        verdict: Verdict,
    ) -> Option<OpStatus>
        ensures { refusal result ≡ first (setattr_checks self.now caller file args.now verdict) }
    {
        if has_size(args.attributes.words.items()) {
            self.size_stop(caller, file, args, verdict)
        } else {
            self.mode_stop(file, args, verdict)
        }
    }

    // What an OK of SETATTR tells: what it set.
    #[tactic(auto, unfolding(nm_rules::specs::Data::setattr_value))]
    fn setattr_value(&self, args: &SetAttrArgs) -> Result<Words, Memory>
        ensures { IfOk result (λ words. words ≡ setattr_value args.now) }
    {
        let asks = asks_of(&args.attributes);
        set_words(self.alloc, asks.size(), asks.mode())
    }

    // Sets what attributes within the limits ask for.
    #[tactic(auto, using(crate::proofs::EditLemmas::set_room, crate::proofs::EditLemmas::set_changes, crate::proofs::EditLemmas::sets_none), unfolding(nm_rules::specs::Past::set_tree, nm_rules::specs::Contents::tree_after, crate::specs::Opening::after_word))]
    fn set_attributes(&mut self, file: u64, asks: Asked) -> Result<(), Memory>
        requires { set_limit self.old file (asks_of_code asks) ≡ None }
        ensures { OnOk result (self.new ≡ after_word (set_tree (current self.old file) file (asks_of_code asks) (set_words (asked_size (asks_of_code asks)) (asked_mode (asks_of_code asks)))) self.old) }
    {
        if !asks.sets_any() {
            return Ok(());
        }
        let dir = self.parent_of(file);
        self.tree.set(dir, file, asks.size(), asks.mode())
    }

    /// What a SETATTR is answered.
    #[tactic(auto, unfolding(nm_rules::specs::Answer::answer_to))]
    pub fn setattr_answer(
        &self,
        caller: Option<Instance>,
        file: u64,
        args: &SetAttrArgs,
        verdict: Verdict,
    ) -> Result<Reply, Memory>
        ensures { IfOk result (λ r. r ≡ answer_to self.now (AskedEvent (record { caller = caller; file = file; deed = SetAttrDeed args.now }) verdict)) }
    {
        if let Some(status) = self.setattr_stop(caller, file, args, verdict) {
            return Ok(self.reply(status, ReplyValue::SetAttr(Items::new(self.alloc))));
        }
        let words = self.setattr_value(args)?;
        Ok(self.reply(OpStatus::Nfs4Ok, ReplyValue::SetAttr(words)))
    }

    /// Answers a SETATTR, and sets its attributes where nothing stops it.
    pub fn setattr(
        &mut self,
        caller: Option<Instance>,
        file: u64,
        args: &SetAttrArgs,
        verdict: Verdict,
    ) -> Result<Reply, Memory>
        ensures { IfOk result (λ r. Applied self.old (AskedEvent (record { caller = caller; file = file; deed = SetAttrDeed args.now }) verdict) r self.new) }
    {
        if let Some(status) = self.setattr_stop(caller, file, args, verdict) {
            return Ok(self.reply(status, ReplyValue::SetAttr(Items::new(self.alloc))));
        }
        let words = self.setattr_value(args)?;
        self.set_attributes(file, asks_of(&args.attributes))?;
        Ok(self.reply(OpStatus::Nfs4Ok, ReplyValue::SetAttr(words)))
    }
}

//! Whether the state of a file system is at a server, and what the server does with it.
ghost use Rattle.std.specs.Prelude.{[], Option, ◌≡◌, ◌≤◌, ◌+◌, ℕ, None, true, false, length, option_map, IfOk, OnOk, OnErr};
ghost use Rattle.std.specs.Vec.{vec_capacity};
ghost use Rattle.nm_types.specs.declared.calls.Event.TheVariants.{Asked};
ghost use Rattle.nm_slot.specs.Answers.{frozen, abandoned, abandoned_away, ends_abandoned, has_here, is_offer_of};
ghost use Rattle.nm_slot.specs.Changes.{with_doing, stage_after, stage_back, stage_called, stage_ended};
ghost use Rattle.nm_slot.specs.Eras.{one_if, after_ends};
ghost use Rattle.nm_slot.specs.Images.{offer_of};
ghost use Rattle.nm_slot.specs.Kept.{doing_of, stage_of, held_of, spent_of, rows_in, rows_of, is_here, count_doing, count_moving, IsCounted, IsServedAfter, IsStaged, IsNumbered, Took, OffersTo, IsReplyAt, holders_at};
ghost use Rattle.nm_slot.specs.SlotNow.{Own, Offer, phase_at};
ghost use Rattle.nm_rules.specs.Holders.{holders};
ghost use Rattle.nm_rules.specs.Seen.{Seen};
ghost use Rattle.nm_slot.specs.SlotNow.Stage.{Here as IsHere};
ghost use Rattle.nm_slot.specs.SlotNow.SlotStep.{Freezing};

use crate::eras::{EraRow, keep_ended};
use crate::{Abandon, Freeze, Image};
use nm_state::FsState;
use nm_types::{Event, Instance, Memory, MoveNum, Reply, ServerNum};
use std::marker::Model;
use std::mem;

/// Where a file system went, and by which move.
#[derive(Clone, Copy)]
pub(crate) struct Left {
    pub(crate) dest: ServerNum,
    pub(crate) number: MoveNum,
}

impl Model for Left {
    ghost use Rattle.nm_slot.specs.SlotNow.{Left as LeftNow};

    ghost Value = { LeftNow };

    ghost view = { λ l. record { dest = l.dest; number = l.number } };

    ghost inverse = { λ l. record { dest = l.dest; number = l.number } };
}

/// What the server that has the state does with it.
#[derive(Clone, Copy)]
pub(crate) enum Doing {
    /// It serves it.
    Serves,
    /// It lets the calls under way end, for the move of that number to that server.
    Closes { dest: ServerNum, number: MoveNum },
    /// It offers it to that server, by the move of that number.
    Froze { dest: ServerNum, number: MoveNum },
}

impl Doing {
    // The state is frozen for the move that waits, once no pass is out: what is done with it then, and the answer.
    fn freeze(self, passes: u64) -> (Doing, Freeze)
        ensures answer { (state : Seen) (own : Own) → own.out ≡ passes → result.1 ≡ frozen (IsHere (doing_of self) state) own }
        ensures after { (state : Seen) (held : Option Offer) → IsHere (doing_of result.0) state ≡ stage_after (Freezing result.1) held (IsHere (doing_of self) state) }
        ensures count { (count : ℕ) → count_doing result.0 count ≤ count_doing self count }
        ensures numbered { (epoch : ℕ) → IsNumbered epoch self → IsNumbered epoch result.0 }
    {
        match self {
            Doing::Serves => (self, Freeze::Idle),
            Doing::Closes { dest, number } => {
                if passes > 0 {
                    return (self, Freeze::Waiting { passes });
                }
                (Doing::Froze { dest, number }, Freeze::Frozen(number))
            }
            Doing::Froze { number, .. } => (self, Freeze::Frozen(number)),
        }
    }

    // The move under way is given up.
    fn abandon(self) -> (Doing, Abandon)
        ensures answer { (state : Seen) (own : Own) → result.1 ≡ abandoned (IsHere (doing_of self) state) own }
        ensures after { (state : Seen) → IsHere (doing_of result.0) state ≡ stage_back result.1 (IsHere (doing_of self) state) }
        ensures count { (count : ℕ) → count_doing result.0 count ≤ count_doing self count }
        ensures counted { IsCounted result.1 (count_doing self) }
        ensures served { (state : Seen) → IsServedAfter result.1 (IsHere (doing_of result.0) state) }
        ensures numbered { (epoch : ℕ) → IsNumbered epoch self → IsNumbered epoch result.0 }
    {
        match self {
            Doing::Serves => (self, Abandon::Idle),
            Doing::Closes { number, .. } | Doing::Froze { number, .. } => {
                (Doing::Serves, Abandon::Back(number))
            }
        }
    }
}

// What giving a move up is answered where the state isn't here.
fn late(held: &Option<Image>, left: Option<Left>) -> Abandon
    ensures { result ≡ abandoned_away (option_map offer_of held.now) left }
{
    match held {
        Some(_) => Abandon::Idle,
        None => match left {
            Some(_) => Abandon::Late,
            None => Abandon::Idle,
        },
    }
}

/// Lists who holds something in a state, into an empty list with room for all its opens and owners.
pub(crate) fn list_holders(state: &FsState, room: Vec<Instance>) -> Vec<Instance>
    requires empty { room.items ≡ [] }
    ensures value { rows_in state.now.seen ≤ vec_capacity room → result.items ≡ holders state.now.seen }
    ensures capacity { vec_capacity room ≤ vec_capacity result }
{
    if state.rows() > room.capacity() {
        return room;
    }
    state.list_holders(room)
}

/// Ends what these instances have in a state, one after the other.
pub(crate) fn end_all(state: &mut FsState, instances: &[Instance])
    ensures seen { state.new.seen ≡ after_ends instances.now state.old.seen }
    ensures spent { state.new.spent ≡ state.old.spent }
{
    for instance in instances {
        state.end(instance);
    }
}

// Whether the offer of that move is held.
fn is_numbered(held: &Option<Image>, number: MoveNum) -> bool
    ensures { result ≡ is_offer_of number (option_map offer_of held.now) }
{
    match held {
        Some(image) => image.number == number,
        None => false,
    }
}

/// Whether the state is here. Where it isn't, an offer may be held.
pub(crate) enum Stage {
    Away(Option<Image>),
    Here { doing: Doing, state: FsState },
}

impl Drop for Stage {
    fn drop(self) {
        match self {
            Stage::Away(_) => {}
            Stage::Here { doing: _, state: _ } => {}
        }
    }
}

impl Stage {
    /// Whether the state answers want of memory alone.
    pub(crate) fn is_spent(&self) -> bool
        ensures { result ≡ spent_of self.now }
    {
        match self {
            Stage::Away(_) => false,
            Stage::Here { state, .. } => state.is_spent(),
        }
    }

    /// Ends what an instance has in the state that is here. It answers 1 where there was anything, else 0.
    pub(crate) fn end(&mut self, instance: &Instance) -> u64
        ensures number { result ≡ length (one_if (has_here instance.now (stage_of self.old)) instance.now) }
        ensures few { result ≤ 1 }
        ensures after { stage_of self.new ≡ stage_ended (one_if (has_here instance.now (stage_of self.old)) instance.now) (stage_of self.old) }
        ensures held { held_of self.new ≡ held_of self.old }
        ensures spent { spent_of self.new ≡ spent_of self.old }
        ensures here { is_here self.new ≡ is_here self.old }
        ensures rows { rows_of self.new ≤ rows_of self.old }
        ensures phase { (own : Own) → phase_at (stage_of self.new) own ≡ phase_at (stage_of self.old) own }
        ensures count { (count : ℕ) → count_moving self.new count ≡ count_moving self.old count }
        ensures kept { (fs room epoch : ℕ) → IsStaged fs room epoch self.old → IsStaged fs room epoch self.new }
    {
        match self {
            Stage::Away(_) => 0,
            Stage::Here { state, .. } => {
                if !state.has(instance) {
                    return 0;
                }
                state.end(instance);
                1
            }
        }
    }

    /// Ends what these instances have in the state that is here, one after the other.
    pub(crate) fn end_all(&mut self, instances: &[Instance])
        ensures after { stage_of self.new ≡ stage_ended instances.now (stage_of self.old) }
        ensures held { held_of self.new ≡ held_of self.old }
        ensures spent { spent_of self.new ≡ spent_of self.old }
        ensures count { (count : ℕ) → count_moving self.new count ≡ count_moving self.old count }
        ensures kept { (fs room epoch : ℕ) → IsStaged fs room epoch self.old → IsStaged fs room epoch self.new }
    {
        match self {
            Stage::Away(_) => {}
            Stage::Here { state, .. } => end_all(state, instances),
        }
    }

    /// Ends what those have in the state that is here whose era has ended. It lists them, in a list that has the room which is handed in.
    pub(crate) fn end_late(&mut self, room: Vec<Instance>, eras: &[EraRow]) -> Vec<Instance>
        requires empty { room.items ≡ [] }
        ensures ends { (fs epoch : ℕ) → spent_of self.old ≡ false → IsStaged fs (vec_capacity room) epoch self.old → result.items ≡ ends_abandoned eras.now (stage_of self.old) }
        ensures after { stage_of self.new ≡ stage_ended result.items (stage_of self.old) }
        ensures held { held_of self.new ≡ held_of self.old }
        ensures spent { spent_of self.new ≡ spent_of self.old }
        ensures count { (count : ℕ) → count_moving self.new count ≡ count_moving self.old count }
        ensures capacity { vec_capacity room ≤ vec_capacity result }
        ensures kept { (fs room epoch : ℕ) → IsStaged fs room epoch self.old → IsStaged fs room epoch self.new }
    {
        let mut due = self.list_holders(room);
        keep_ended(&mut due, eras);
        self.end_all(&due);
        due
    }

    /// How many rows the state has that is here.
    pub(crate) fn rows(&self) -> usize
        ensures { result ≡ rows_of self.now }
    {
        match self {
            Stage::Away(_) => 0,
            Stage::Here { state, .. } => state.rows(),
        }
    }

    /// Gives the move up that is under way.
    #[tactic(auto, using(crate::proofs::StateLemmas::staged_turned))]
    pub(crate) fn abandon(&mut self, left: Option<Left>) -> Abandon
        ensures answer { (own : Own) → own.held ≡ held_of self.old → own.left ≡ left → result ≡ abandoned (stage_of self.old) own }
        ensures count { (count : ℕ) → count_moving self.new count ≤ count_moving self.old count }
        ensures counted { IsCounted result (count_moving self.old) }
        ensures served { IsServedAfter result (stage_of self.new) }
        ensures after { stage_of self.new ≡ stage_back result (stage_of self.old) }
        ensures held { held_of self.new ≡ held_of self.old }
        ensures spent { spent_of self.new ≡ spent_of self.old }
        ensures kept { (fs room epoch : ℕ) → IsStaged fs room epoch self.old → IsStaged fs room epoch self.new }
    {
        match self {
            Stage::Away(held) => late(held, left),
            Stage::Here { doing, .. } => {
                let (next, answer) = doing.abandon();
                *doing = next;
                answer
            }
        }
    }

    /// From now on this is done with the state that is here.
    pub(crate) fn turn(&mut self, to: Doing)
        ensures stage { stage_of self.new ≡ with_doing (doing_of to) (stage_of self.old) }
        ensures held { held_of self.new ≡ held_of self.old }
        ensures spent { spent_of self.new ≡ spent_of self.old }
        ensures kept { (fs room epoch : ℕ) → IsStaged fs room epoch self.old → IsNumbered epoch to → IsStaged fs room epoch self.new }
    {
        match self {
            Stage::Away(_) => {}
            Stage::Here { doing, .. } => *doing = to,
        }
    }

    /// Freezes the state for the move that waits, once no pass is out.
    #[tactic(auto, using(crate::proofs::StateLemmas::staged_turned))]
    pub(crate) fn freeze(&mut self, passes: u64) -> Freeze
        ensures answer { (own : Own) → own.out ≡ passes → result ≡ frozen (stage_of self.old) own }
        ensures after { (held : Option Offer) → stage_of self.new ≡ stage_after (Freezing result) held (stage_of self.old) }
        ensures count { (count : ℕ) → count_moving self.new count ≤ count_moving self.old count }
        ensures held { held_of self.new ≡ held_of self.old }
        ensures spent { spent_of self.new ≡ spent_of self.old }
        ensures kept { (fs room epoch : ℕ) → IsStaged fs room epoch self.old → IsStaged fs room epoch self.new }
    {
        match self {
            Stage::Away(_) => Freeze::Idle,
            Stage::Here { doing, .. } => {
                let (next, answer) = doing.freeze(passes);
                *doing = next;
                answer
            }
        }
    }

    /// The destination, where the state is on offer by the move of that number.
    pub(crate) fn offers_to(&self, number: MoveNum) -> Option<ServerNum>
        ensures { OffersTo number self.now result }
    {
        match self {
            Stage::Away(_) => None,
            Stage::Here { doing, .. } => match *doing {
                Doing::Serves | Doing::Closes { .. } => None,
                Doing::Froze { dest, number: its } => {
                    if its == number { Some(dest) } else { None }
                }
            },
        }
    }

    /// Lists who holds something in the state that is here, into an empty list with room for them.
    pub(crate) fn list_holders(&self, room: Vec<Instance>) -> Vec<Instance>
        requires empty { room.items ≡ [] }
        ensures value { (fs epoch : ℕ) → spent_of self.now ≡ false → IsStaged fs (vec_capacity room) epoch self.now → result.items ≡ holders_at (stage_of self.now) }
        ensures capacity { vec_capacity room ≤ vec_capacity result }
    {
        match self {
            Stage::Away(_) => room,
            Stage::Here { state, .. } => list_holders(state, room),
        }
    }

    /// Takes the offer of a move, where it is held.
    pub(crate) fn take_offer(&mut self, number: MoveNum) -> Option<Image>
        ensures { Took number self.old result self.new }
    {
        match self {
            Stage::Away(held) => {
                if !is_numbered(held, number) {
                    return None;
                }
                mem::replace(held, None)
            }
            Stage::Here { .. } => None,
        }
    }

    /// Carries a call out on the state that is here. After want of memory it is spent.
    #[tactic(auto, using(crate::proofs::StateLemmas::staged_after, crate::proofs::StateLemmas::staged_spent))]
    pub(crate) fn apply(&mut self, event: &Event) -> Result<Reply, Memory>
        requires here { is_here self.old ≡ true }
        ensures answer { IfOk result (λ r. IsReplyAt (stage_of self.old) event.now r) }
        ensures after { IfOk result (λ r. stage_of self.new ≡ stage_called event.now r (stage_of self.old)) }
        ensures ok { OnOk result (spent_of self.new ≡ false) }
        ensures err { OnErr result (spent_of self.new ≡ true) }
        ensures held { held_of self.new ≡ held_of self.old }
        ensures phase { (own : Own) → phase_at (stage_of self.new) own ≡ phase_at (stage_of self.old) own }
        ensures kept { (fs before room epoch : ℕ) → IsStaged fs before epoch self.old → rows_of self.old + 2 ≤ room → IsStaged fs room epoch self.new }
    {
        match self {
            Stage::Away(_) => unreachable!(),
            Stage::Here { state, .. } => match state.apply(event) {
                Ok(reply) => Ok(reply),
                Err(fault) => Err(fault),
            },
        }
    }
}

//! Laws of every history of a file system: its servers' steps in any order, where what was sent may come late, more than
//! once, or never. Each is the contract of a function that does nothing.
ghost use Rattle.std.specs.Prelude.{◌≡◌, ◌≢◌, ◌↔◌, ℕ, true, false, List, ◌∷◌, Some};
ghost use Rattle.nm_rules.specs.Answer.{IsLegal};
ghost use Rattle.nm_rules.specs.Holders.{holders};
ghost use Rattle.nm_types.specs.Parties.{Party};
ghost use Rattle.nm_slot.specs.Answers.{is_at_end, install_ends};
ghost use Rattle.nm_slot.specs.SlotNow.{phase_of, SlotStep};
ghost use Rattle.nm_slot.specs.SlotNow.HandedOver.{Committed};
ghost use Rattle.nm_slot.specs.SlotNow.SlotStep.{Entering, Applying, Committing, Installing};
ghost use Rattle.nm_slot.specs.Changes.{slot_after};
ghost use Rattle.nm_slot.specs.Door.{door_answer};
ghost use Rattle.nm_slot.specs.History.{Home, IsHistory, slot_now, own_now, entries_now, tables_now};
ghost use Rattle.nm_types.specs.declared.leases.LeasePass.{LeasePass};
ghost use Rattle.nm_types.specs.declared.calls.Call.{Call};
ghost use Rattle.nm_types.specs.declared.calls.Reply.{Reply};
ghost use Rattle.nm_types.specs.declared.calls.Verdict.{Verdict};
ghost use Rattle.nm_slot.specs.EraReadings.{seen_at, ended_at, IsTimely};
ghost use Rattle.nm_slot.specs.Eras.{row_of};
ghost use Rattle.nm_slot.specs.declared.answers.Answer.TheVariants.{Done};
ghost use Rattle.nm_slot.specs.Laws.{IsWhole, MayMoveTo, NeverComes};
ghost use Rattle.nm_slot.specs.Moves.{move_now};
ghost use Rattle.nm_slot.specs.Phases.{Moment, phase_now};
ghost use Rattle.nm_slot.specs.Phases.Phase.{At, Frozen, Passing};
ghost use Rattle.nm_slot.specs.Runs.{slot_run, IsRun};
ghost use Rattle.nm_slot.specs.declared.answers.Enter.{Enter as AnyEnter};
ghost use Rattle.nm_slot.specs.declared.answers.Install.TheVariants.{Now};
ghost use Rattle.nm_slot.specs.declared.phase.Phase.TheVariants.{Serving};

/// One holder: however its servers' steps come, at most one slot serves a file system. Here each slot is what its own
/// steps left, and answers by that alone; it is then its column of the one phase, so that runs are the histories below.
pub fn one_holder()
    ensures at_most_one { (home : Home) (h : List Moment) → IsRun home h → (s r : ℕ)
        → phase_of (slot_run home h s) ≡ Serving → phase_of (slot_run home h r) ≡ Serving → s ≡ r }
    ensures columns { (home : Home) (h : List Moment) → IsRun home h → (s : ℕ) → slot_run home h s ≡ slot_now home h s }
    ensures histories { (home : Home) (h : List Moment) → IsRun home h ↔ IsHistory home h }
{}

/// One holder, a step at a time: what each call leaves of its server's slot is that server's column of the one phase, and no other slot
/// changes. So where each slot begins as its column, it is its column at each moment.
pub fn slots_follow_the_phase()
    ensures own { (home : Home) (h : List Moment) (x : Moment) → IsHistory home (x ∷ h)
        → slot_after (slot_now home h x.server) x.step ≡ slot_now home (x ∷ h) x.server }
    ensures others { (home : Home) (h : List Moment) (x : Moment) → IsHistory home (x ∷ h)
        → (s : ℕ) → s ≢ x.server → slot_now home (x ∷ h) s ≡ slot_now home h s }
{}

/// A server serves a file system exactly where the one phase says that it does: so one at most does.
pub fn one_server_serves()
    ensures { (home : Home) (h : List Moment) (s : ℕ) → (phase_of (slot_now home h s) ≡ Serving) ↔ (phase_now home.first h ≡ At s) }
{}

/// Nothing is lost: what is installed is the state of all entries so far, and these are those of the freeze.
pub fn nothing_is_lost()
    ensures { (home : Home) (h : List Moment) (dest number : ℕ) (ends : List Party)
        → IsHistory home (record { server = dest; step = Installing number ends Now } ∷ h) → IsWhole home h dest number }
{}

/// Whatever servers carried the entries out, each reply is the answer after the entries before it.
pub fn entries_stay_legal()
    ensures { (home : Home) (h : List Moment) → IsHistory home h → IsLegal home.fs home.grants (entries_now h) }
{}

/// What the door answers is accounted for by the one phase, the offer that is held there, and where the file system went.
pub fn the_door_is_accounted_for()
    ensures { (home : Home) (h : List Moment) (s : ℕ) (a : AnyEnter)
        → IsHistory home (record { server = s; step = Entering a } ∷ h)
        → a ≡ door_answer home.fs (phase_now home.first h) s (own_now home.first h s) }
{}

/// The answers that never come.
pub fn some_answers_never_come()
    ensures { (home : Home) (h : List Moment) (x : Moment) → IsHistory home (x ∷ h) → NeverComes x.step }
{}

/// A move gets on: a frozen source to which word came that its offer is held hands over, what was handed over can be
/// installed, and from a server that serves, unless a number is at its end, a file system can get to any other.
pub fn a_move_gets_on()
    ensures hands_over { (home : Home) (h : List Moment) (source dest number : ℕ) → IsHistory home h
        → phase_now home.first h ≡ Frozen source dest number → (move_now h number).prepared ≡ true
        → IsHistory home (record { server = source; step = Committing number (Committed (holders (tables_now home h))) } ∷ h) }
    ensures installs { (home : Home) (h : List Moment) (source dest number : ℕ) → IsHistory home h
        → phase_now home.first h ≡ Passing source dest number
        → IsHistory home (record { server = dest; step = Installing number (install_ends (slot_now home h dest)) Now } ∷ h) }
    ensures gets_there { (home : Home) (h : List Moment) (source dest : ℕ) → IsHistory home h
        → phase_now home.first h ≡ At source → source ≢ dest
        → is_at_end (own_now home.first h source) ≡ false → MayMoveTo home h dest }
{}

/// Eras: what a slot knows of the eras of an instance is what its server's steps say, and a call in the name of a lease is carried out
/// only where no later era of its instance was seen there and that one hasn't ended.
pub fn calls_are_of_eras_that_stand()
    ensures seen { (home : Home) (h : List Moment) → IsHistory home h → (s : ℕ) (party : Party)
        → (row_of party (own_now home.first h s).eras).era ≡ seen_at home h s party }
    ensures ended { (home : Home) (h : List Moment) → IsHistory home h → (s : ℕ) (party : Party)
        → (row_of party (own_now home.first h s).eras).swept ≡ ended_at home h s party }
    ensures timely { (home : Home) (h : List Moment) (s epoch place : ℕ) (lease : LeasePass) (call : Call) (verdict : Verdict) (ends : List Party) (reply : Reply)
        → IsHistory home (record { server = s; step = Applying epoch (Some lease) call verdict ends (Done place reply) } ∷ h) → IsTimely home h s lease }
{}

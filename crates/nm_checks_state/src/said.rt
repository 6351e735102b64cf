//! What slots answer, as words and numbers.
use crate::leases::append_counted;
use crate::text::{append, append_debug};
use nm_slot::{Abandon, Accept, Answer, Begin, Freeze, Install, Phase, Swept};
use nm_types::{Memory, OpStatus};

/// A word, or words with a number behind each.
#[derive(Clone, Copy)]
pub(crate) enum Said {
    Plain(&'static [u8]),
    One(&'static [u8], u64),
    Two(&'static [u8], u64, &'static [u8], u64),
    /// The place of a call's entry, and its status.
    Done(u64, OpStatus),
    Refused(OpStatus),
    /// The answer is written already.
    Nothing,
}

pub(crate) fn begin_said(answer: Begin) -> Said {
    match answer {
        Begin::Begun(number) => Said::One(b"begun ", number.number()),
        Begin::NotServed => Said::Plain(b"notserved"),
        Begin::Busy { number } => Said::One(b"busy ", number.number()),
        Begin::Same => Said::Plain(b"same"),
        Begin::Last => Said::Plain(b"last"),
    }
}

pub(crate) fn freeze_said(answer: Freeze) -> Said {
    match answer {
        Freeze::Frozen(number) => Said::One(b"frozen ", number.number()),
        Freeze::Waiting { passes } => Said::One(b"waiting ", passes),
        Freeze::Idle => Said::Plain(b"idle"),
    }
}

pub(crate) fn abandon_said(answer: Abandon) -> Said {
    match answer {
        Abandon::Back(number) => Said::One(b"back ", number.number()),
        Abandon::Late => Said::Plain(b"late"),
        Abandon::Idle => Said::Plain(b"idle"),
    }
}

pub(crate) fn accept_said(answer: Accept) -> Said {
    match answer {
        Accept::Held => Said::Plain(b"held"),
        Accept::Old { known } => Said::One(b"old ", known.number()),
        Accept::Live => Said::Plain(b"live"),
    }
}

pub(crate) fn install_said(answer: Install) -> Said {
    match answer {
        Install::Now => Said::Plain(b"now"),
        Install::Already => Said::Plain(b"already"),
        Install::Absent => Said::Plain(b"absent"),
    }
}

pub(crate) fn swept_said(answer: Swept) -> Said {
    match answer {
        Swept::Ended => Said::Plain(b"ended"),
        Swept::Nothing => Said::Plain(b"nothing"),
        Swept::PutOff => Said::Plain(b"putoff"),
        Swept::Last => Said::Plain(b"last"),
    }
}

pub(crate) fn answer_said(answer: &Answer) -> Said {
    match answer {
        Answer::Done { place, reply } => Said::Done(*place, reply.status),
        Answer::Ended { era } => Said::One(b"ended ", era.number()),
        Answer::Strayed {
            pass_epoch,
            slot_epoch,
        } => Said::Two(b"strayed ", pass_epoch.number(), b" ", slot_epoch.number()),
        Answer::Last { count } => Said::One(b"last ", *count),
    }
}

pub(crate) fn phase_said(phase: Phase) -> Said {
    match phase {
        Phase::Never => Said::Plain(b"never"),
        Phase::Serving => Said::Plain(b"serving"),
        Phase::Closing { dest, number } => {
            Said::Two(
                b"closing S",
                dest.number() as u64,
                b" move ",
                number.number(),
            )
        }
        Phase::Frozen { dest, number } => {
            Said::Two(
                b"frozen S",
                dest.number() as u64,
                b" move ",
                number.number(),
            )
        }
        Phase::Gone { dest, epoch } => {
            Said::Two(b"gone S", dest.number() as u64, b" epoch ", epoch.number())
        }
        Phase::Incoming { epoch, number } => {
            Said::Two(
                b"incoming epoch ",
                epoch.number(),
                b" move ",
                number.number(),
            )
        }
    }
}

/// Writes what was said.
pub(crate) fn append_said(out: &mut Vec<u8>, said: Said) -> Result<(), Memory> {
    match said {
        Said::Plain(words) => append(out, words),
        Said::One(words, n) => append_counted(out, words, n),
        Said::Two(words, n, more, m) => {
            append_counted(out, words, n)?;
            append_counted(out, more, m)
        }
        Said::Done(place, status) => {
            append_counted(out, b"done ", place)?;
            append(out, b" ")?;
            append_debug(out, &status)
        }
        Said::Refused(status) => append_debug(out, &status),
        Said::Nothing => Ok(()),
    }
}

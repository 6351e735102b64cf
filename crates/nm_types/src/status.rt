//! The statuses of NFSv4.0 that this profile answers (RFC 7530, 13.1), each with its number.
ghost use Rattle.std.specs.Prelude.{◌≡◌, IfSome, IsSome};
ghost use Rattle.nm_types.specs.Statuses.{is_done, advances, number_of, status_of};

/// The status of an operation (RFC 7530, 13.1; RFC 7931 for `LeaseMoved`). A name is that of the standard
/// without its prefix NFS4ERR_, and NFS4_OK is `Nfs4Ok`.
#[derive(Clone, Copy, Debug)]
pub enum OpStatus {
    Nfs4Ok,
    NoEnt,
    Exist,
    NotDir,
    IsDir,
    Inval,
    FBig,
    NoSpc,
    NameTooLong,
    NotEmpty,
    Stale,
    BadHandle,
    NotSupp,
    TooSmall,
    ServerFault,
    BadType,
    Delay,
    Denied,
    Expired,
    Locked,
    Grace,
    ShareDenied,
    ClidInUse,
    Resource,
    Moved,
    NoFileHandle,
    MinorVersMismatch,
    StaleClientId,
    StaleStateId,
    OldStateId,
    BadStateId,
    BadSeqid,
    NotSame,
    RestoreFh,
    LeaseMoved,
    AttrNotSupp,
    NoGrace,
    BadXdr,
    LocksHeld,
    OpenMode,
    BadName,
    OpIllegal,
    FileOpen,
}

impl OpStatus {
    /// Its number on the wire.
    #[tactic(auto, unfolding(crate::specs::Statuses::number_of))]
    pub fn number(self) -> u32
        ensures { result ≡ number_of self }
    {
        match self {
            OpStatus::Nfs4Ok => 0,
            OpStatus::NoEnt => 2,
            OpStatus::Exist => 17,
            OpStatus::NotDir => 20,
            OpStatus::IsDir => 21,
            OpStatus::Inval => 22,
            OpStatus::FBig => 27,
            OpStatus::NoSpc => 28,
            OpStatus::NameTooLong => 63,
            OpStatus::NotEmpty => 66,
            OpStatus::Stale => 70,
            OpStatus::BadHandle => 10001,
            OpStatus::NotSupp => 10004,
            OpStatus::TooSmall => 10005,
            OpStatus::ServerFault => 10006,
            OpStatus::BadType => 10007,
            OpStatus::Delay => 10008,
            OpStatus::Denied => 10010,
            OpStatus::Expired => 10011,
            OpStatus::Locked => 10012,
            OpStatus::Grace => 10013,
            OpStatus::ShareDenied => 10015,
            OpStatus::ClidInUse => 10017,
            OpStatus::Resource => 10018,
            OpStatus::Moved => 10019,
            OpStatus::NoFileHandle => 10020,
            OpStatus::MinorVersMismatch => 10021,
            OpStatus::StaleClientId => 10022,
            OpStatus::StaleStateId => 10023,
            OpStatus::OldStateId => 10024,
            OpStatus::BadStateId => 10025,
            OpStatus::BadSeqid => 10026,
            OpStatus::NotSame => 10027,
            OpStatus::RestoreFh => 10030,
            OpStatus::LeaseMoved => 10031,
            OpStatus::AttrNotSupp => 10032,
            OpStatus::NoGrace => 10033,
            OpStatus::BadXdr => 10036,
            OpStatus::LocksHeld => 10037,
            OpStatus::OpenMode => 10038,
            OpStatus::BadName => 10041,
            OpStatus::OpIllegal => 10044,
            OpStatus::FileOpen => 10046,
        }
    }

    /// The status with that number. `None` exactly where no status of this profile has it.
    #[tactic(auto, unfolding(crate::specs::Statuses::status_of))]
    pub fn read(n: u32) -> Option<OpStatus>
        ensures { result ≡ status_of n }
    {
        match n {
            0 => Some(OpStatus::Nfs4Ok),
            2 => Some(OpStatus::NoEnt),
            17 => Some(OpStatus::Exist),
            20 => Some(OpStatus::NotDir),
            21 => Some(OpStatus::IsDir),
            22 => Some(OpStatus::Inval),
            27 => Some(OpStatus::FBig),
            28 => Some(OpStatus::NoSpc),
            63 => Some(OpStatus::NameTooLong),
            66 => Some(OpStatus::NotEmpty),
            70 => Some(OpStatus::Stale),
            10001 => Some(OpStatus::BadHandle),
            10004 => Some(OpStatus::NotSupp),
            10005 => Some(OpStatus::TooSmall),
            10006 => Some(OpStatus::ServerFault),
            10007 => Some(OpStatus::BadType),
            10008 => Some(OpStatus::Delay),
            10010 => Some(OpStatus::Denied),
            10011 => Some(OpStatus::Expired),
            10012 => Some(OpStatus::Locked),
            10013 => Some(OpStatus::Grace),
            10015 => Some(OpStatus::ShareDenied),
            10017 => Some(OpStatus::ClidInUse),
            10018 => Some(OpStatus::Resource),
            10019 => Some(OpStatus::Moved),
            10020 => Some(OpStatus::NoFileHandle),
            10021 => Some(OpStatus::MinorVersMismatch),
            10022 => Some(OpStatus::StaleClientId),
            10023 => Some(OpStatus::StaleStateId),
            10024 => Some(OpStatus::OldStateId),
            10025 => Some(OpStatus::BadStateId),
            10026 => Some(OpStatus::BadSeqid),
            10027 => Some(OpStatus::NotSame),
            10030 => Some(OpStatus::RestoreFh),
            10031 => Some(OpStatus::LeaseMoved),
            10032 => Some(OpStatus::AttrNotSupp),
            10033 => Some(OpStatus::NoGrace),
            10036 => Some(OpStatus::BadXdr),
            10037 => Some(OpStatus::LocksHeld),
            10038 => Some(OpStatus::OpenMode),
            10041 => Some(OpStatus::BadName),
            10044 => Some(OpStatus::OpIllegal),
            10046 => Some(OpStatus::FileOpen),
            _ => None,
        }
    }

    /// Whether an operation with this status was carried out: it is OK.
    #[tactic(auto, unfolding(crate::specs::Statuses::is_done))]
    pub fn is_done(self) -> bool
        ensures { result ≡ is_done self }
    {
        matches!(self, OpStatus::Nfs4Ok)
    }

    /// Whether an operation that takes an owner's seqid moves the owner on to the next one, with this status
    /// (RFC 7530, 9.1.7).
    #[tactic(auto, unfolding(crate::specs::Statuses::advances))]
    pub fn advances(self) -> bool
        ensures { result ≡ advances self }
    {
        !matches!(
            self,
            OpStatus::StaleClientId
                | OpStatus::StaleStateId
                | OpStatus::BadStateId
                | OpStatus::BadSeqid
                | OpStatus::BadXdr
                | OpStatus::Resource
                | OpStatus::NoFileHandle
                | OpStatus::Moved
        )
    }
}

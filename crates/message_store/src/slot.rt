//! A changeable message without its texts, its status and what is asked of it.

ghost use Rattle.std.specs.Prelude.{◌≡◌};

/// The status of a message (NTCIP 1203 v03, dmsMessageStatus).
#[derive(Clone, Copy, Debug, PartialEq, Eq)]
pub enum Status {
    /// It has no text and is no used slot.
    NotUsed,
    /// Its fields may be written.
    Modifying,
    /// It waits to be judged.
    Validating,
    /// It was judged, and may be shown.
    Valid,
    /// It was judged, and may not be shown.
    Error,
}

impl Status {
    ghost use Rattle.message_store.specs.Codes.{status_code};
    ghost use Rattle.message_store.specs.View.{status_numbered};
    ghost use Rattle.message_store.specs.Slot.{is_modifying, is_not_used, is_validating};

    /// The status of a number, 1 to 5 (NTCIP 1203 v03, dmsMessageStatus).
    pub fn numbered(number: u8) -> Option<Status>
        ensures { result ≡ status_numbered number }
    {
        match number {
            1 => Some(Status::NotUsed),
            2 => Some(Status::Modifying),
            3 => Some(Status::Validating),
            4 => Some(Status::Valid),
            5 => Some(Status::Error),
            _ => None,
        }
    }

    /// Its number, 1 to 5 (NTCIP 1203 v03, dmsMessageStatus).
    pub fn code(self) -> u8
        ensures { result ≡ status_code self }
    {
        match self {
            Status::NotUsed => 1,
            Status::Modifying => 2,
            Status::Validating => 3,
            Status::Valid => 4,
            Status::Error => 5,
        }
    }

    /// Whether the fields may be written.
    pub(crate) fn is_modifying(self) -> bool
        ensures { result ≡ is_modifying self }
    {
        matches!(self, Status::Modifying)
    }

    /// Whether the slot counts as no used one.
    pub(crate) fn is_not_used(self) -> bool
        ensures { result ≡ is_not_used self }
    {
        matches!(self, Status::NotUsed)
    }

    /// Whether the message waits to be judged.
    pub(crate) fn is_validating(self) -> bool
        ensures { result ≡ is_validating self }
    {
        matches!(self, Status::Validating)
    }
}

/// What is asked of a message's status (NTCIP 1203 v03, dmsMessageStatus).
#[derive(Clone, Copy)]
pub(crate) enum Request {
    Modify,
    Validate,
    NotUse,
}

impl Request {
    ghost use Rattle.message_store.specs.Codes.{request_numbered};

    /// The request of a number: 6 modifyReq, 7 validateReq, 8 notUsedReq.
    pub(crate) fn numbered(number: u8) -> Option<Request>
        ensures { result ≡ request_numbered number }
    {
        match number {
            6 => Some(Request::Modify),
            7 => Some(Request::Validate),
            8 => Some(Request::NotUse),
            _ => None,
        }
    }
}

/// What a slot holds beside its texts.
#[derive(Clone, Copy)]
pub(crate) struct Slot {
    pub(crate) status: Status,
    pub(crate) priority: u8,
    pub(crate) beacon: u8,
    pub(crate) pixel: u8,
}

/// What a slot holds that isn't used.
pub(crate) const EMPTY: Slot = Slot {
    status: Status::NotUsed,
    priority: 1,
    beacon: 0,
    pixel: 0,
};

//! A controller's reply, in numbers.
ghost use Rattle.std.specs.Prelude.{◌≡◌};
ghost use Rattle.latsefur_c.specs.Replied.{IsReply, numbers};

use sign_control::Reply;

/// The reply to a command. What isn't named for its kind is 0.
#[repr(C)]
#[derive(Clone, Copy)]
pub struct LatsefurReply {
    /// 0 done, 1 refused by the message table, 2 no message waits to be judged, 3 a message was judged, 4 the message is shown, 5 it isn't
    /// shown, 6 the sign refuses the default, 7 time has passed, 8 time has passed and a duration has ended.
    pub kind: u8,
    /// Of 1 why: 1 memory type, 2 number, 3 read only, 4 wrong state, 5 bad value, 6 too long, 7 no space. Of 5 why: 3 priority,
    /// 4 messageStatus, 5 messageMemoryType, 6 messageNumber, 7 messageCRC, 8 syntaxMULTI (NTCIP 1203 v03, dmsActivateMsgError). Of 6
    /// why: 9 the value, 10 no such font.
    pub code: u8,
    /// Of 3 what the message became: 4 valid or 5 error (NTCIP 1203 v03, dmsMessageStatus).
    pub status: u8,
    /// Of 3 the error of the validation; 2 is none (NTCIP 1203 v03, dmsValidateMessageError).
    pub validate_error: u8,
    /// Of 3 the error of the last text that was judged; 2 is none (NTCIP 1203 v03, dmsMultiSyntaxError).
    pub multi_error: u8,
    /// Of 3 the message's number.
    pub number: u16,
    /// Of 3 the octet of that error, from 0 (NTCIP 1203 v03, dmsMultiSyntaxErrorPosition).
    pub multi_position: u16,
}

/// The reply of a kind that has no numbers but a code.
fn plain(kind: u8, code: u8) -> LatsefurReply
    ensures { result ≡ numbers kind code }
{
    LatsefurReply {
        kind,
        code,
        status: 0,
        validate_error: 0,
        multi_error: 0,
        number: 0,
        multi_position: 0,
    }
}

/// A reply, in numbers.
pub(crate) fn told(reply: Reply) -> LatsefurReply
    ensures { IsReply reply result }
{
    match reply {
        Reply::Done => plain(0, 0),
        Reply::Refused(fault) => plain(1, fault.code()),
        Reply::Idle => plain(2, 0),
        Reply::Worked {
            number,
            status,
            validate_error,
            multi_error,
            multi_position,
        } => LatsefurReply {
            kind: 3,
            code: 0,
            status,
            validate_error,
            multi_error,
            number,
            multi_position,
        },
        Reply::Shown => plain(4, 0),
        Reply::NotShown(error) => plain(5, error),
        Reply::NotSet(fault) => plain(6, fault.code()),
        Reply::Ticked => plain(7, 0),
        Reply::Ended => plain(8, 0),
    }
}

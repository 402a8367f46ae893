//! The judgement of a message.

ghost use Rattle.std.specs.Prelude.{◌≡◌, ◌≤◌, ◌-◌, [], length, IfSome, None, option_map};
ghost use Rattle.sign_font.specs.Defaults.{default_fault, under};
ghost use Rattle.multi_meaning.specs.Steps.{judging_steps};
ghost use Rattle.multi_meaning.specs.Verdict.{verdict};
ghost use Rattle.message_store.specs.Codes.{validate_code};
ghost use Rattle.message_store.specs.Limits.{IsKept};
ghost use Rattle.message_store.specs.internal.Working.{judgement_of};
ghost use Rattle.message_store.specs.Slot.{slot_at};
ghost use Rattle.message_store.specs.internal.Stored.{slot_of};
ghost use Rattle.message_store.specs.Work.{judged_status, judgement, of_verdict, slot_steps, worked, judged_of};

use crate::judge::judge_text;
use crate::slot::{Slot, Status};
use crate::store::Store;
use sign_font::{Defaults, Sign};

/// Why a message isn't valid (NTCIP 1203 v03, dmsValidateMessageError).
#[derive(Clone, Copy)]
pub(crate) enum ValidateError {
    None,
    Beacons,
    PixelService,
    SyntaxMulti,
}

impl ValidateError {
    /// Its number (NTCIP 1203 v03, dmsValidateMessageError).
    pub(crate) fn code(self) -> u8
        ensures { result ≡ validate_code self }
    {
        match self {
            ValidateError::None => 2,
            ValidateError::Beacons => 3,
            ValidateError::PixelService => 4,
            ValidateError::SyntaxMulti => 5,
        }
    }

    /// The status of a message that was judged.
    fn status(self) -> Status
        ensures { result ≡ judged_status self }
    {
        match self {
            ValidateError::None => Status::Valid,
            ValidateError::Beacons | ValidateError::PixelService | ValidateError::SyntaxMulti => {
                Status::Error
            }
        }
    }
}

/// Why a message isn't valid, the MULTI error and position where its text was judged, and the steps that this took.
#[derive(Clone, Copy)]
struct Judgement {
    error: ValidateError,
    syntax: Option<(u8, u16)>,
    steps: u64,
}

/// A message that was judged.
#[derive(Clone, Copy, Debug, PartialEq, Eq)]
pub struct Judged {
    /// Its number, from 1.
    pub number: u16,
    /// Its status now: 4 valid or 5 error (NTCIP 1203 v03, dmsMessageStatus).
    pub status: u8,
    /// 2 none, 3 beacons, 4 pixelService or 5 syntaxMULTI (NTCIP 1203 v03, dmsValidateMessageError).
    pub validate_error: u8,
    /// The MULTI error of the text and its offset in octets, from 0 (NTCIP 1203 v03, dmsMultiSyntaxError and
    /// dmsMultiSyntaxErrorPosition): 2 and 0 where it was accepted, and nothing where it wasn't judged.
    pub syntax: Option<(u8, u16)>,
    /// The steps of judging the text; 0 where it wasn't judged.
    pub steps: u64,
}

/// What a sign says of the text of a message by these defaults.
fn judge_syntax(sign: &Sign, defaults: &Defaults, text: &[u8]) -> Judgement
    requires taken { default_fault sign.now defaults.now ≡ None }
    requires short { length text.now ≤ 4096 }
    ensures judgement { judgement_of result ≡ of_verdict (verdict (under sign.now defaults.now) text.now) }
    ensures steps { result.steps ≡ judging_steps (under sign.now defaults.now) text.now }
{
    let judged = judge_text(sign, *defaults, text);
    let syntax = Some((judged.error, judged.position));
    let steps = judged.steps;
    if judged.accepted {
        Judgement {
            error: ValidateError::None,
            syntax,
            steps,
        }
    } else {
        Judgement {
            error: ValidateError::SyntaxMulti,
            syntax,
            steps,
        }
    }
}

/// What a sign says of a message by these defaults: its beacon first, then its pixel service, then its text.
fn judge(sign: &Sign, defaults: &Defaults, slot: Slot, text: &[u8]) -> Judgement
    requires taken { default_fault sign.now defaults.now ≡ None }
    requires short { length text.now ≤ 4096 }
    ensures judgement { judgement_of result ≡ judgement (under sign.now defaults.now) (slot_of slot text.now []) }
    ensures steps { result.steps ≡ slot_steps (under sign.now defaults.now) (slot_of slot text.now []) }
{
    if slot.beacon == 1 && !sign.beacons() {
        Judgement {
            error: ValidateError::Beacons,
            syntax: None,
            steps: 0,
        }
    } else if slot.pixel == 1 && !sign.pixel_service() {
        Judgement {
            error: ValidateError::PixelService,
            syntax: None,
            steps: 0,
        }
    } else {
        judge_syntax(sign, defaults, text)
    }
}

impl Store {
    /// Judges the validating message with the lowest number by these defaults: it becomes valid or error. Without a
    /// validating message nothing changes.
    ///
    /// Its beacon on a sign without beacons is judged first, then its pixel service on a sign without it, then its text.
    /// The sign must not refuse the defaults.
    pub fn work(&mut self, sign: &Sign, defaults: &Defaults) -> Option<Judged>
        requires taken { default_fault sign.now defaults.now ≡ None }
        ensures judged { option_map judged_of result ≡ (worked (under sign.now defaults.now) self.old).judged }
        ensures store { self.new ≡ (worked (under sign.now defaults.now) self.old).store }
        ensures steps { IfSome result (λ judged.
            judged.steps ≡ slot_steps (under sign.now defaults.now) (slot_at self.old (judged.number - 1))) }
        ensures kept { IsKept self.new }
        ensures limits { self.new.limits ≡ self.old.limits }
    {
        let index = self.waiting()?;
        let slot = self.slot(index);
        let judged = judge(sign, defaults, slot, self.multi(index));
        let status = judged.error.status();
        self.keep_crc(index);
        self.put_status(index, status);
        Some(Judged {
            number: index as u16 + 1,
            status: status.code(),
            validate_error: judged.error.code(),
            syntax: judged.syntax,
            steps: judged.steps,
        })
    }
}

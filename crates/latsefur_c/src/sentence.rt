//! A sentence for each number that the library answers with.
ghost use Rattle.std.specs.Prelude.{◌≡◌};
ghost use Rattle.std.specs.Option.{option_map};
ghost use Rattle.latsefur_c.specs.Sentence.{TellsSentence, activate_sentence, default_sentence, multi_sentence, outcome_sentence, sentence_of, state_sentence, table_sentence, validate_sentence};

use crate::outcome::BAD_VALUE;
use crate::recorded::count_front;

/// Why the message table refuses a command.
fn table_sentence(number: u8) -> Option<&'static [u8]>
    ensures { option_map (λ words. words.now) result ≡ table_sentence number }
{
    match number {
        1 => Some(b"there is no such memory type"),
        2 => Some(b"there is no message of this number"),
        3 => Some(b"messages of this memory type aren't written"),
        4 => Some(b"the status of the message doesn't take this"),
        5 => Some(b"the value is outside its range"),
        6 => Some(b"the text or the owner is too long"),
        7 => Some(b"the table has no room left for it"),
        _ => None,
    }
}

/// Why a message isn't valid (NTCIP 1203 v03, dmsValidateMessageError).
fn validate_sentence(number: u8) -> Option<&'static [u8]>
    ensures { option_map (λ words. words.now) result ≡ validate_sentence number }
{
    match number {
        1 => Some(b"another fault"),
        2 => Some(b"nothing is wrong with the message"),
        3 => Some(b"the sign can't do what the message asks of its beacons"),
        4 => Some(b"the sign can't do what the message asks of its pixel service"),
        5 => Some(b"the text of the message is wrong"),
        _ => None,
    }
}

/// Why a message isn't shown (NTCIP 1203 v03, dmsActivateMsgError).
fn activate_sentence(number: u8) -> Option<&'static [u8]>
    ensures { option_map (λ words. words.now) result ≡ activate_sentence number }
{
    match number {
        1 => Some(b"another fault"),
        2 => Some(b"nothing is wrong with the activation"),
        3 => Some(b"what is shown has a higher priority"),
        4 => Some(b"the message isn't valid"),
        5 => Some(b"there is no such memory type"),
        6 => Some(b"there is no message of this number"),
        7 => Some(b"the message has another CRC"),
        8 => Some(b"the text of the message is wrong"),
        _ => None,
    }
}

/// Why a text is refused (NTCIP 1203 v03, dmsMultiSyntaxError).
fn multi_sentence(number: u8) -> Option<&'static [u8]>
    ensures { option_map (λ words. words.now) result ≡ multi_sentence number }
{
    match number {
        1 => Some(b"another fault"),
        2 => Some(b"nothing is wrong with the text"),
        3 => Some(b"the sign doesn't support the tag"),
        4 => Some(b"the sign doesn't support the value of the tag"),
        5 => Some(b"the text is too big for the sign"),
        6 => Some(b"the sign has no such font"),
        7 => Some(b"the font has no such character"),
        11 => Some(b"the tag conflicts with another one"),
        12 => Some(b"the text has too many pages"),
        13 => Some(b"the font has another version"),
        _ => None,
    }
}

/// Why a default is refused.
fn default_sentence(number: u8) -> Option<&'static [u8]>
    ensures { option_map (λ words. words.now) result ≡ default_sentence number }
{
    match number {
        9 => Some(b"the value is outside its range"),
        10 => Some(b"the sign has no such font"),
        _ => None,
    }
}

/// Why saved octets are refused.
fn state_sentence(number: u8) -> Option<&'static [u8]>
    ensures { option_map (λ words. words.now) result ≡ state_sentence number }
{
    match number {
        1 => Some(b"there are fewer or more octets than there should be"),
        2 => Some(b"they are of another version"),
        3 => Some(b"their CRC-32 isn't theirs"),
        4 => Some(b"a number is outside its range"),
        5 => Some(b"a text is too long"),
        6 => Some(b"the texts would pass the budget"),
        7 => Some(b"the table has another number of messages"),
        8 => Some(b"the sign refuses the defaults"),
        9 => Some(b"the sign refuses the text of the display"),
        _ => None,
    }
}

/// How a call ended.
fn outcome_sentence(number: u8) -> Option<&'static [u8]>
    ensures { option_map (λ words. words.now) result ≡ outcome_sentence number }
{
    match number {
        0 => Some(b"all is done"),
        1 => Some(b"the sign refuses the text"),
        2 => Some(b"memory was refused"),
        3 => Some(b"the octets can't be read as a sign file"),
        4 => Some(b"the sign of the sign file is outside its limits"),
        5 => Some(b"the buffer is too small"),
        6 => Some(b"the text has no such page"),
        7 => Some(b"the text has 2^32 octets or more"),
        8 => Some(b"the message table of the sign file is outside its limits"),
        9 => Some(b"the handle holds no controller"),
        10 => Some(b"the code hasn't the length that it must have"),
        11 => Some(b"no default has this number"),
        12 => Some(b"the sign has no such font"),
        13 => Some(b"a number is outside its range"),
        14 => Some(b"the film would have more than 64,000,000 octets"),
        15 => Some(b"the text begins anew after more than ten minutes"),
        _ => None,
    }
}

/// The sentence of a number of a kind, if it has one.
fn sentence_of(kind: u8, number: u8) -> Option<&'static [u8]>
    ensures { option_map (λ words. words.now) result ≡ sentence_of kind number }
{
    match kind {
        1 => table_sentence(number),
        2 => validate_sentence(number),
        3 => activate_sentence(number),
        4 => multi_sentence(number),
        5 => default_sentence(number),
        6 => state_sentence(number),
        7 => outcome_sentence(number),
        _ => None,
    }
}

/// Tells a sentence, or that there is none.
fn tell_sentence(sentence: Option<&[u8]>, told: &mut [u8], count: &mut usize) -> u8
    ensures { TellsSentence (option_map (λ words. words.now) sentence.entry) told.old told.new count.old count.new result }
{
    match sentence {
        Some(words) => count_front(told, count, words),
        None => BAD_VALUE,
    }
}

/// Tells a sentence in ASCII for a number, and how many octets it has. The kinds of numbers are 1 why the message table refuses a command,
/// 2 why a message isn't valid, 3 why it isn't shown, 4 why a text is refused, 5 why a default is, 6 why saved octets are, and 7 how a call
/// ended.
#[unsafe(no_mangle)]
pub extern "C" fn latsefur_sentence(kind: u8, number: u8, told: &mut [u8], count: &mut usize) -> u8
    ensures told { TellsSentence (sentence_of kind number) told.old told.new count.old count.new result }
{
    tell_sentence(sentence_of(kind, number), told, count)
}

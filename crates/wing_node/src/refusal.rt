// Why a call is sent back. Each reason has its number in the rules; beside a string that isn't UTF-8 (1, or 5 for a definition's) stands its good:
// how many of its leading bytes form whole characters.
ghost use Rattle.std.specs.Prelude.{◌≡◌, take};
ghost use Rattle.wing_node.specs.Refusal.{refusal_number, good_of, string_fault};

use crate::utf8::good_len;

#[derive(Clone, Copy, Debug, PartialEq, Eq)]
pub enum Refusal {
    StringNotUtf8 { good: u16 },
    BodyLong,
    BodyEmpty,
    DefinitionShort,
    DefinitionNotUtf8 { good: u16 },
    NoPlace,
    TableUnsound,
    StateUnsound,
    OutputShort,
    StringLong,
    MetersOver,
    MeterIdLast,
    PacketSize,
    NumberOver,
    NameLong,
    FieldsUnfit,
    LineWrong,
    IdNotAbove,
    WidthWrong,
}

impl Refusal {
    // The number that the rules give it.
    pub fn number(self) -> u8
        ensures { result ≡ refusal_number self }
    {
        match self {
            Refusal::StringNotUtf8 { good: _ } => 1,
            Refusal::BodyLong => 2,
            Refusal::BodyEmpty => 3,
            Refusal::DefinitionShort => 4,
            Refusal::DefinitionNotUtf8 { good: _ } => 5,
            Refusal::NoPlace => 6,
            Refusal::TableUnsound => 7,
            Refusal::StateUnsound => 8,
            Refusal::OutputShort => 9,
            Refusal::StringLong => 10,
            Refusal::MetersOver => 11,
            Refusal::MeterIdLast => 12,
            Refusal::PacketSize => 13,
            Refusal::NumberOver => 14,
            Refusal::NameLong => 15,
            Refusal::FieldsUnfit => 16,
            Refusal::LineWrong => 17,
            Refusal::IdNotAbove => 18,
            Refusal::WidthWrong => 19,
        }
    }

    // How many leading bytes of the string form whole characters, where it is for its string.
    pub fn good(self) -> Option<u16>
        ensures { result ≡ good_of self }
    {
        match self {
            Refusal::StringNotUtf8 { good } | Refusal::DefinitionNotUtf8 { good } => Some(good),
            _ => None,
        }
    }
}

// A string of the wire or to be set, the first n bytes of s or all where it has fewer: 1 with its good, unless all of it is.
pub fn string_fault(s: &[u8], n: u16) -> Result<(), Refusal>
    ensures { result ≡ string_fault (take n s.now) }
{
    let len = (n as usize).min(s.len());
    let good = good_len(&s[..len]);
    if good == len {
        return Ok(());
    }
    Err(Refusal::StringNotUtf8 { good: good as u16 })
}

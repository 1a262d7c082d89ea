#![tactic(auto)]
// The records of a sheet: one byte of kind, then a body whose length the kind fixes.
ghost use Rattle.std.specs.Prelude.{◌≡◌, ◌≤◌};
ghost use Rattle.sheet.specs.Reading.{is_new};
ghost use Rattle.kinds.specs.Kinds.{last_kind};
ghost use Rattle.format.specs.Found.{IsKindAt, numbered, found_at, refusal_at};

use fields::byte_at;
use kinds::Kind;
use kinds::lengths::body_length;

pub mod listing; // listing.rt: the pairs of a certificate
pub mod symbols; // symbols.rt: the symbols of a condition

// The refusals 1 to 10 and 12 to 14 of document 01 and 18 to 20 and 24 to 26 of document 02, with their places; specs/Refusal gives each its number.
#[derive(Clone, Copy)]
pub enum Refusal {
    TooLong(usize),
    UnknownKind(usize),
    BodyPastEnd(usize),
    WrongSection(usize),
    WrongItems(usize),
    OverLimit(usize),
    UnknownName(usize),
    Unfinished(usize),
    NoFirstBody(usize),
    CertificateCount(usize),
    WordTooLong,
    StrayEvent(usize),
    NoSuchCondition,
    WrongOutcomes(usize),
    EditionNotFirst(usize),
    StopInOldSheet(usize),
    WrongOwner(usize),
    UnknownOwner(usize),
    WrongChannel(usize),
}

// A record, by its kind and the offset after it.
#[derive(Clone, Copy)]
pub struct Record {
    pub kind: Kind,
    pub next: usize,
}

// The kind whose byte stands at an offset, if it is one.
pub fn kind_at(s: &[u8], at: usize) -> Option<Kind>
    ensures { IsKindAt s.now at result }
{
    Kind::try_from(byte_at(s, at)).ok()
}

// A sheet of the new edition: its first byte says so.
pub fn is_new(s: &[u8]) -> bool
    ensures { result ≡ is_new s.now }
{
    byte_at(s, 0) == Kind::Edition as u8
}

// The record at an offset, of the kinds 1 to `kinds`. Where there is none, `refusal_at` says why.
pub fn record_at(s: &[u8], kinds: u8, at: usize) -> Option<Record>
    requires { kinds ≤ last_kind }
    ensures { numbered result ≡ found_at kinds s.now at }
{
    let byte = byte_at(s, at);
    if kinds < byte {
        return None;
    }
    let length = body_length(byte)?;
    let next = at + 1 + length;
    if s.len() < next {
        return None;
    }
    let kind = kind_at(s, at)?;
    Some(Record { kind, next })
}

// The refusal that ends reading at an offset where no record stands.
pub fn refusal_at(s: &[u8], kinds: u8, at: usize) -> Refusal
    ensures { result ≡ refusal_at kinds s.now at }
{
    let byte = byte_at(s, at);
    if 0 < byte && byte <= kinds {
        return Refusal::BodyPastEnd(at);
    }
    Refusal::UnknownKind(at)
}

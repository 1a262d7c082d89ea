#![tactic(auto)]
// The documents' number and place of each refusal.
ghost use Rattle.std.specs.Prelude.{◌≡◌};
ghost use Rattle.format.specs.Options.{option_of};
ghost use Rattle.format.specs.Refusal.{number_of, place_of};

use format::Refusal;

pub fn refusal_number(x: Refusal) -> usize
    ensures { result ≡ number_of x }
{
    match x {
        Refusal::TooLong(_) => 1,
        Refusal::UnknownKind(_) => 2,
        Refusal::BodyPastEnd(_) => 3,
        Refusal::WrongSection(_) => 4,
        Refusal::WrongItems(_) => 5,
        Refusal::OverLimit(_) => 6,
        Refusal::UnknownName(_) => 7,
        Refusal::Unfinished(_) => 8,
        Refusal::NoFirstBody(_) => 9,
        Refusal::CertificateCount(_) => 10,
        Refusal::WordTooLong => 12,
        Refusal::StrayEvent(_) => 13,
        Refusal::NoSuchCondition => 14,
        Refusal::WrongOutcomes(_) => 18,
        Refusal::EditionNotFirst(_) => 19,
        Refusal::StopInOldSheet(_) => 20,
        Refusal::WrongOwner(_) => 24,
        Refusal::UnknownOwner(_) => 25,
        Refusal::WrongChannel(_) => 26,
    }
}

// A refusal's place, where it has one.
pub fn refusal_place(x: Refusal) -> Option<usize>
    ensures { option_of result ≡ place_of x }
{
    match x {
        Refusal::TooLong(at)
        | Refusal::UnknownKind(at)
        | Refusal::BodyPastEnd(at)
        | Refusal::WrongSection(at)
        | Refusal::WrongItems(at)
        | Refusal::OverLimit(at)
        | Refusal::UnknownName(at)
        | Refusal::Unfinished(at)
        | Refusal::NoFirstBody(at)
        | Refusal::CertificateCount(at)
        | Refusal::StrayEvent(at)
        | Refusal::WrongOutcomes(at)
        | Refusal::EditionNotFirst(at)
        | Refusal::StopInOldSheet(at)
        | Refusal::WrongOwner(at)
        | Refusal::UnknownOwner(at)
        | Refusal::WrongChannel(at) => Some(at),
        Refusal::WordTooLong | Refusal::NoSuchCondition => None,
    }
}

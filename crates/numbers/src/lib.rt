#![tactic(auto)]
// An answer as eight numbers, for callers in C and Rust, and storing them in a lent slice.
ghost use Rattle.std.specs.Prelude.{◌≡◌};
ghost use Rattle.format.specs.Refusal.{number_of, place_of};
ghost use Rattle.verdict.specs.Verdict.{refused};
ghost use Rattle.answers.specs.Answers.{report_of, answer_of};
ghost use Rattle.numbers.specs.Numbers.{report_numbers, answer_numbers, unknown_numbers};
ghost use Rattle.numbers.specs.Stores.{Stores};

use answers::{Verdict, WordAnswer, rule_numbers};
use format::Refusal;
use refusal_rows::{refusal_number, refusal_place};

// How many numbers a door writes; harness/include/sheet_loader.h has the same constants for C.
pub const ROOM: usize = 8;

// The status, which a door returns and writes first: plain numbers, since callers in C read them. Where there is no room nothing is written, and the status is none of an answer's.
const NOT_WRITTEN: usize = 0;

const ACCEPTED: usize = 1;

const YES: usize = 1;

pub const READ_WHOLE: usize = 1;

const REFUSED: usize = 2;

const UNPROVED: usize = 3;

const NO: usize = 3;

const UNKNOWN_INSTRUMENT: usize = 4;

// Document 01's number of an unproved answer, and what stands for the place of a refusal that has none.
const FAULT: usize = 11;

const NO_PLACE: usize = usize::MAX;

// The numbers at the front of a slice that has room for them; returns the status.
pub fn store(numbers: [usize; ROOM], out: &mut [usize]) -> usize
    ensures { Stores numbers out.old out.new result }
{
    if out.len() < ROOM {
        return NOT_WRITTEN;
    }
    out[..ROOM].copy_from_slice(&numbers);
    numbers[0]
}

// A refusal: its number, and its place, which is the largest number where it has none.
pub fn refusal_numbers(x: Refusal) -> [usize; ROOM]
    ensures { result ≡ report_numbers (refused (number_of x) (place_of x)) }
{
    let number = refusal_number(x);
    match refusal_place(x) {
        Some(at) => [REFUSED, number, at, 0, 0, 0, 0, 0],
        None => [REFUSED, number, NO_PLACE, 0, 0, 0, 0, 0],
    }
}

pub fn verdict_numbers(v: Verdict) -> [usize; ROOM]
    ensures { result ≡ report_numbers (report_of v) }
{
    match v {
        Verdict::Accepted(n) => [ACCEPTED, 0, n, 0, 0, 0, 0, 0],
        Verdict::Refused(x) => refusal_numbers(x),
        Verdict::Unproved { rule, fault } => {
            let numbers = rule_numbers(rule);
            [
                UNPROVED,
                FAULT,
                numbers.number,
                numbers.subject,
                fault.clause,
                fault.pair,
                fault.event,
                fault.place,
            ]
        }
    }
}

pub fn answer_numbers(a: WordAnswer) -> [usize; ROOM]
    ensures { result ≡ answer_numbers (answer_of a) }
{
    match a {
        WordAnswer::Yes => [YES, 0, 0, 0, 0, 0, 0, 0],
        WordAnswer::No(n) => [NO, 0, n, 0, 0, 0, 0, 0],
        WordAnswer::Refused(x) => refusal_numbers(x),
    }
}

// The number that was given for the instrument is none's.
pub fn unknown_numbers() -> [usize; ROOM]
    ensures { result ≡ unknown_numbers }
{
    [UNKNOWN_INSTRUMENT, 0, 0, 0, 0, 0, 0, 0]
}

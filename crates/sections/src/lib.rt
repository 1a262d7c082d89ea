#![tactic(auto)]
// The section readers behind that of the conditions: each goes over the records of its section, counts them, and fills a table with their offsets.
ghost use Rattle.std.specs.Prelude.{◌≡◌, [], suc, ◌≤◌, length};
ghost use Rattle.sheet.specs.Kind.{certificates};
ghost use Rattle.sheet.specs.Reading.{Reading, ReadResult};
ghost use Rattle.kinds.specs.Kinds.{last_kind};
ghost use Rattle.kinds.specs.Numbers.{section_number};
ghost use Rattle.instrument.specs.Model.{model_with};
ghost use Rattle.sections.specs.Sections.{addressable, Told, Filled, FirstSheet, NamedListed, Alone, end_of, Concluded};

use format::{Record, Refusal, record_at, refusal_at};
use instrument::Limits;
use kinds::Section;
use names::judge::judge;
use owners::first_stray_owner;
use refusals::editions::stop_fits;
use tally::{Tally, past};

// What a sheet that is read whole has: its tally, and the offset where its first certificate starts (its length, if it has none).
#[derive(Clone, Copy)]
pub struct Contents {
    pub tally: Tally,
    pub certificates: usize,
}

// Where a section ends, with the tally there.
#[derive(Clone, Copy)]
pub struct Reached {
    pub at: usize,
    pub tally: Tally,
}

// The section readers. Each starts where the section before ended, and tells where its own ends, or the refusal that ends reading (`Told`),
// whatever was counted before the sheet. A table holds each offset in four bytes.

// That the limits name no kind above the last is asked for, and no fact of their type: they are an instrument's, which knows of no table of kinds.

// The loops step by records: a record tells where the next one starts, so there is no index for a `for` to count. The tables stand apart, since the one that
// is filled is lent to be written, and those that the records name are not.

// The points, the methods or the steps, at most `limit` of them. Each record counts by itself. Methods and steps name points, and steps name methods, whose
// offsets are in `points` and `methods`.
pub fn read_alone(
    s: &[u8],
    limits: Limits,
    section: Section,
    limit: usize,
    reached: Result<Reached, Refusal>,
    points: &[u32],
    methods: &[u32],
    table: &mut [u32],
) -> Result<Reached, Refusal>
    requires { Alone limits (section_number section) limit table.old × (length s.now ≤ addressable) }
    ensures { (o : ReadResult) (u : Reading) → Told (model_with limits) s.now o (section_number section) reached u → u.own (section_number section) ≡ []
        → NamedListed s.now points.now methods.now (section_number section) u
        → Filled (model_with limits) s.now o (suc (section_number section)) result (section_number section) u table.old table.new }
{
    let Reached { mut at, mut tally } = reached?;
    let number = section.number();
    let first = tally.count(number);
    while at < s.len() {
        let Some(Record { kind, next }) = record_at(s, limits.kinds, at) else {
            return Err(refusal_at(s, limits.kinds, at));
        };
        let here = kind.section();
        if here.is_before(section) {
            return Err(Refusal::WrongSection(at));
        }
        if section.is_before(here) {
            return Ok(Reached { at, tally });
        }
        if !stop_fits(s, kind) {
            return Err(Refusal::StopInOldSheet(at));
        }
        let n = tally.count(number);
        if limit <= n {
            return Err(Refusal::OverLimit(at));
        }
        let events = limits.events;
        judge(s, at, kind, n == first, tally, events, points, methods)?;
        table[n] = at as u32;
        tally = past(tally, number);
        at = next;
    }
    Ok(Reached { at, tally })
}

// The end of the sheet: refusals 8, 9 and 25, or the sheet is read whole. The points stand at the offsets of a table.
fn at_end(s: &[u8], inside: bool, contents: Contents, points: &[u32]) -> Result<Contents, Refusal>
    ensures { result ≡ end_of s.now inside contents points.now }
{
    if inside {
        return Err(Refusal::Unfinished(s.len()));
    }
    if contents.tally.methods == 0 {
        return Err(Refusal::NoFirstBody(s.len()));
    }
    let stray = first_stray_owner(s, points, contents.tally.points, contents.tally.methods);
    match stray {
        Some(at) => Err(Refusal::UnknownOwner(at)),
        None => Ok(contents),
    }
}

// The certificates, and the end of the sheet. Certificates have no table; the points stand at the offsets of one.
pub fn read_certificates(
    s: &[u8],
    limits: Limits,
    reached: Reached,
    points: &[u32],
) -> Result<Contents, Refusal>
    requires { (limits.kinds ≤ last_kind) × (reached.tally.certificates ≤ reached.at) }
    ensures { (o : ReadResult) (u : Reading) → Told (model_with limits) s.now o certificates (Ok reached) u → u.own certificates ≡ []
        → FirstSheet s.now points.now u → Concluded s.now o u result }
{
    let Reached { mut at, mut tally } = reached;
    let mut inside = false;
    while at < s.len() {
        let Some(Record { kind, next }) = record_at(s, limits.kinds, at) else {
            return Err(refusal_at(s, limits.kinds, at));
        };
        if kind.section().is_before(Section::Certificates) {
            return Err(Refusal::WrongSection(at));
        }
        let ends = kind.counts();
        inside = !ends;
        if ends {
            tally = past(tally, Section::Certificates as u8);
        }
        at = next;
    }
    let contents = Contents {
        tally,
        certificates: reached.at,
    };
    at_end(s, inside, contents, points)
}

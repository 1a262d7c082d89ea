#![tactic(auto)]
// The section reader of the conditions.
ghost use Rattle.std.specs.Prelude.{◌≡◌, [], ◌≤◌, length};
ghost use Rattle.sheet.specs.Kind.{conditions, points};
ghost use Rattle.sheet.specs.Reading.{Reading, ReadResult};
ghost use Rattle.kinds.specs.Kinds.{last_kind};
ghost use Rattle.instrument.specs.Model.{model_with};
ghost use Rattle.sections.specs.Sections.{addressable, Told, done, Filled};

use format::{Record, Refusal, record_at, refusal_at};
use instrument::Limits;
use kinds::{Kind, Section};
use refusals::editions::past_mark;
use refusals::{condition_step, nothing_begun};
use sections::Reached;
use tally::{Tally, past};

// The conditions, behind the mark of the edition. One is stored with its start, when its end comes.
pub fn read_conditions(
    s: &[u8],
    limits: Limits,
    given: Tally,
    table: &mut [u32; 256],
) -> Result<Reached, Refusal>
    requires { (limits.kinds ≤ last_kind) × (length s.now ≤ addressable) }
    ensures { (o : ReadResult) (u : Reading) → Told (model_with limits) s.now o 0 (done 0 given) u → u.own conditions ≡ []
        → Filled (model_with limits) s.now o points result conditions u table.old table.new }
{
    let mut at = past_mark(s, limits.kinds);
    let mut start = at;
    let mut begun = nothing_begun();
    let mut tally = given;
    // by records, whose lengths differ: no `for` counts them
    while at < s.len() {
        let Some(Record { kind, next }) = record_at(s, limits.kinds, at) else {
            return Err(refusal_at(s, limits.kinds, at));
        };
        if !kind.in_condition() {
            if 0 < begun.symbols {
                return Err(Refusal::WrongSection(at));
            }
            if let Kind::Edition = kind {
                return Err(Refusal::EditionNotFirst(at));
            }
            return Ok(Reached { at, tally });
        }
        let n = tally.conditions;
        begun = condition_step(begun, kind, n, at)?;
        if kind.counts() {
            table[n] = start as u32;
            tally = past(tally, Section::Conditions as u8);
            start = next;
        }
        at = next;
    }
    if 0 < begun.symbols {
        return Err(Refusal::Unfinished(s.len()));
    }
    Ok(Reached { at, tally })
}

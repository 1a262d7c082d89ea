#![tactic(auto)]
// Reading a sheet: section after section, until the sheet is read whole or refused.
ghost use Rattle.std.specs.Prelude.{◌≤◌, length};
ghost use Rattle.instrument.specs.Model.{model_of};
ghost use Rattle.reader.specs.Contract.{Answered, Reads};

use condition_section::read_conditions;
use format::Refusal;
use instrument::{Instrument, limits_of};
use kinds::Section;
use offsets::Offsets;
use sections::{Contents, read_alone, read_certificates};
use tally::nothing_counted;

// The sheet, as an instrument takes it: whole, or the first refusal of 1 to 9, 18 to 20 and 24 to 26. Each table ends with the offsets of what was read in
// its front, also of a sheet that is refused. The table of points has room for the instrument's.
pub fn read_sheet(
    instrument: Instrument,
    s: &[u8],
    offsets: &mut Offsets,
    points: &mut [u32],
) -> Result<Contents, Refusal>
    requires { (model_of instrument).points ≤ length points.old }
    ensures { Reads (model_of instrument) s.now result offsets.old offsets.new points.old points.new }
{
    let limits = limits_of(instrument);
    if limits.bytes < s.len() {
        return Err(Refusal::TooLong(limits.bytes));
    }
    // Each table is lent where it is read into, and the limit of points asked for where it is needed: taken before, addresses and limit would lie on the stack
    // while the conditions are read.
    let first = read_conditions(s, limits, nothing_counted(), &mut offsets.conditions);
    let second = read_alone(
        s,
        limits,
        Section::Points,
        limits_of(instrument).points,
        first,
        &[],
        &[],
        points,
    );
    let third = read_alone(
        s,
        limits,
        Section::Methods,
        64,
        second,
        points,
        &[],
        &mut offsets.methods,
    );
    let reached = read_alone(
        s,
        limits,
        Section::Steps,
        512,
        third,
        points,
        &offsets.methods,
        &mut offsets.steps,
    )?;
    read_certificates(s, limits, reached, points)
}

// The answer of reading alone, with a table for N points. What N is between is asked for, here as in the loader and the word test, since a const parameter
// has no type of its own.
fn read_sized<const N: usize>(instrument: Instrument, s: &[u8]) -> Result<Contents, Refusal>
    requires { ((model_of instrument).points ≤ N) × (N ≤ 512) }
    ensures { Answered (model_of instrument) s.now result }
{
    let mut offsets = Offsets::EMPTY;
    let mut points = [0u32; N];
    read_sheet(instrument, s, &mut offsets, &mut points)
}

// The answer of reading alone, on an instrument. A match, since the table of points has another size on the entry instrument.
pub fn read_on(instrument: Instrument, s: &[u8]) -> Result<Contents, Refusal>
    ensures { Answered (model_of instrument) s.now result }
{
    match instrument {
        Instrument::Large | Instrument::Four => read_sized::<512>(instrument, s),
        Instrument::Entry => read_sized::<64>(instrument, s),
    }
}

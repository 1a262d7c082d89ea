#![tactic(auto)]
// The word test, on any instrument.
ghost use Rattle.std.specs.Prelude.{◌≡◌, ◌≤◌, length};
ghost use Rattle.sheet.specs.Model.{large, entry, four};
ghost use Rattle.sheet.specs.Decode.{sheet_of};
ghost use Rattle.verdict.specs.WordTest.{word_test};
ghost use Rattle.verdict.specs.Promise.{TestsWord};
ghost use Rattle.instrument.specs.Model.{model_of};
ghost use Rattle.reader.specs.Contract.{ReadWhole};
ghost use Rattle.answers.specs.Answers.{answer_of};
ghost use Rattle.index.specs.Indexed.{ConditionsIn};
ghost use Rattle.words.specs.Stray.{stray_in};

use answers::WordAnswer;
use format::Refusal;
use instrument::{Instrument, limits_of};
use matching::match_word;
use offsets::Offsets;
use reader::read_sheet;
use sections::Contents;

// How long a word may be.
const LONGEST: usize = 4096;

// The index of the first event that is not below `events`, if there is one.
fn first_stray(word: &[u8], events: usize) -> Option<usize>
    ensures { result ≡ stray_in events word.now }
{
    word.iter().position(|&e| events <= usize::from(e))
}

// The word test on a sheet that is read whole: 14, 12, 13, or yes or no. No two of its parameters travel further together.
fn answer(
    s: &[u8],
    conditions: &[u32; 256],
    instrument: Instrument,
    contents: Contents,
    condition: usize,
    word: &[u8],
) -> WordAnswer
    requires read_whole { ReadWhole (model_of instrument) s.now contents }
    requires conditions_in { ConditionsIn (sheet_of (model_of instrument) s.now) s.now conditions.now }
    ensures { answer_of result ≡ word_test (model_of instrument) s.now condition word.now }
{
    let tally = contents.tally;
    if tally.conditions <= condition {
        return WordAnswer::Refused(Refusal::NoSuchCondition);
    }
    if LONGEST < word.len() {
        return WordAnswer::Refused(Refusal::WordTooLong);
    }
    let limits = limits_of(instrument);
    let events = limits.events;
    if let Some(stray) = first_stray(word, events) {
        return WordAnswer::Refused(Refusal::StrayEvent(stray));
    }
    match match_word(s, conditions[condition] as usize, events, word) {
        Ok(()) => WordAnswer::Yes,
        Err(n) => WordAnswer::No(n),
    }
}

// The word test of an instrument, with a table for its points.
fn test_with(
    instrument: Instrument,
    s: &[u8],
    points: &mut [u32],
    condition: usize,
    word: &[u8],
) -> WordAnswer
    requires { (model_of instrument).points ≤ length points.old }
    ensures { TestsWord (model_of instrument) s.now condition word.now (answer_of result) }
{
    let mut offsets = Offsets::EMPTY;
    match read_sheet(instrument, s, &mut offsets, points) {
        Ok(contents) => answer(
            s,
            &offsets.conditions,
            instrument,
            contents,
            condition,
            word,
        ),
        Err(x) => WordAnswer::Refused(x),
    }
}

// The word test of an instrument, with a table for N points: as many as it takes, and no more than any takes.
fn test_sized<const N: usize>(
    instrument: Instrument,
    s: &[u8],
    condition: usize,
    word: &[u8],
) -> WordAnswer
    requires room { (model_of instrument).points ≤ N }
    requires bound { N ≤ 512 }
    ensures { TestsWord (model_of instrument) s.now condition word.now (answer_of result) }
{
    let mut points: [u32; N] = [0; N];
    test_with(instrument, s, &mut points, condition, word)
}

// The word test of the large instrument. This and the two below are for callers that know their instrument: each promises what it does on that one.
pub fn word_test(s: &[u8], condition: usize, word: &[u8]) -> WordAnswer
    ensures { TestsWord large s.now condition word.now (answer_of result) }
{
    test_sized::<512>(Instrument::Large, s, condition, word)
}

// The word test of the four-channel instrument.
pub fn word_test_four(s: &[u8], condition: usize, word: &[u8]) -> WordAnswer
    ensures { TestsWord four s.now condition word.now (answer_of result) }
{
    test_sized::<512>(Instrument::Four, s, condition, word)
}

// The word test of the entry instrument.
pub fn word_test_entry(s: &[u8], condition: usize, word: &[u8]) -> WordAnswer
    ensures { TestsWord entry s.now condition word.now (answer_of result) }
{
    test_sized::<64>(Instrument::Entry, s, condition, word)
}

// The word test of an instrument. A match, since the table of points has another size on the entry instrument, and each arm is a word test of its own.
pub fn word_test_on(instrument: Instrument, s: &[u8], condition: usize, word: &[u8]) -> WordAnswer
    ensures { TestsWord (model_of instrument) s.now condition word.now (answer_of result) }
{
    match instrument {
        Instrument::Large => word_test(s, condition, word),
        Instrument::Entry => word_test_entry(s, condition, word),
        Instrument::Four => word_test_four(s, condition, word),
    }
}

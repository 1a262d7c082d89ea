#![tactic(auto)]
// Doors for C and Rust: reading a sheet, the loader and the word test on lent slices, the answer as a status and eight numbers. The instrument is
// given as a number; one that is none's gets a status of its own. The crate sheet_loader_c exports them.
// Each door has its own match: a helper that takes the step as a closure has to say what the step answers, and each door promises another thing.
ghost use Rattle.std.specs.Prelude.{◌≡◌};
ghost use Rattle.sheet.specs.Model.{entry};
ghost use Rattle.sheet_loader.specs.Reading.{numbers_read};
ghost use Rattle.sheet_loader.specs.Doors.{LoadsInto, LoadsOn, TestsWordOn, ReadsOn};

use format::Refusal;
use instrument::Instrument;
use loader::{load_entry, load_on};
use numbers::{
    READ_WHOLE, ROOM, answer_numbers, refusal_numbers, store, unknown_numbers, verdict_numbers,
};
use reader::read_on;
use sections::Contents;
use words::word_test_on;

fn read_numbers(read: Result<Contents, Refusal>) -> [usize; ROOM]
    ensures { result ≡ numbers_read read }
{
    match read {
        Ok(contents) => {
            let t = contents.tally;
            [
                READ_WHOLE,
                0,
                t.conditions,
                t.points,
                t.methods,
                t.steps,
                t.certificates,
                0,
            ]
        }
        Err(x) => refusal_numbers(x),
    }
}

pub fn sheet_loader_read(instrument: usize, sheet: &[u8], out: &mut [usize]) -> usize
    ensures { ReadsOn instrument sheet.now out.old out.new result }
{
    match Instrument::try_from(instrument) {
        Ok(i) => store(read_numbers(read_on(i, sheet)), out),
        Err(_) => store(unknown_numbers(), out),
    }
}

pub fn sheet_loader_load(instrument: usize, sheet: &[u8], out: &mut [usize]) -> usize
    ensures { LoadsOn instrument sheet.now out.old out.new result }
{
    match Instrument::try_from(instrument) {
        Ok(i) => store(verdict_numbers(load_on(i, sheet)), out),
        Err(_) => store(unknown_numbers(), out),
    }
}

// The loader of the entry instrument alone. A function has one frame, so a door that takes the instrument as a number has room on the stack for
// the points of the large one.
pub fn sheet_loader_load_entry(sheet: &[u8], out: &mut [usize]) -> usize
    ensures { LoadsInto entry sheet.now out.old out.new result }
{
    store(verdict_numbers(load_entry(sheet)), out)
}

pub fn sheet_loader_word_test(
    instrument: usize,
    sheet: &[u8],
    condition: usize,
    word: &[u8],
    out: &mut [usize],
) -> usize
    ensures { TestsWordOn instrument sheet.now condition word.now out.old out.new result }
{
    match Instrument::try_from(instrument) {
        Ok(i) => store(answer_numbers(word_test_on(i, sheet, condition, word)), out),
        Err(_) => store(unknown_numbers(), out),
    }
}

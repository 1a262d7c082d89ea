#![tactic(auto)]
// Runs the stored cases and prints a line for each: sheets that are read, sheets that are loaded, and words that are tested, on the large
// instrument, then on the entry instrument and then on the four-channel one. What cannot be written is left out.
use answers::Verdict;
use cases::{next_bytes, next_number, next_sheet, next_short};
use input::first;
use instrument::Instrument;
use loader::load_on;
use printing::print;
use reader::read_on;
use std::io::Write;
use std::rt::Files;
use std::{fs, io};
use tally::Tally;
use words::word_test_on;

// Piece by piece: where one cannot be written, the next is tried.
fn print_tally<W: Write>(out: &mut W, t: Tally) {
    let _ = out.write_all(b"read");
    for n in [t.conditions, t.points, t.methods, t.steps, t.certificates] {
        let _ = write!(out, " {n}");
    }
    let _ = out.write_all(b"\n");
}

// The refusal, or the five counts of a sheet that is read whole.
fn print_reading<W: Write>(out: &mut W, instrument: Instrument, sheet: &[u8]) {
    let read = read_on(instrument, sheet);
    match read {
        Ok(contents) => print_tally(out, contents.tally),
        Err(x) => {
            let _ = print(out, Verdict::Refused(x));
        }
    }
}

fn print_loading<W: Write>(out: &mut W, instrument: Instrument, sheet: &[u8]) {
    let _ = print(out, load_on(instrument, sheet));
}

// A condition's number, the word's length and the word. None where there are no such bytes.
fn next_word<R: io::Read, W: Write>(
    out: &mut W,
    instrument: Instrument,
    file: &mut R,
    sheet: &[u8],
) -> Option<()> {
    let condition = next_short(file)?;
    let length = next_short(file)?;
    let mut room = [0u8; 65535];
    let got = next_bytes(file, length, &mut room);
    let _ = print(
        out,
        word_test_on(instrument, sheet, condition, first(&room, got)),
    );
    Some(())
}

// Behind a sheet, the number of its words, and each word.
fn print_words<R: io::Read, W: Write>(
    out: &mut W,
    instrument: Instrument,
    file: &mut R,
    sheet: &[u8],
) {
    for _ in 0..next_number(file).unwrap_or(0) {
        let _ = next_word(out, instrument, file, sheet);
    }
}

// What `step` prints for each sheet of a file. It takes what follows the sheet from the file.
fn print_cases<F: Files, W: Write, S: Fn(&mut W, &mut F::File, &[u8])>(
    files: &F,
    out: &mut W,
    name: &str,
    step: S,
)
    requires { S.IsAlwaysCallable step }
{
    let Ok(mut file) = fs::open(files, name) else {
        return;
    };
    let mut room = [0u8; 65600];
    for _ in 0..100000 {
        let Some(n) = next_sheet(&mut file, &mut room) else {
            return;
        };
        step(out, &mut file, first(&room, n));
    }
}

// The cases of an instrument: sheets that are read, sheets that are loaded, and words. The names of the files are constants of the call.
fn print_on<F: Files, W: Write>(
    rt: &F,
    out: &mut W,
    instrument: Instrument,
    reading: &str,
    sheets: &str,
    words: &str,
) {
    print_cases(rt, out, reading, |out, _, sheet| {
        print_reading(out, instrument, sheet)
    });
    print_cases(rt, out, sheets, |out, _, sheet| {
        print_loading(out, instrument, sheet)
    });
    print_cases(rt, out, words, |out, file, sheet| {
        print_words(out, instrument, file, sheet)
    });
}

fn print_all<F: Files, W: Write>(rt: &F, out: &mut W) {
    print_on(rt, out, Instrument::Large, "reading", "sheets", "words");
    print_on(
        rt,
        out,
        Instrument::Entry,
        "entry_reading",
        "entry_sheets",
        "entry_words",
    );
    print_on(
        rt,
        out,
        Instrument::Four,
        "four_reading",
        "four_sheets",
        "four_words",
    );
}

fn main(rt: HostRuntime) {
    print_all(&rt, &mut rt.stdout());
}

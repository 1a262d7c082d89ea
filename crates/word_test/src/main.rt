#![tactic(auto)]
// Tests a word in a condition of a sheet on an instrument and prints one line. The arguments are the sheet's file, the condition's number and the
// events. What is wrong with them, and what cannot be read or written, is said on standard error.
ghost use Rattle.std.specs.Prelude.{◌≤◌};

use arguments::{cannot_write, chosen_instrument, is_argument, read_named, wrong_argument};
use decimal::{number_at, read_events};
use input::{first, has_argument};
use instrument::Instrument;
use printing::print;
use std::env::Env;
use std::io::Write;
use std::rt::Files;
use words::word_test_on;

fn wrong<R: Env, E: Write>(rt: &R, errors: &mut E, i: usize, expected: &[u8]) {
    wrong_argument(rt, errors, b"word_test", i, expected);
}

// That argument i is no event of the instrument.
fn wrong_event<R: Env, E: Write>(rt: &R, errors: &mut E, instrument: Instrument, i: usize) {
    match instrument {
        Instrument::Large | Instrument::Entry => {
            wrong(rt, errors, i, b"an event, a number from 0 to 31")
        }
        Instrument::Four => wrong(rt, errors, i, b"an event, a number from 0 to 63"),
    }
}

// The answer on the word of the events from argument `from` on. There is room for one event more than a word may have; what follows it is not
// read. The runtime, standard output and standard error have types of their own, so no struct shortens the list.
fn print_test<R: Env, O: Write, E: Write>(
    rt: &R,
    out: &mut O,
    errors: &mut E,
    instrument: Instrument,
    sheet: &[u8],
    condition: usize,
    from: usize,
) {
    let mut word = [0u8; 4097];
    match read_events(rt, from, &mut word) {
        Ok(n) => {
            let answer = word_test_on(instrument, sheet, condition, first(&word, n));
            if let Err(e) = print(out, answer) {
                cannot_write(errors, b"word_test", e);
            }
        }
        Err(i) => wrong_event(rt, errors, instrument, i),
    }
}

// The sheet's file is argument i, and the others follow it. There is room for one byte more than a sheet may have on any instrument.
fn print_line<R: Env + Files, O: Write, E: Write>(
    rt: &R,
    out: &mut O,
    errors: &mut E,
    instrument: Instrument,
    i: usize,
)
    requires { i ≤ 3 }
{
    let mut room = [0u8; 65537];
    let Ok(n) = read_named(rt, errors, b"word_test", i, &mut room) else {
        return;
    };
    match number_at(rt, i + 1) {
        Some(k) => print_test(rt, out, errors, instrument, first(&room, n), k, i + 2),
        None => wrong(rt, errors, i + 1, b"the condition's number"),
    }
}

fn print_help<O: Write, E: Write>(out: &mut O, errors: &mut E) {
    let written = out.write_all(
        b"usage: word_test [--instrument large|entry|four] SHEET CONDITION EVENT...\n\
          \n\
          Tests whether a condition of the sheet in the file SHEET holds the word of the events, and prints one line.\n\
          CONDITION is the condition's number, counted from 0; each EVENT is a number, one of the instrument's events.\n\
          \x20 yes                 the condition holds the word\n\
          \x20 no N                it does not; the first N events are the longest beginning that begins some word of the condition\n\
          \x20 refused N at P      the bytes are no well formed sheet, by refusal N, at the place P\n\
          \x20 refused 12          the word is longer than 4,096 events\n\
          \x20 refused 13 at I     the event at the index I is above the instrument's last\n\
          \x20 refused 14          there is no such condition\n\
          The large and the four-channel instrument take 65,536 bytes and 512 points, the entry instrument 8,192 bytes and 64 points.\n\
          The four-channel instrument has the events 0 to 63, the others 0 to 31.\n\
          Where none is named, the sheet is one of the large one.\n\
          What is wrong with an argument, and what cannot be read or written, is said on standard error.\n\
          The exit status is always 0.\n",
    );
    if let Err(e) = written {
        cannot_write(errors, b"word_test", e);
    }
}

fn misused<R: Env, E: Write>(rt: &R, errors: &mut E, i: usize, expected: &[u8]) {
    wrong(rt, errors, i, expected);
    let _ = errors.write_all(
        b"usage: word_test [--instrument large|entry|four] SHEET CONDITION EVENT...\n",
    );
}

// Argument `next` is the first one behind the option.
fn run<R: Env + Files, O: Write, E: Write>(
    rt: &R,
    out: &mut O,
    errors: &mut E,
    instrument: Instrument,
    next: usize,
)
    requires { next ≤ 3 }
{
    if is_argument(rt, next, b"--help") {
        print_help(out, errors);
    } else if !has_argument(rt, next) {
        misused(rt, errors, next, b"the sheet's file");
    } else if !has_argument(rt, next + 1) {
        misused(rt, errors, next + 1, b"the condition's number");
    } else {
        print_line(rt, out, errors, instrument, next);
    }
}

// As in load: a `main` for both would take `run` and the program's name to save five lines.
fn main(rt: HostRuntime) {
    let mut out = rt.stdout();
    let mut errors = rt.stderr();
    let choice = chosen_instrument(&rt, &mut errors, b"word_test");
    if let Some(instrument) = choice.instrument {
        run(&rt, &mut out, &mut errors, instrument, choice.next);
    }
}

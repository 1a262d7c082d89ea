#![tactic(auto)]
// Loads a sheet on an instrument and prints one line. The sheet is the file that the argument names, or standard input. What is wrong with the
// arguments, and what cannot be read or written, is said on standard error; a sheet that cannot be read gets no line.
ghost use Rattle.std.specs.Prelude.{◌≤◌};

use arguments::{cannot_write, chosen_instrument, is_argument, read_input, read_named};
use input::{first, has_argument};
use instrument::Instrument;
use loader::load_on;
use printing::print;
use std::env::Env;
use std::io;
use std::io::Write;
use std::rt::Files;

// The file that argument i names, or standard input where there is no such argument.
fn read_sheet<R: Env + Files + io::Input, E: Write>(
    rt: &R,
    errors: &mut E,
    i: usize,
    room: &mut [u8],
) -> io::Result<usize> {
    if has_argument(rt, i) {
        read_named(rt, errors, b"load", i, room)
    } else {
        read_input(rt, errors, b"load", room)
    }
}

// There is room for one byte more than a sheet may have on any instrument.
fn print_answer<R: Env + Files + io::Input, O: Write, E: Write>(
    rt: &R,
    out: &mut O,
    errors: &mut E,
    instrument: Instrument,
    i: usize,
) {
    let mut room = [0u8; 65537];
    let Ok(n) = read_sheet(rt, errors, i, &mut room) else {
        return;
    };
    if let Err(e) = print(out, load_on(instrument, first(&room, n))) {
        cannot_write(errors, b"load", e);
    }
}

fn print_help<O: Write, E: Write>(out: &mut O, errors: &mut E) {
    let written = out.write_all(
        b"usage: load [--instrument large|entry|four] [FILE]\n\
          \n\
          Loads the sheet in FILE, or on standard input, and prints one line:\n\
          \x20 accepted N          all N rules of the sheet are met\n\
          \x20 refused N at P      the bytes are no well formed sheet, by refusal N, at the place P\n\
          \x20 unproved rule R ..  the sheet is well formed, and this is the first fault\n\
          The large and the four-channel instrument take 65,536 bytes and 512 points, the entry instrument 8,192 bytes and 64 points.\n\
          The four-channel instrument has the events 0 to 63, the others 0 to 31.\n\
          Where none is named, the sheet is loaded on the large one.\n\
          What is wrong with an argument, and what cannot be read or written, is said on standard error.\n\
          The exit status is always 0.\n",
    );
    if let Err(e) = written {
        cannot_write(errors, b"load", e);
    }
}

// Argument `next` is the first one behind the option.
fn run<R: Env + Files + io::Input, O: Write, E: Write>(
    rt: &R,
    out: &mut O,
    errors: &mut E,
    instrument: Instrument,
    next: usize,
)
    requires { next ≤ 3 }
{
    if has_argument(rt, next + 1) {
        let _ = errors.write_all(
            b"load: more than one argument\nusage: load [--instrument large|entry|four] [FILE]\n",
        );
    } else if is_argument(rt, next, b"--help") {
        print_help(out, errors);
    } else {
        print_answer(rt, out, errors, instrument, next);
    }
}

// As in word_test: a `main` for both would take `run` and the program's name to save five lines.
fn main(rt: HostRuntime) {
    let mut out = rt.stdout();
    let mut errors = rt.stderr();
    let choice = chosen_instrument(&rt, &mut errors, b"load");
    if let Some(instrument) = choice.instrument {
        run(&rt, &mut out, &mut errors, instrument, choice.next);
    }
}

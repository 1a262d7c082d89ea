#![tactic(auto)]
// An answer's line on a writer, as standard output.
ghost use Rattle.std.specs.Prelude.{◌≤◌, OnOk};
ghost use Rattle.arrayvec.specs.ArrayVec.{array_vec_len};
ghost use Rattle.printing.specs.Printing.{Prints};

use line::{Answer, line_of};
use std::io;
use std::io::Write;
use text::Line;

// The line and its end, in one piece.
fn print_line<W: Write>(out: &mut W, mut line: Line) -> io::Result<()>
    requires { array_vec_len line ≤ 152 }
    ensures { OnOk result (Prints (W.contents out.old) (W.contents out.new) line.items) }
{
    line.push(b'\n');
    out.write_all(&line)
}

// `Ok` where all was written; after an `Err` some of it may be.
pub fn print<W: Write, A: Answer>(out: &mut W, answer: A) -> io::Result<()>
    ensures { OnOk result (Prints (W.contents out.old) (W.contents out.new) (A.line_of answer)) }
{
    print_line(out, line_of(answer))
}

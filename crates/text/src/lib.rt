#![tactic(auto)]
// Text and numbers in decimal, put at the end of a line.
ghost use Rattle.std.specs.Prelude.{◌≡◌, ◌++◌, ◌+◌, ◌≤◌, ◌<◌, length};
ghost use Rattle.verdict.specs.Line.{decimal};
ghost use Rattle.arrayvec.specs.ArrayVec.{array_vec_len};

use arrayvec::ArrayVec;

// A line of text, as far as it is put.
pub type Line = ArrayVec<u8, 160>;

// A digit in ASCII.
fn digit(n: usize) -> u8
    requires { n < 10 }
    ensures { result ≡ 48 + n }
{
    b'0' + n as u8
}

// A text.
pub fn put_text(text: &[u8], out: &mut Line)
    requires { array_vec_len out.old + length text.now ≤ 160 }
    ensures { out.new.items ≡ out.old.items ++ text.now }
{
    out.try_extend_from_slice(text).unwrap();
}

// A number in decimal: its last digit goes behind the digits of its tenth. No `write!`: std says nothing of the bytes that a number is written as.
pub fn put_number(n: usize, out: &mut Line)
    requires { array_vec_len out.old + length (decimal n) ≤ 160 }
    ensures { out.new.items ≡ out.old.items ++ decimal n }
{
    if n < 10 {
        out.push(digit(n));
    } else {
        put_number(n / 10, out);
        out.push(digit(n % 10));
    }
}

// A label and a number, which has at most 20 digits.
pub fn put_value(label: &[u8], n: usize, out: &mut Line)
    requires { array_vec_len out.old + length label.now + 20 ≤ 160 }
    ensures put { out.new.items ≡ out.old.items ++ (label.now ++ decimal n) }
    ensures upper_bound { array_vec_len out.new ≤ array_vec_len out.old + length label.now + 20 }
{
    put_text(label, out);
    put_number(n, out);
}

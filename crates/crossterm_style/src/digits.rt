//! Numbers in decimal digits.
//!
//! Only crates of this tree use this module, which may change with each version.
ghost use Rattle.std.specs.Prelude.{◌≡◌, ◌+◌, ◌≤◌, ◌++◌, length};
ghost use Rattle.std.specs.Fmt.{decimal};
ghost use Rattle.arrayvec.specs.ArrayString.{array_string_len};

use arrayvec::ArrayString;

/// Pushes the decimal digits of a byte, of which there are three at most.
#[inline(always)]
pub fn push_digits<const N: usize>(text: &mut ArrayString<N>, number: u8)
    requires { array_string_len text.old + 3 ≤ N }
    ensures pushed { text.new.bytes ≡ text.old.bytes ++ decimal number }
    ensures short { length (decimal number) ≤ 3 }
{
    let last = (b'0' + number % 10) as char;
    if number < 10 {
        text.push(last);
        return;
    }
    let second = (b'0' + number / 10 % 10) as char;
    if number >= 100 {
        text.push((b'0' + number / 100) as char);
    }
    text.push(second);
    text.push(last);
}

//! Hexadecimal text of numbers of any width.

ghost use Rattle.std.specs.Fmt.{WritesOnOk};
ghost use Rattle.triple_arena_ptr.specs.PointerText.{hex};

use std::fmt;

/// Writes a number in lower-case hexadecimal.
#[tactic(auto, using(crate::proofs::HexDigits::hex_step))]
pub(crate) fn fmt_hex_wide<W: fmt::Write>(n: u128, f: &mut fmt::Formatter<W>) -> fmt::Result
    ensures { WritesOnOk W.write_str_gives f.old result (hex n) f.new }
{
    if n <= u64::MAX as u128 {
        let low = n as u64;
        return write!(f, "{low:x}");
    }
    fmt_hex_wide(n / 16, f)?;
    let digit = (n % 16) as u8;
    write!(f, "{digit:x}")
}

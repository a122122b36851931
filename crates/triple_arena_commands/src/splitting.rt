//! The first line of a text, and the first word of a line.

ghost use Rattle.std.specs.Prelude.{◌≡◌, ◌+◌, ◌∷◌, length};
ghost use Rattle.std.specs.Option.{option_copied};
ghost use Rattle.triple_arena_commands.specs.Lines.{parts_of, parts_after, length_after};

use memchr::memchr;

/// The part before the first byte `at`, and what follows that byte, where there is one.
#[inline(always)]
pub fn split_first(bytes: &[u8], at: u8) -> (&[u8], Option<&[u8]>)
    ensures parts { parts_of at bytes.now ≡ result.0.now ∷ parts_after at (option_copied result.1) }
    ensures length { length result.0.now + length_after (option_copied result.1) ≡ length bytes.now }
{
    match memchr(at, bytes) {
        Some(index) => (&bytes[..index], Some(&bytes[index + 1..])),
        None => (bytes, None),
    }
}

//! Where a line or a field ends.

ghost use Rattle.std.specs.Prelude.{◌≡◌, ◌<◌, [], ◌∷◌, length, IfSome, IfNone, MatchOption};
ghost use Rattle.hv_bytes.specs.Fields.{HasNoSpace, cut_fields};
ghost use Rattle.hv_bytes.specs.Working.Fields.{IsFirstSpace};
ghost use Rattle.hv_bytes.specs.LineCuts.{IsClean};
ghost use Rattle.hv_bytes.specs.Working.LineCuts.{IsFirstLf};
ghost use Rattle.memchr.specs.Find.{IsFirstByte, is_byte};

use memchr::{memchr, memchr_iter};

/// The place of the first LF.
pub(crate) fn find_lf(bytes: &[u8]) -> Option<usize>
    ensures none { IfNone result (IsClean bytes.now) }
    ensures some { IfSome result (IsFirstLf bytes.now) }
{
    find_near(b'\n', bytes)
}

/// The first place of the byte, which is likely to be near: the next 32 bytes are looked at first.
#[inline(always)]
fn find_near(byte: u8, bytes: &[u8]) -> Option<usize>
    ensures { IsFirstByte (is_byte byte) bytes.now result }
{
    memchr_iter(byte, bytes).next()
}

/// The place of the first space.
fn find_space(bytes: &[u8]) -> Option<usize>
    ensures none { IfNone result (HasNoSpace bytes.now) }
    ensures some { IfSome result (IsFirstSpace bytes.now) }
{
    memchr(b' ', bytes)
}

/// The first field of a line, which ends before the first space, and what comes after that space:
/// nothing where the field is the last one.
pub fn split_field(line: &[u8]) -> (&[u8], Option<&[u8]>)
    ensures fields { MatchOption result.1
        (cut_fields line.now ≡ result.0.now ∷ [])
        (λ rest. cut_fields line.now ≡ result.0.now ∷ cut_fields rest.now) }
    ensures clean { HasNoSpace result.0.now }
    ensures shorter { IfSome result.1 (λ rest. length rest.now < length line.now) }
{
    match find_space(line) {
        Some(at) => (&line[..at], Some(&line[at + 1..])),
        None => (line, None),
    }
}

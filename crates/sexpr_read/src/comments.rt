//! Where the space and the comment lines between forms end.

ghost use Rattle.std.specs.Prelude.{◌≡◌, ◌≢◌, ◌<◌, ◌≤◌, false, length, slice_index_or};
ghost use Rattle.sexpr_read.specs.declared.bytes.ByteClass.TheVariants.{Space};
ghost use Rattle.sexpr_read.specs.ByteClasses.{sign_of};
ghost use Rattle.sexpr_read.specs.Comments.{fresh, line_at, shown, signs};
ghost use Rattle.sexpr_read.specs.Spelling.{IsSpaceBetween};
ghost use Rattle.sexpr_read.specs.ReaderProgress.{line_of, IsInLine, IsPlain, IsSettled};

use crate::bytes::byte_at;
use crate::runs::gap_end;

/// Where the comment at `at` ends, its line feed with it.
fn comment_end(text: &[u8], at: usize) -> usize
    requires within { at < length text.now }
    requires line { line_at text.now at ≡ fresh }
    requires sign { slice_index_or text.now at 0x20 ≡ 0x23 }
    ensures gap { IsSpaceBetween (shown text.now) at result }
    ensures within { result ≤ length text.now }
    ensures further { at < result }
    ensures line { result < length text.now → line_at text.now result ≡ fresh }
{
    let mut end = at + 1;
    while end < text.len() {
        if byte_at(text, end) == b'\n' {
            return end + 1;
        }
        end += 1;
    }
    end
}

/// Where the space and the comment lines from `at` on end. `blank` says that nothing but space and tab stands in the
/// line before `at`.
#[inline(never)]
fn comments_end(text: &[u8], at: usize, blank: bool) -> usize
    requires within { at ≤ length text.now }
    requires line { at < length text.now → line_at text.now at ≡ line_of blank }
    ensures gap { IsSpaceBetween (shown text.now) at result }
    ensures within { result ≤ length text.now }
    ensures plain { result < length text.now → IsPlain text.now result }
    ensures stops { result < length text.now → sign_of text.now result ≢ Space }
{
    let mut blank = blank;
    let mut end = at;
    'gap: while end < text.len() {
        let byte = byte_at(text, end);
        if byte == b'\n' {
            blank = true;
            end += 1;
            continue;
        }
        if byte == b' ' || byte == b'\t' {
            end += 1;
            continue;
        }
        if byte == b'\r' {
            blank = false;
            end += 1;
            continue;
        }
        if byte != b'#' || !blank {
            return end;
        }
        end = comment_end(text, end);
    }
    end
}

/// Where the space at `at` ends, and among forms the comment lines behind it. Something stands in the line before it.
#[inline(always)]
pub(crate) fn skip_space(text: &[u8], at: usize, one: bool) -> usize
    requires within { at < length text.now }
    requires space { sign_of text.now at ≡ Space }
    requires line { IsInLine one text.now at false }
    ensures gap { IsSpaceBetween (signs one text.now) at result }
    ensures within { result ≤ length text.now }
    ensures settled { IsSettled one text.now result }
    ensures stops { result < length text.now → sign_of text.now result ≢ Space }
{
    if one {
        gap_end(text, at + 1)
    } else {
        comments_end(text, at, false)
    }
}

/// Where the space from `at` on ends, and among forms the comment lines.
#[inline(always)]
pub(crate) fn skip(text: &[u8], at: usize, one: bool, blank: bool) -> usize
    requires within { at ≤ length text.now }
    requires line { IsInLine one text.now at blank }
    ensures gap { IsSpaceBetween (signs one text.now) at result }
    ensures within { result ≤ length text.now }
    ensures settled { IsSettled one text.now result }
    ensures stops { result < length text.now → sign_of text.now result ≢ Space }
{
    if one {
        gap_end(text, at)
    } else {
        comments_end(text, at, blank)
    }
}

//! Which names a pattern with `*` and `?` matches.

ghost use Rattle.std.specs.Prelude.{◌≡◌, ◌↔◌, ◌<◌, ◌≤◌, IsTrue, IfSome, MatchOption, None, Some, false, length, slice_index};
ghost use Rattle.net_class.specs.Wild.{Matches, matches, sign_of, is_same, continues, next_character};
ghost use Rattle.net_class.specs.PatternRuns.{behind, run_of, matches_an_end};

/// What is left of a pattern, which is nothing or begins with `*`, and of a name.
#[derive(Clone, Copy, Drop)]
struct Rests<'p, 'n> {
    pattern: &'p [u8],
    name: &'n [u8],
}

/// Whether the byte is not the first of its character.
fn continues(byte: u8) -> bool
    ensures { result ≡ continues byte }
{
    128 <= byte && byte < 192
}

/// What stands behind the bytes that continue a character.
fn next_character(text: &[u8]) -> &[u8]
    ensures { result.now ≡ next_character text.now }
{
    for (i, byte) in text.iter().enumerate() {
        if !continues(*byte) {
            return &text[i..];
        }
    }
    &text[text.len()..]
}

/// Whether two bytes are the same; with `fold`, also the same letter of ASCII in two cases.
fn is_same(fold: bool, a: u8, b: u8) -> bool
    ensures { result ≡ is_same fold a b }
{
    if fold {
        a.eq_ignore_ascii_case(&b)
    } else {
        a == b
    }
}

/// What is left of the name behind what a sign other than `*` stands for.
fn behind(sign: u8, name: &[u8], fold: bool) -> Option<&[u8]>
    requires { sign ≡ 42 → ⊥ }
    ensures { MatchOption result (behind fold (sign_of sign) name.now ≡ None)
        (λ rest. behind fold (sign_of sign) name.now ≡ Some rest.now) }
{
    if name.is_empty() {
        return None;
    }
    let rest = &name[1..];
    if sign == b'?' {
        Some(next_character(rest))
    } else if is_same(fold, sign, name[0]) {
        Some(rest)
    } else {
        None
    }
}

/// Matches the pattern up to its next `*`, or to its end.
fn run<'p, 'n>(pattern: &'p [u8], name: &'n [u8], fold: bool) -> Option<Rests<'p, 'n>>
    ensures run { MatchOption result (run_of fold pattern.now name.now ≡ None)
        (λ r. run_of fold pattern.now name.now
        ≡ Some (record { pattern = r.pattern.now; text = r.name.now })) }
    ensures begins { IfSome result
        (λ r. 0 < length r.pattern.now → slice_index r.pattern.now 0 ≡ 42) }
    ensures end { IfSome result (λ r. length r.pattern.now ≤ length pattern.now) }
{
    let mut rest = name;
    for (i, sign) in pattern.iter().enumerate() {
        if *sign == b'*' {
            return Some(Rests {
                pattern: &pattern[i..],
                name: rest,
            });
        }
        rest = behind(*sign, rest, fold)?;
    }
    Some(Rests {
        pattern: &pattern[pattern.len()..],
        name: rest,
    })
}

/// Matches the pattern up to its next `*`, or to the end of both.
fn whole_run<'p, 'n>(pattern: &'p [u8], name: &'n [u8], fold: bool) -> Option<Rests<'p, 'n>>
    ensures found { MatchOption result (matches fold pattern.now name.now ≡ false)
        (λ r. matches_an_end fold pattern.now name.now ≡ matches fold r.pattern.now r.name.now) }
    ensures begins { IfSome result
        (λ r. 0 < length r.pattern.now → slice_index r.pattern.now 0 ≡ 42) }
    ensures end { IfSome result (λ r. length r.pattern.now ≤ length pattern.now) }
{
    let rests = run(pattern, name, fold)?;
    if !rests.pattern.is_empty() {
        return Some(rests);
    }
    if rests.name.is_empty() {
        return Some(rests);
    }
    None
}

/// Matches what stands behind a `*` from the first place on from which it goes so.
fn search<'p, 'n>(pattern: &'p [u8], name: &'n [u8], fold: bool) -> Option<Rests<'p, 'n>>
    ensures found { MatchOption result (matches_an_end fold pattern.now name.now ≡ false)
        (λ r. matches_an_end fold pattern.now name.now ≡ matches fold r.pattern.now r.name.now) }
    ensures begins { IfSome result
        (λ r. 0 < length r.pattern.now → slice_index r.pattern.now 0 ≡ 42) }
    ensures end { IfSome result (λ r. length r.pattern.now ≤ length pattern.now) }
{
    let mut rest = name;
    'places: loop {
        if let Some(rests) = whole_run(pattern, rest, fold) {
            return Some(rests);
        }
        if rest.is_empty() {
            return None;
        }
        rest = &rest[1..];
    }
}

/// Whether the pattern matches the whole name, from `*` to `*`.
fn is_match(pattern: &[u8], name: &[u8], fold: bool) -> bool
    ensures { result ≡ matches fold pattern.now name.now }
{
    let Some(mut rests) = run(pattern, name, fold) else {
        return false;
    };
    'stars: while !rests.pattern.is_empty() {
        match search(&rests.pattern[1..], rests.name, fold) {
            Some(next) => rests = next,
            None => return false,
        }
    }
    let whole = rests.name.is_empty();
    whole
}

/// Whether the pattern matches the whole name. `*` stands for any characters, also for none, `?` for one character, and
/// any other byte for itself; with `fold`, for its letter of ASCII in either case. Both are in UTF-8. It takes no memory,
/// and no more time than the pattern's length times the name's.
pub fn wild(pattern: &[u8], name: &[u8], fold: bool) -> bool
    ensures means { IsTrue result ↔ Matches fold pattern.now name.now }
    ensures computed { result ≡ matches fold pattern.now name.now }
{
    is_match(pattern, name, fold)
}

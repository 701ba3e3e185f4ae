//! Splitting bytes.
ghost use Rattle.std.specs.Prelude.{◌≡◌, ◌∷◌, ◌<◌, [], ℕ, List, length, position, All, false, None, Some, IfNone, MatchOption};
ghost use Rattle.std.specs.List.{slice_split};
ghost use Rattle.std.specs.Option.{option_copied};
ghost use Rattle.prop_text.specs.Acls.{is_comma, is_space};
ghost use Rattle.prop_text.specs.Names.{before, behind};
ghost use Rattle.prop_text.specs.Properties.{cut_at_equals, is_equals, is_lf, lines_of, without_cr};

/// Returns the bytes after a prefix, or `None` if they do not begin with it.
pub fn behind<'a>(front: &[u8], bytes: &'a [u8]) -> Option<&'a [u8]>
    ensures { option_copied result ≡ behind front.now bytes.now }
{
    bytes.strip_prefix(front)
}

/// Returns the bytes before a suffix, or `None` if they do not end with it.
pub fn before<'a>(end: &[u8], bytes: &'a [u8]) -> Option<&'a [u8]>
    ensures { option_copied result ≡ before end.now bytes.now }
{
    bytes.strip_suffix(end)
}

fn comma_in(bytes: &[u8]) -> Option<usize>
    ensures first { result ≡ position is_comma bytes.now }
    ensures none { IfNone result (All (λ b. is_comma b ≡ false) bytes.now) }
{
    bytes.iter().position(|byte| *byte == b',')
}

fn space_in(bytes: &[u8]) -> Option<usize>
    ensures first { result ≡ position is_space bytes.now }
    ensures none { IfNone result (All (λ b. is_space b ≡ false) bytes.now) }
{
    bytes.iter().position(|byte| *byte == b' ')
}

fn line_feed_in(bytes: &[u8]) -> Option<usize>
    ensures first { result ≡ position is_lf bytes.now }
    ensures none { IfNone result (All (λ b. is_lf b ≡ false) bytes.now) }
{
    bytes.iter().position(|byte| *byte == b'\n')
}

fn equals_in(bytes: &[u8]) -> Option<usize>
    ensures { result ≡ position is_equals bytes.now }
{
    bytes.iter().position(|byte| *byte == b'=')
}

/// Splits a list at its first comma: the first part, and the rest if there is a comma.
pub fn cut_at_comma(bytes: &[u8]) -> (&[u8], Option<&[u8]>)
    ensures cut { MatchOption result.1 (slice_split is_comma bytes.now ≡ result.0.now ∷ [])
        (λ rest. slice_split is_comma bytes.now ≡ result.0.now ∷ slice_split is_comma rest.now) }
    ensures shorter { MatchOption result.1 (result.0.now ≡ bytes.now)
        (λ rest. length rest.now < length bytes.now) }
{
    match comma_in(bytes) {
        None => (bytes, None),
        Some(place) => (&bytes[..place], Some(&bytes[place + 1..])),
    }
}

/// Splits bytes at the first space: the part before it, and the rest if there is a space.
pub fn cut_at_space(bytes: &[u8]) -> (&[u8], Option<&[u8]>)
    ensures { MatchOption result.1 (slice_split is_space bytes.now ≡ result.0.now ∷ [])
        (λ rest. slice_split is_space bytes.now ≡ result.0.now ∷ slice_split is_space rest.now) }
{
    match space_in(bytes) {
        None => (bytes, None),
        Some(place) => (&bytes[..place], Some(&bytes[place + 1..])),
    }
}

/// Returns the bytes, or `None` if they contain a space.
pub fn without_space(bytes: &[u8]) -> Option<&[u8]>
    ensures { MatchOption result ((part : List ℕ) → ¬ (slice_split is_space bytes.now ≡ part ∷ []))
        (λ part. slice_split is_space bytes.now ≡ part.now ∷ []) }
{
    let (part, rest) = cut_at_space(bytes);
    match rest {
        Some(_) => None,
        None => Some(part),
    }
}

/// Splits a line at its first `=` into name and value, or returns `None` if there is none.
pub fn cut_at_equals(line: &[u8]) -> Option<(&[u8], &[u8])>
    ensures { MatchOption result (cut_at_equals line.now ≡ None)
        (λ parts. cut_at_equals line.now ≡ Some (parts.0.now, parts.1.now)) }
{
    match equals_in(line) {
        None => None,
        Some(place) => Some((&line[..place], &line[place + 1..])),
    }
}

fn without_cr(line: &[u8]) -> &[u8]
    ensures { result.now ≡ without_cr line.now }
{
    match before(b"\r", line) {
        None => line,
        Some(rest) => rest,
    }
}

/// Splits a text at its first LF: the line, and the rest if there is an LF.
pub fn cut_line(text: &[u8]) -> (&[u8], Option<&[u8]>)
    ensures cut { MatchOption result.1 (lines_of text.now ≡ result.0.now ∷ [])
        (λ rest. lines_of text.now ≡ result.0.now ∷ lines_of rest.now) }
    ensures shorter { MatchOption result.1 (result.0.now ≡ text.now)
        (λ rest. length rest.now < length text.now) }
{
    match line_feed_in(text) {
        None => (text, None),
        Some(place) => (without_cr(&text[..place]), Some(&text[place + 1..])),
    }
}

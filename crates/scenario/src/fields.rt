//! The fields of a line.
ghost use Rattle.std.specs.Prelude.{◌≡◌, ◌∷◌, [], ◌==◌, ◌≢◌, length, ℕ, MatchOption, IsTrue};
ghost use Rattle.std.specs.List.{list_any, position_or_len};
ghost use Rattle.text_io.specs.Text.{tab, is_blank};
ghost use Rattle.scenario.specs.Fields.{without_return, without_leading, without_trailing};
ghost use Rattle.scenario.specs.Fields.{trimmed, content_of, separator_of};
ghost use Rattle.scenario.specs.Fields.{fields_between, fields_in_content};
ghost use Rattle.scenario.specs.ScenFault.{all_fields};
ghost use Rattle.scenario.specs.Code.Parsing.{fields_seen};

/// The bytes of a line's nine fields.
#[derive(Clone, Copy)]
pub(crate) struct FieldBytes<'a> {
    pub(crate) bucket: &'a [u8],
    pub(crate) name: &'a [u8],
    pub(crate) width: &'a [u8],
    pub(crate) height: &'a [u8],
    pub(crate) start_x: &'a [u8],
    pub(crate) start_y: &'a [u8],
    pub(crate) goal_x: &'a [u8],
    pub(crate) goal_y: &'a [u8],
    pub(crate) listed: &'a [u8],
}

/// What is left of a line without the CR at its end, and then without the blanks at both ends.
pub(crate) fn content_of(line: &[u8]) -> &[u8]
    ensures { result.now ≡ content_of line.now }
{
    trim_end(trim_start(without_return(line)))
}

fn without_return(line: &[u8]) -> &[u8]
    ensures { result.now ≡ without_return line.now }
{
    if let [front @ .., last] = line {
        if *last == b'\r' {
            return front;
        }
    }
    line
}

/// A space or a tab.
fn is_blank(b: u8) -> bool
    ensures { result ≡ is_blank b }
{
    b == b' ' || b == b'\t'
}

/// The bytes without the blanks at their front.
pub(crate) fn trim_start(bytes: &[u8]) -> &[u8]
    ensures { result.now ≡ without_leading bytes.now }
{
    let mut rest = bytes;
    while let [first, others @ ..] = rest {
        if !is_blank(*first) {
            return rest;
        }
        rest = others;
    }
    rest
}

fn trim_end(bytes: &[u8]) -> &[u8]
    ensures { result.now ≡ without_trailing bytes.now }
{
    let mut rest = bytes;
    while let [others @ .., last] = rest {
        if !is_blank(*last) {
            return rest;
        }
        rest = others;
    }
    rest
}

/// The nine fields of a line's content, if it has so many and no more.
pub(crate) fn nine_fields(content: &[u8]) -> Option<FieldBytes<'_>>
    ensures { MatchOption result (length (fields_in_content content.now) ≢ 9)
        (λ f. fields_in_content content.now ≡ all_fields (fields_seen f)) }
{
    let separator = separator_of(content);
    let (bucket, rest) = first_field(content, separator)?;
    let (name, rest) = first_field(rest, separator)?;
    let (width, rest) = first_field(rest, separator)?;
    let (height, rest) = first_field(rest, separator)?;
    let (start_x, rest) = first_field(rest, separator)?;
    let (start_y, rest) = first_field(rest, separator)?;
    let (goal_x, rest) = first_field(rest, separator)?;
    let (goal_y, rest) = first_field(rest, separator)?;
    let (listed, rest) = first_field(rest, separator)?;
    if first_field(rest, separator).is_some() {
        return None;
    }
    Some(FieldBytes {
        bucket,
        name,
        width,
        height,
        start_x,
        start_y,
        goal_x,
        goal_y,
        listed,
    })
}

/// A tab where the content holds one, and else a space.
fn separator_of(content: &[u8]) -> u8
    ensures separator { result ≡ separator_of content.now }
    ensures blank { IsTrue (is_blank result) }
{
    if has_tab(content) { b'\t' } else { b' ' }
}

fn has_tab(content: &[u8]) -> bool
    ensures { result ≡ list_any (λ b. b == tab) content.now }
{
    content.iter().any(|b| *b == b'\t')
}

/// The next field, and what follows it.
pub(crate) fn first_field(bytes: &[u8], separator: u8) -> Option<(&[u8], &[u8])>
    requires { IsTrue (is_blank separator) }
    ensures { MatchOption result (fields_between separator bytes.now ≡ [])
        (λ p. fields_between separator bytes.now ≡ p.0.now ∷ fields_between separator p.1.now) }
{
    let rest = trim_start(bytes);
    if rest.is_empty() {
        return None;
    }
    let end = separator_at(rest, separator);
    Some((trim_end(&rest[..end]), &rest[end..]))
}

/// Where the first separator stands, or the number of bytes where there is none.
fn separator_at(bytes: &[u8], separator: u8) -> usize
    ensures { result ≡ position_or_len (λ b. b == separator) bytes.now }
{
    for (i, &b) in bytes.iter().enumerate() {
        if b == separator {
            return i;
        }
    }
    bytes.len()
}

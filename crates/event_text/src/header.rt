//! The header of a text of events.
ghost use Rattle.std.specs.Prelude.{◌≡◌, MatchOption};
ghost use Rattle.event_text.specs.EventText.{event_header, IsHeader, TakesHeader};

use model::Version;

/// Which headers a reader of events takes: that of version 1 alone, or either.
#[derive(Clone, Copy)]
pub(crate) enum Headers {
    VersionOne,
    Either,
}

/// The version of a line, if it is a header that is taken.
pub(crate) fn version_of(headers: Headers, line: &[u8]) -> Option<Version>
    ensures { MatchOption result (IsHeader headers line.now → ⊥)
        (λ version. TakesHeader headers version × (line.now ≡ event_header version)) }
{
    if line == b"mapf-events 1".as_slice() {
        return Some(Version::One);
    }
    match headers {
        Headers::Either if line == b"mapf-events 2".as_slice() => Some(Version::Two),
        _ => None,
    }
}

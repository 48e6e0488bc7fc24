//! The version line of a scenario.
ghost use Rattle.std.specs.Prelude.{◌≡◌};
ghost use Rattle.scenario.specs.Code.Parsing.{is_version};

use crate::fields::trim_start;

/// `version`, one blank or more, and `1` or `1.0`.
pub(crate) fn is_version(content: &[u8]) -> bool
    ensures { result ≡ is_version content.now }
{
    let Some(rest) = content.strip_prefix(b"version") else {
        return false;
    };
    let number = trim_start(rest);
    number.len() < rest.len() && matches!(number, b"1" | b"1.0")
}

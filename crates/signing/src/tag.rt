//! Whether two tags are the same.
ghost use Rattle.std.specs.Prelude.{◌≡◌, ◌↔◌, IsTrue, length};

/// Whether the tag is the one that is due. It takes as long wherever they differ, so that nobody
/// learns a tag byte by byte.
pub(crate) fn is_same_tag(tag: &[u8], due: &[u8; 32]) -> bool
    requires { length tag.now ≡ 32 }
    ensures { IsTrue result ↔ tag.now ≡ due.now }
{
    let mut differ = false;
    for i in 0..due.len() {
        differ |= tag[i] != due[i];
    }
    !differ
}

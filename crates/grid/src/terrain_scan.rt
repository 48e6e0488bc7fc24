//! The terrain characters at the front of a text.
ghost use Rattle.std.specs.Prelude.{◌≡◌};
ghost use Rattle.std.specs.List.{prefix_len, list_all};
ghost use Rattle.grid.specs.Terrain.{is_terrain};

/// How many bytes at the front are terrain characters.
pub(crate) fn terrain_run(bytes: &[u8]) -> usize
    ensures { result ≡ prefix_len is_terrain bytes.now }
{
    // Each slice of a right row is terrain alone, so only those of a faulty row are read twice.
    if is_all_terrain(bytes) {
        return bytes.len();
    }
    for (i, &b) in bytes.iter().enumerate() {
        if !is_terrain(b) {
            return i;
        }
    }
    bytes.len()
}

/// Whether each byte is a terrain character. The loop has no early exit, so that the compiler tests
/// many bytes at once.
fn is_all_terrain(bytes: &[u8]) -> bool
    ensures { result ≡ list_all is_terrain bytes.now }
{
    let mut all = true;
    for &b in bytes {
        all &= is_terrain(b);
    }
    all
}

fn is_terrain(b: u8) -> bool
    ensures { result ≡ is_terrain b }
{
    matches!(b, b'.' | b'G' | b'@' | b'O' | b'T' | b'S' | b'W')
}

//! HMAC-SHA-256 (RFC 2104).
ghost use Rattle.std.specs.Prelude.{◌≡◌, ◌++◌, ◌≤◌, length};
ghost use Rattle.sha2.specs.Sha256.{sha256};
ghost use Rattle.signing.specs.Hmac.{block_of, hmac, masked, padded};

use sha2::{Digest, Sha256};

/// How many bytes a block of the hash has.
const BLOCK: usize = 64;

/// What the key is masked with inside and outside.
const INSIDE: u8 = 0x36;

const OUTSIDE: u8 = 0x5c;

/// The tag of a text by a key.
pub fn tag_of(key: &[u8], text: &[u8]) -> [u8; 32]
    ensures { result ≡ hmac key.now text.now }
{
    let block = block_of(key);
    let inner = digest_of(&masked(&block, INSIDE), text);
    digest_of(&masked(&block, OUTSIDE), &inner)
}

/// The digest of two pieces as one text.
fn digest_of(front: &[u8; BLOCK], rest: &[u8]) -> [u8; 32]
    ensures { result ≡ sha256 (front.now ++ rest.now) }
{
    let mut hasher = Sha256::new();
    hasher.update(front.as_slice());
    hasher.update(rest);
    hasher.finalize()
}

/// The key as a block.
fn block_of(key: &[u8]) -> [u8; BLOCK]
    ensures { result ≡ block_of key.now }
{
    if key.len() > BLOCK {
        padded(&Sha256::digest(key))
    } else {
        padded(key)
    }
}

/// The bytes with zeros behind them.
fn padded(bytes: &[u8]) -> [u8; BLOCK]
    requires { length bytes.now ≤ 64 }
    ensures { result ≡ padded bytes.now }
{
    let mut block = [0; BLOCK];
    block[..bytes.len()].copy_from_slice(bytes);
    block
}

/// Each byte with the mask, bit by bit.
fn masked(block: &[u8; BLOCK], mask: u8) -> [u8; BLOCK]
    ensures { result ≡ masked mask block.now }
{
    let mut out = [0; BLOCK];
    for i in 0..BLOCK {
        out[i] = block[i] ^ mask;
    }
    out
}

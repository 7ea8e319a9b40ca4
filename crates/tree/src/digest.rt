ghost use Rattle.std.specs.Prelude.{◌≡◌, length};

/// A node of the sealed maker: a SHA-256 digest.
#[derive(Clone, Copy, PartialEq, Eq)]
pub struct Digest {
    pub bytes: [u8; 32],
    ghost full: { length bytes ≡ 32 },
}

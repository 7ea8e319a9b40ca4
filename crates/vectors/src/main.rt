//! Runs published examples of SHA-256 through `hashing::digest`.

#![tactic(auto)]

ghost use Rattle.std.specs.Prelude.{◌≡◌, Decides};
ghost use Rattle.hex.specs.Hex.{encode_lower};
ghost use Rattle.hashing.specs.Sha256.{sha256};

use hashing::digest;
use hex::encode_to_slice;
use std::io;

/// A message that fills one block.
const ONE_BLOCK: [u8; 64] = [
    0x5a, 0x86, 0xb7, 0x37, 0xea, 0xea, 0x8e, 0xe9, 0x76, 0xa0, 0xa2, 0x4d, 0xa6, 0x3e, 0x7e, 0xd7,
    0xee, 0xfa, 0xd1, 0x8a, 0x10, 0x1c, 0x12, 0x11, 0xe2, 0xb3, 0x65, 0x0c, 0x51, 0x87, 0xc2, 0xa8,
    0xa6, 0x50, 0x54, 0x72, 0x08, 0x25, 0x1f, 0x6d, 0x42, 0x37, 0xe6, 0x61, 0xc7, 0xbf, 0x4c, 0x77,
    0xf3, 0x35, 0x39, 0x03, 0x94, 0xc3, 0x7f, 0xa1, 0xa9, 0xf9, 0xbe, 0x83, 0x6a, 0xc2, 0x85, 0x09,
];

/// Whether `expected` is the digest of `message` in hexadecimal.
fn has_digest(message: &[u8], expected: &str) -> bool
    ensures { Decides result (encode_lower (sha256 message.now) ≡ expected.now) }
{
    let mut text = [0; 64];
    encode_to_slice(digest(message), &mut text).unwrap();
    text.as_slice() == expected.as_bytes()
}

fn report(rt: &HostRuntime, name: &str, message: &[u8], expected: &str) -> io::Result<()> {
    let verdict = if has_digest(message, expected) {
        "equal"
    } else {
        "differs"
    };
    println!(rt; "{name}: {verdict}")
}

fn main(rt: HostRuntime) -> io::Result<()> {
    report(
        &rt,
        "empty",
        b"",
        "e3b0c44298fc1c149afbf4c8996fb92427ae41e4649b934ca495991b7852b855",
    )?;
    report(
        &rt,
        "abc",
        b"abc",
        "ba7816bf8f01cfea414140de5dae2223b00361a396177a9cb410ff61f20015ad",
    )?;
    report(
        &rt,
        "448 bits",
        b"abcdbcdecdefdefgefghfghighijhijkijkljklmklmnlmnomnopnopq",
        "248d6a61d20638b8e5c026930c3e6039a33ce45964ff2167f6ecedd419db06c1",
    )?;
    report(
        &rt,
        "512 bits",
        &ONE_BLOCK,
        "42e61e174fbb3897d6dd6cef3dd2802fe67b331953b06114a65c772859dfc1aa",
    )?;
    report(
        &rt,
        "896 bits",
        b"abcdefghbcdefghicdefghijdefghijkefghijklfghijklmghijklmnhijklmnoijklmnopjklmnopqklmnopqrlmnopqrsmnopqrstnopqrstu",
        "cf5b16a778af8380036ce59e7b0492370b249b11e8f07a51afac45037afee9d1",
    )?;
    let million = vec![in rt.alloc(); b'a'; 1_000_000]?;
    report(
        &rt,
        "one million a",
        &million,
        "cdc76e5c9914fb9281a1c7e284d73e67f1809a48a497200e046d39ccc7112cd0",
    )
}

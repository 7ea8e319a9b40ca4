ghost use Rattle.std.specs.Prelude.{◌≡◌, IfOk, string_bytes};
ghost use Rattle.hex.specs.Hex.{encode_lower};
ghost use Rattle.text.specs.declared.bytes.NoBytes.TheVariants.{NoMemory};
ghost use Rattle.text.specs.Hex.{Decodes};

use hex::encode;
use std::alloc::{AllocError, AllocFailed, Global};
use strip::hex::digit;
use thiserror::Error;
use tree::maker::Maker;

/// The greatest width of a node.
const WIDEST: usize = 32;

/// The bytes of a node in lower-case hex. It takes memory for the text alone.
pub fn node_hex<M: Maker>(heap: Global, maker: &M, node: M::Node) -> Result<String, AllocError>
    ensures { IfOk result (λ s. string_bytes s ≡ encode_lower ((M.meaning maker.now).put node)) }
{
    let mut room = [0; WIDEST];
    let bytes = &mut room[..maker.width()];
    maker.put(node, bytes).unwrap();
    encode(heap, &bytes[..])
}

/// Why a text gives no bytes.
#[derive(Drop, Debug, Error)]
pub enum NoBytes {
    #[error("a line is not lower-case hex, two digits a byte")]
    NotHex,
    #[error("no memory for the bytes of a line")]
    NoMemory,
}

// By hand, since what thiserror writes has no contract, and that of decode names the error.
impl From<AllocFailed<u8>> for NoBytes {
    ghost from_gives = { λ _ r. r ≡ NoMemory };

    fn from(_refused: AllocFailed<u8>) -> NoBytes {
        NoBytes::NoMemory
    }
}

/// The bytes that a text of hex digits stands for, two digits a byte.
pub fn decode(heap: Global, text: &[u8]) -> Result<Vec<u8>, NoBytes>
    ensures { Decodes text.now result }
{
    let (pairs, rest) = text.as_chunks::<2>();
    if !rest.is_empty() {
        return Err(NoBytes::NotHex);
    }
    let mut bytes = Vec::new(heap);
    for [high, low] in pairs {
        let high = digit(*high).ok_or(NoBytes::NotHex)?;
        let low = digit(*low).ok_or(NoBytes::NotHex)?;
        bytes.push(16 * high + low)?;
    }
    Ok(bytes)
}

ghost use Rattle.std.specs.Prelude.{◌≡◌};
ghost use Rattle.strip.specs.Calls.{strip_length};

use tree::maker::Maker;
pub(crate) use tree::source::TOKEN_LENGTH;

/// The count byte of the head.
pub(crate) const HEAD_COUNT: u8 = 6;

/// The count byte of the token.
pub(crate) const TOKEN_COUNT: u8 = TOKEN_LENGTH as u8;

/// Where the byte of the kind stands.
pub(crate) const KIND_PLACE: usize = 1;

/// Where the byte of the height stands.
pub(crate) const HEIGHT_PLACE: usize = 2;

/// Where the four bytes of the number begin.
pub(crate) const NUMBER_PLACE: usize = 3;

/// Where the token's section begins, with its count byte.
pub(crate) const TOKEN_PLACE: usize = 7;

/// Where the path's section begins, with its count byte.
pub(crate) const PATH_PLACE: usize = TOKEN_PLACE + 1 + TOKEN_LENGTH;

/// Where the nodes of the path begin.
pub(crate) const NODES_PLACE: usize = PATH_PLACE + 1;

/// How many bytes a strip of a maker has in a tree of this height. It takes a maker, whose width is at most 32, and no
/// width, of which that would have to be asked.
pub fn strip_length<M: Maker>(maker: &M, height: u32) -> usize
    ensures { result ≡ strip_length (M.meaning maker.now) height }
{
    NODES_PLACE + height as usize * maker.width()
}

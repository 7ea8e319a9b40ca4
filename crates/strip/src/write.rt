ghost use Rattle.std.specs.Prelude.{◌+◌, ◌*◌, ◌≤◌, length};
ghost use Rattle.tree.specs.Path.{path_bytes};
ghost use Rattle.strip.specs.Calls.{Writes};

use crate::layout::{HEAD_COUNT, TOKEN_COUNT, TOKEN_LENGTH, strip_length};
use crate::refusal::Refusal;
use tree::fault::TooShort;
use tree::height::{has_leaf, is_height};
use tree::maker::Maker;

/// Writes the strip of a number: its token is the first 32 bytes of `token`, and its path the first
/// `height` cells of `path`. Answers its length.
pub fn write<M: Maker>(
    maker: &M,
    height: u32,
    number: u32,
    path: &[M::Node],
    token: &[u8],
    out: &mut [u8],
) -> Result<usize, Refusal>
    ensures { Writes (M.meaning maker.now) height number path.now token.now out.old out.new result }
{
    if !is_height(height) {
        return Err(Refusal::Height(height));
    }
    if !has_leaf(height, number) {
        return Err(Refusal::Number(number));
    }
    let nodes = height as usize;
    let path = path.get(..nodes).ok_or(TooShort { needed: nodes })?;
    let token = token.get(..TOKEN_LENGTH).ok_or(TooShort {
        needed: TOKEN_LENGTH,
    })?;
    let needed = strip_length(maker, height);
    // a test of the length: the writer takes `out` whole
    if out.len() < needed {
        return Err(TooShort { needed }.into());
    }
    let count = height as u8;
    let mut writer = Writer { out, place: 0 };
    writer.put(&[HEAD_COUNT, maker.kind(), count]);
    writer.put(&number.to_be_bytes());
    writer.put(&[TOKEN_COUNT]);
    writer.put(token);
    writer.put(&[count]);
    writer.put_path(maker, path);
    Ok(needed)
}

/// Puts pieces into `out` one after another; the next goes to `place`. A writer of the library would be no plainer:
/// it would answer an error for want of room at each piece, and there is room for all.
#[derive(Drop)]
struct Writer<'a> {
    out: &'a mut [u8],
    place: usize,
}

impl Writer<'_> {
    ghost use Rattle.strip.specs.Writing.{Puts};

    fn put(&mut self, bytes: &[u8])
        requires { self.old.place + length bytes.now ≤ length self.old.out.now }
        ensures { Puts self.old bytes.now self.new }
    {
        let end = self.place + bytes.len();
        self.out[self.place..end].copy_from_slice(bytes);
        self.place = end;
    }

    fn put_node<M: Maker>(&mut self, maker: &M, node: M::Node)
        requires { self.old.place + (M.meaning maker.now).width ≤ length self.old.out.now }
        ensures { Puts self.old ((M.meaning maker.now).put node) self.new }
    {
        let end = self.place + maker.width();
        maker.put(node, &mut self.out[self.place..end]).unwrap();
        self.place = end;
    }

    fn put_path<M: Maker>(&mut self, maker: &M, path: &[M::Node])
        requires { self.old.place + length path.now * (M.meaning maker.now).width ≤ length self.old.out.now }
        ensures { Puts self.old (path_bytes (M.meaning maker.now) path.now) self.new }
    {
        for node in path {
            self.put_node(maker, *node);
        }
    }
}

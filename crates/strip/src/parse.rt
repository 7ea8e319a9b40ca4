ghost use Rattle.std.specs.Prelude.{◌≡◌, ◌≤◌, length};
ghost use Rattle.strip.specs.Format.{height_in};
ghost use Rattle.strip.specs.Sections.{HeadRead, TokenRead, CountRead, NodesRead, Parsed};

use crate::layout::{
    HEAD_COUNT, HEIGHT_PLACE, KIND_PLACE, NODES_PLACE, NUMBER_PLACE, PATH_PLACE, TOKEN_COUNT,
    TOKEN_LENGTH, TOKEN_PLACE, strip_length,
};
use crate::refusal::{Fault, Section};
use tree::fold::front_node;
use tree::height::{has_leaf, is_height};
use tree::maker::Maker;

/// A strip's parts, as parts of its bytes.
#[derive(Clone, Copy, Debug, PartialEq, Eq)]
pub struct Strip<'a> {
    pub height: u32,
    pub number: u32,
    pub token: &'a [u8],
    pub path: &'a [u8],
}

/// What the head says.
#[derive(Clone, Copy)]
struct HeadPart {
    height: u32,
    number: u32,
}

/// Reads the head.
fn head(kind: u8, bytes: &[u8]) -> Result<HeadPart, Fault>
    ensures { HeadRead kind bytes.now result }
{
    match bytes {
        [count, ..] if *count != HEAD_COUNT => Err(Section::Head.at(0)),
        [_, maker, ..] if *maker != kind => Err(Section::Head.at(KIND_PLACE)),
        [_, _, height, ..] if !is_height(u32::from(*height)) => Err(Section::Head.at(HEIGHT_PLACE)),
        [_, _, height, n3, n2, n1, n0, ..] => {
            let height = u32::from(*height);
            let number = u32::from_be_bytes([*n3, *n2, *n1, *n0]);
            if has_leaf(height, number) {
                Ok(HeadPart { height, number })
            } else {
                Err(Section::Head.at(NUMBER_PLACE))
            }
        }
        _ => Err(Section::Head.at(bytes.len())),
    }
}

/// Takes the token out. Each section stands at a fixed place, so the whole strip is all that its reader needs.
fn token(bytes: &[u8]) -> Result<&[u8], Fault>
    ensures { TokenRead bytes.now result }
{
    match bytes.get(TOKEN_PLACE..) {
        Some([TOKEN_COUNT, rest @ ..]) => rest
            .get(..TOKEN_LENGTH)
            .ok_or(Section::Token.at(bytes.len())),
        Some([_, ..]) => Err(Section::Token.at(TOKEN_PLACE)),
        Some([]) | None => Err(Section::Token.at(bytes.len())),
    }
}

/// Takes out the path, the bytes after a count that is the height.
fn path(bytes: &[u8], height: u32) -> Result<&[u8], Fault>
    requires { height ≡ height_in bytes.now }
    ensures { CountRead bytes.now result }
{
    match bytes.get(PATH_PLACE..) {
        Some([count, nodes @ ..]) if u32::from(*count) == height => Ok(nodes),
        Some([_, ..]) => Err(Section::Path.at(PATH_PLACE)),
        Some([]) | None => Err(Section::Path.at(bytes.len())),
    }
}

/// Checks that the path is `height` nodes and nothing more.
fn only_nodes<M: Maker>(maker: &M, bytes: &[u8], height: u32) -> Result<(), Fault>
    requires { 41 ≤ length bytes.now }
    ensures { NodesRead (M.meaning maker.now) bytes.now height result }
{
    let width = maker.width();
    let path = &bytes[NODES_PLACE..];
    let broken = path
        .chunks_exact(width)
        .take(height as usize)
        .position(|node| front_node(maker, node).is_none());
    if let Some(i) = broken {
        return Err(Section::Path.at(NODES_PLACE + i * width));
    }
    let end = strip_length(maker, height);
    if bytes.len() == end {
        Ok(())
    } else {
        Err(Section::Path.at(end.min(bytes.len())))
    }
}

/// Takes a strip apart, section by section.
pub fn parse<'a, M: Maker>(maker: &M, bytes: &'a [u8]) -> Result<Strip<'a>, Fault>
    ensures { Parsed (M.meaning maker.now) bytes.now result }
{
    let HeadPart { height, number } = head(maker.kind(), bytes)?;
    let token = token(bytes)?;
    let path = path(bytes, height)?;
    only_nodes(maker, bytes, height)?;
    Ok(Strip {
        height,
        number,
        token,
        path,
    })
}

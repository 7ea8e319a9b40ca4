use tree::maker::Maker;
use tree::source::Source;

/// What a caller lends to a call: the table of nodes, the maker and the source of tokens. The fields are lent on
/// one by one, so they are public, and each call says that it leaves the same loans (`SameLoans`). There are
/// three lifetimes: with one for the three, no caller that builds it is covered by the check. It has no `Model`,
/// whose value cannot name the nodes of a maker.
#[derive(Drop)]
pub struct Lent<'t, 'm, 's, M: Maker, S: Source> {
    pub table: &'t mut [M::Node],
    pub maker: &'m mut M,
    pub source: &'s mut S,
}

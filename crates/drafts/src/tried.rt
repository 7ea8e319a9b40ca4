use tree::digest::Digest;
use tree::dummy::Dummy;
use tree::kind::Kind;
use tree::maker::Maker;
use tree::sealed::Sealed;
use tree::span::Span;

/// What the drafts here need of a maker beside its calls.
pub trait Tried: Maker + Default + Drop {
    const KIND: Kind;

    /// What the cells of a table hold before a draft.
    const FILLER: Self::Node;
}

impl Tried for Dummy {
    const KIND: Kind = Kind::Dummy;

    const FILLER: Span = Span::Broken;
}

impl Tried for Sealed {
    const KIND: Kind = Kind::Sealed;

    const FILLER: Digest = Digest { bytes: [0xaa; 32] };
}

ghost use Rattle.std.specs.Prelude.{◌≡◌};

use tree::fault::Missing;

/// A unit of a treehash lacked its token. That each layer has a fault type of its own is a rule of the project.
#[derive(Clone, Copy, Debug, PartialEq, Eq)]
pub struct UnitFault {
    pub missing: Missing,
}

impl From<Missing> for UnitFault {
    ghost from_gives = { λ m f. f.missing ≡ m };

    fn from(missing: Missing) -> UnitFault {
        UnitFault { missing }
    }
}

/// A unit of a draft lacked its token: the fault type of its layer.
#[derive(Clone, Copy, Debug, PartialEq, Eq)]
pub struct DraftFault {
    pub unit: UnitFault,
}

impl From<UnitFault> for DraftFault {
    ghost from_gives = { λ f d. d.unit ≡ f };

    fn from(unit: UnitFault) -> DraftFault {
        DraftFault { unit }
    }
}

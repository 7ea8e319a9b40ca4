ghost use Rattle.std.specs.Prelude.{◌≡◌};
ghost use Rattle.traversal.specs.Calls.{Rooted};

use crate::outcome::Totals;
use crate::refusal::{Refusal, check_room};
use crate::state::Run;

impl Run {
    /// The root of the tree, from the table.
    pub fn root<N: Copy>(&self, table: &[N]) -> Result<N, Refusal>
        ensures { Rooted self.now table.now result }
    {
        check_room(table.len(), self.shape)?;
        Ok(table[0])
    }

    /// Ends the run; answers what it came to.
    pub fn close(self) -> Totals
        ensures { result ≡ self.totals }
    {
        let Run { shape: _, totals } = self;
        totals
    }
}

ghost use Rattle.mf_permits.specs.Boards.{IsGivenRow, TellsGiven, given_back};
ghost use Rattle.mf_permits.specs.Tables.{HasTaskShape};
ghost use Rattle.std.specs.Prelude.{◌≡◌, IfErr};

use crate::{Finished, Taken};
use mf_store::Row;
use mf_task::{Expansion, Naming};

/// Another worker was at the board, in the turn of this number. The call can be made again.
#[derive(Clone, Copy, Debug, PartialEq, Eq)]
pub struct Busy {
    pub turn: u64,
}

/// Why an expansion was not handed in. It is given back.
#[derive(Drop)]
pub enum Refused<N: Naming> {
    /// Another worker was at the board, in the turn of this number. The call can be made again.
    Busy { turn: u64, expansion: Expansion<N> },
    /// Out of memory.
    Unkept { expansion: Expansion<N> },
}

/// A core that several workers share, each by a pass of its own. No call waits.
pub trait Board<N: Naming> {
    ghost use Rattle.mf_permits.specs.Boards.{Given};
    ghost use Rattle.std.specs.Prelude.{Option};

    type Pass;

    /// Which passes are those of this board. No call changes it.
    ghost owns: { Self → Self.Pass → Type 0 };

    /// The state and the row that a pass was last given.
    ghost given: { Self.Pass → Option Given };

    /// The worker of the pass asks for a state, whose row is then written.
    fn try_take(&self, pass: &mut Self::Pass, into: &mut Row) -> Result<Taken, Busy>
        requires owned { owns self.now pass.old }
        requires shape { HasTaskShape N.case into.old }
        ensures owned { owns self.now pass.new }
        ensures given { TellsGiven N.case (given pass.old) (given pass.new) into.old into.new result };

    /// The worker of the pass hands in the expansion of its state. Where it is not taken it is given back.
    fn try_finish(
        &self,
        pass: &mut Self::Pass,
        expansion: Expansion<N>,
    ) -> Result<Finished, Refused<N>>
        requires owned { owns self.now pass.old }
        requires made { IsGivenRow (given pass.old) expansion }
        ensures owned { owns self.now pass.new }
        ensures given { given pass.new ≡ given pass.old }
        ensures given_back { IfErr result (λ refused. given_back refused ≡ expansion) };

    /// Halts the search.
    fn try_halt(&self, pass: &mut Self::Pass) -> Result<(), Busy>
        requires owned { owns self.now pass.old }
        ensures owned { owns self.now pass.new }
        ensures given { given pass.new ≡ given pass.old };
}

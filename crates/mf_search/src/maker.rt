ghost use Rattle.std.specs.Prelude.{◌≡◌};
ghost use Rattle.mf_search.specs.World.{mark_rank};
ghost use Rattle.mf_search.specs.Rebuilt.{parent_of};
ghost use Rattle.mf_search.specs.Keys.{is_plain};

/// What opened a state.
#[derive(Clone, Copy, Debug, PartialEq, Eq)]
pub enum Maker {
    /// The state is the start.
    Start,
    /// The first entry of a successor list that led to the state: the number of the list's state, the
    /// instance, and whether the instance is helpful there.
    Step {
        parent: u64,
        instance: u32,
        helpful: bool,
    },
}

impl Maker {
    /// The number of the state whose successor list led here; none for the start.
    pub fn parent(self) -> Option<u64>
        ensures { result ≡ parent_of self }
    {
        match self {
            Maker::Start => None,
            Maker::Step { parent, .. } => Some(parent),
        }
    }

    /// 0 where the state is marked, since a helpful instance led to it, and else 1: of two states with one
    /// value the one of lower rank is taken first.
    pub fn rank(self) -> u8
        ensures { result ≡ mark_rank self }
    {
        match self {
            Maker::Step { helpful: true, .. } => 0,
            _ => 1,
        }
    }

    /// Whether the state is plain, which is to say not marked: no helpful instance led to it.
    pub fn is_plain(self) -> bool
        ensures { result ≡ is_plain self }
    {
        match self {
            Maker::Step { helpful, .. } => !helpful,
            Maker::Start => true,
        }
    }
}

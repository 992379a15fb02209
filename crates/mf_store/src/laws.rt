ghost use Rattle.mf_store.specs.Rows.{RowLists};
ghost use Rattle.mf_store.specs.SameRows.{same_rows};
ghost use Rattle.std.specs.Bool.{Decides};
ghost use Rattle.std.specs.Prelude.{◌≡◌};

/// `==` of two rows answers whether both their lists are equal.
pub fn rows_are_compared()
    ensures { (a b : RowLists) → Decides (same_rows a b) (a ≡ b) }
{}

ghost use Rattle.std.specs.Prelude.{◌≡◌, [], List, None, Some};
ghost use Rattle.mf_types.specs.declared.least.Fault.{Fault};
ghost use Rattle.mf_types.specs.Faults.{after, IsLeast};

/// Of the faults that stand the answered one is named first, and where none is answered none
/// stands.
pub fn least_is_answered()
    ensures least { (faults : List Fault) (fault : Fault)
        → after None faults ≡ Some fault → IsLeast faults fault }
    ensures none { (faults : List Fault) → after None faults ≡ None → faults ≡ [] }
{}

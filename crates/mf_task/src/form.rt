ghost use Rattle.mf_task.specs.Grounding.{same_form, same_part};
ghost use Rattle.mf_task.specs.SameForms.{form_writes, part_writes, same_form-Decides, same_form_equiv, same_part-Decides, same_part_equiv};
ghost use Rattle.std.proofs.Common.{ap};
ghost use Rattle.std.specs.Cmp.{partial_equiv_from_equiv};

use mf_fraction::Frac;
use mf_model::List;
use std::hash::{Hash, Hasher};

/// A coefficient and the number of the function term that it multiplies.
#[derive(Clone, Copy, Debug)]
pub struct Part {
    pub coefficient: Frac,
    pub term: u32,
}

/// A linear form: a constant, and a coefficient, which may be 0, for each term that is read, in term order.
#[derive(Debug, Drop)]
pub struct Form {
    pub constant: Frac,
    pub parts: List<Part>,
}

impl PartialEq for Part {
    ghost eq = { same_part };

    ghost laws = { partial_equiv_from_equiv same_part_equiv };

    fn eq(&self, other: &Part) -> bool {
        self.coefficient == other.coefficient && self.term == other.term
    }
}

impl Eq for Part {
    ghost laws = { same_part_equiv };
}

impl Hash for Part {
    ghost hash_input = { part_writes };

    ghost respects_eq = { λ p q same. ap part_writes ((same_part-Decides p q).0 same) };

    fn hash<H: Hasher>(&self, state: &mut H) {
        self.coefficient.hash(state);
        self.term.hash(state);
    }
}

impl PartialEq for Form {
    ghost eq = { same_form };

    ghost laws = { partial_equiv_from_equiv same_form_equiv };

    fn eq(&self, other: &Form) -> bool {
        self.constant == other.constant && self.parts == other.parts
    }
}

impl Eq for Form {
    ghost laws = { same_form_equiv };
}

impl Hash for Form {
    ghost hash_input = { form_writes };

    ghost respects_eq = { λ a b same. ap form_writes ((same_form-Decides a b).0 same) };

    fn hash<H: Hasher>(&self, state: &mut H) {
        self.constant.hash(state);
        self.parts.hash(state);
    }
}

ghost use Rattle.std.specs.Prelude.{◌≡◌, ℕ, List};
ghost use Rattle.mf_model.specs.declared.task.Expr.{Expr};
ghost use Rattle.mf_model.specs.declared.task.Relation.{Relation};
ghost use Rattle.mf_model.specs.Meaning.{compared, value_of};
ghost use Rattle.mf_model.specs.Views.{Look};
ghost use Rattle.mf_task.specs.GroundMeaning.{truth_at};
ghost use Rattle.mf_task.specs.Grounding.{Numbering, compared_form, functions_in};
ghost use Rattle.mf_task.specs.LinearForms.{form_of, optional_form_value};
ghost use Rattle.mf_task.specs.Rows.{Sight};
ghost use Rattle.mf_bridge.specs.Readable.{IsReadable};
ghost use Rattle.mf_bridge.specs.Shows.{Shows};

/// The value of an expression in a state is that of its form in a row that shows the same.
pub fn forms_have_the_values_of_expressions()
    ensures { (numbering : Numbering) (look : Look) (sight : Sight) → Shows numbering look sight → (expression : Expr) (binding : List ℕ) → IsReadable numbering.task expression → value_of look expression binding ≡ optional_form_value sight.value (form_of (functions_in numbering) expression binding) }
{}

/// Two values compare as the form of their difference does with 0.
pub fn comparisons_are_signs_of_differences()
    ensures { (numbering : Numbering) (look : Look) (sight : Sight) → Shows numbering look sight → (relation : Relation) (left right : Expr) (binding : List ℕ) → IsReadable numbering.task left → IsReadable numbering.task right → compared relation (value_of look left binding) (value_of look right binding) ≡ truth_at relation (optional_form_value sight.value (compared_form (functions_in numbering) left right binding)) }
{}

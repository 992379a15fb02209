ghost use Rattle.std.specs.Prelude.{◌≡◌, ◌↔◌, List, true, ℕ};
ghost use Rattle.mf_fraction.specs.Decimal.{is_number};
ghost use Rattle.mf_model.specs.ResolvedTask.{IsResolvedTask};
ghost use Rattle.mf_model.specs.Trees.{IsTreeOf};
ghost use Rattle.mf_model.specs.declared.form.Domain.{Domain};
ghost use Rattle.mf_model.specs.declared.form.Problem.{Problem};
ghost use Rattle.mf_model.specs.declared.task.TypedTask.{TypedTask};
ghost use Rattle.mf_model.specs.declared.tree.Tree.{Tree};
ghost use Rattle.mf_reader.specs.GrammarFiles.{IsDomain, IsProblem};
ghost use Rattle.mf_types.specs.StartValues.{same_number};
ghost use Rattle.mf_types.specs.Written.{IsWritten};
ghost use Rattle.mf_input.specs.Files.{IsTaskOfFiles};
ghost use Rattle.mf_input.specs.WrittenValues.{written_value};

/// Two files have one task at most.
pub fn task_is_unique()
    ensures { (domain problem : List ℕ) (left right : TypedTask) → IsTaskOfFiles domain problem left → IsTaskOfFiles domain problem right → left ≡ right }
{}

/// A domain and a problem of the grammar, read from the trees of two files, are written: their sums and products have two
/// parts at least, only the metric reads the number of steps, no `when` effect occurs in another, and what they declare has
/// words of kind Name.
pub fn forms_are_written()
    ensures { (domain problem : List ℕ) (domain_tree problem_tree : Tree) (d : Domain) (p : Problem) → IsTreeOf domain domain_tree → IsTreeOf problem problem_tree → IsDomain d domain_tree → IsProblem p problem_tree → IsWritten d p }
{}

/// The task of two files is a resolved task: each of its numbers names what is declared, it keeps the limits, its objects
/// have the type `object`, its expressions outside the metric are linear, its numbers fit and are in lowest terms, no `when`
/// effect occurs in another, and its names are words of kind Name, pairwise different each in its space.
pub fn task_is_resolved()
    ensures { (domain problem : List ℕ) (task : TypedTask) → IsTaskOfFiles domain problem task → IsResolvedTask task }
{}

/// Two start values of a term are the same, so that the second one is no fault, exactly where their words write one number.
pub fn same_words_write_one_number()
    ensures { (one other : List ℕ) → is_number one ≡ true → is_number other ≡ true → ((same_number one other ≡ true) ↔ (written_value one ≡ written_value other)) }
{}

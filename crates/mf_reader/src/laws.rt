ghost use Rattle.std.specs.Prelude.{◌≡◌, ◌↔◌, []};
ghost use Rattle.mf_model.specs.Trees.{IsPlaced};
ghost use Rattle.mf_model.specs.declared.form.Domain.{Domain};
ghost use Rattle.mf_model.specs.declared.form.Problem.{Problem};
ghost use Rattle.mf_model.specs.declared.tree.Tree.{Tree};
ghost use Rattle.mf_reader.specs.Domains.{domain_of};
ghost use Rattle.mf_reader.specs.Functions.{functions_of};
ghost use Rattle.mf_reader.specs.GrammarConditions.{IsCond};
ghost use Rattle.mf_reader.specs.GrammarEffects.{IsEffect, IsInnerEffect};
ghost use Rattle.mf_reader.specs.GrammarExpressions.{IsExpr, IsMetricExpr};
ghost use Rattle.mf_reader.specs.GrammarFiles.{IsDomain, IsProblem};
ghost use Rattle.mf_reader.specs.GrammarSections.{ArePredicates, AreFunctions, AreStarts};
ghost use Rattle.mf_reader.specs.GrammarTerms.{AreObjects, AreSubtypes, AreVariables};
ghost use Rattle.mf_reader.specs.Headers.{predicate_header};
ghost use Rattle.mf_reader.specs.Inits.{init_of};
ghost use Rattle.mf_reader.specs.Laws.{IsReadingOf, ReadsAt, ReadsLists};
ghost use Rattle.mf_reader.specs.Order.{AreInOrder};
ghost use Rattle.mf_reader.specs.Problems.{problem_of};
ghost use Rattle.mf_reader.specs.Said.{each};
ghost use Rattle.mf_reader.specs.Typed.{typed_names, typed_types, typed_variables};

/// A typed list is read exactly where it is of the grammar.
pub fn typed_lists_are_read()
    ensures variables { ReadsLists typed_variables AreVariables }
    ensures objects { ReadsLists typed_names AreObjects }
    ensures types { ReadsLists typed_types AreSubtypes }
{}

/// The headers of predicates and functions are read exactly where they are of the grammar.
pub fn declarations_are_read()
    ensures predicates { IsReadingOf (each predicate_header) ArePredicates }
    ensures functions { IsReadingOf functions_of AreFunctions }
{}

/// An expression is read exactly where it is of the grammar, and so is one of a metric.
pub fn expressions_are_read()
    ensures expressions { ReadsAt (λ s. s.expr) IsExpr }
    ensures metrics { ReadsAt (λ s. s.metric) IsMetricExpr }
{}

/// A condition is read exactly where it is of the grammar.
pub fn conditions_are_read()
    ensures { ReadsAt (λ s. s.cond) IsCond }
{}

/// An effect is read exactly where it is of the grammar, and so is one behind a condition.
pub fn effects_are_read()
    ensures effects { ReadsAt (λ s. s.effect) IsEffect }
    ensures inner { ReadsAt (λ s. s.inner) IsInnerEffect }
{}

/// In a tree whose spans are nested and in a row, each fault stands behind those before it. So the
/// fault that a call answers is the one of the least start, and no other has that start.
pub fn faults_stand_in_order()
    ensures domains { (tree : Tree) → IsPlaced tree → AreInOrder (domain_of tree).faults }
    ensures problems { (tree : Tree) → IsPlaced tree → AreInOrder (problem_of tree).faults }
{}

/// A domain file is read exactly where it is of the grammar.
pub fn domains_are_read()
    ensures { IsReadingOf domain_of IsDomain }
{}

/// The init of a problem is read exactly where it is of the grammar.
pub fn inits_are_read()
    ensures { IsReadingOf init_of (λ starts trees. AreStarts starts.atoms starts.values trees) }
{}

/// A problem file is read exactly where it is of the grammar.
pub fn problems_are_read()
    ensures { IsReadingOf problem_of IsProblem }
{}

/// A tree is a domain in one way at most, and a problem in one way at most.
pub fn forms_are_unique()
    ensures domains { (tree : Tree) (one other : Domain) → IsDomain one tree → IsDomain other tree → one ≡ other }
    ensures problems { (tree : Tree) (one other : Problem) → IsProblem one tree → IsProblem other tree → one ≡ other }
{}

/// A tree is a domain, or a problem, exactly where no fault stands in it.
pub fn forms_have_no_fault()
    ensures domains { (tree : Tree) → ((domain : Domain) × IsDomain domain tree) ↔ ((domain_of tree).faults ≡ []) }
    ensures problems { (tree : Tree) → ((problem : Problem) × IsProblem problem tree) ↔ ((problem_of tree).faults ≡ []) }
{}

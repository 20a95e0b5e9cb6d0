//! Laws of flat forms, for every signature, each the contract of a function that does nothing.
ghost use Rattle.fvn_forms.specs.Laws.{
  FlatFormsAreCompared,
  SettledIsFlat,
  EqualityIsThatOfFlatForms,
  LeastSortIsExact,
  InstancesHaveLowerSorts,
};

/// Two flat forms are equal or not, and which is computed.
pub fn flat_forms_are_compared()
    ensures { FlatFormsAreCompared }
{}

/// A form is settled exactly where it is the flat form of its plain term.
pub fn settled_is_flat()
    ensures { SettledIsFlat }
{}

/// Well-kinded terms are equal modulo the axioms exactly where their flat forms are equal.
pub fn equality_is_that_of_flat_forms()
    ensures { EqualityIsThatOfFlatForms }
{}

/// The sorts of a well-kinded term are the least sort of its flat form and those above it.
pub fn least_sort_is_exact()
    ensures { LeastSortIsExact }
{}

/// The least sort of an instance is at or below the least sort over the sorts of the values.
pub fn instances_have_lower_sorts()
    ensures { InstancesHaveLowerSorts }
{}

// Values that a data file of their own lists, so that a name in it is looked for among them.
ghost use Rattle.std.specs.Prelude.{◌≡◌, ℕ, List, IfSome, Some, Option, false};
ghost use Rattle.std.specs.List.{AllByRecursion};
ghost use Rattle.properties.specs.Names.{called};
ghost use Rattle.properties.specs.Naming.{at_some, listed_called};

use crate::named::{Named, find};
use crate::property::Property;

pub(crate) trait Listed: Named + 'static {
    // The name by which the file lists a value, if it does.
    ghost listed_name: { Self → Option (List ℕ) };

    // The values that the file lists, in the order in which a name is looked for.
    ghost values: { List Self };

    // The value of a code point that no line lists.
    ghost UNLISTED: { Self };

    const UNLISTED: Self;

    fn values() -> &'static [Self]
        ensures { result.now ≡ values };

    ghost spelled: { AllByRecursion (λ v. listed_name v ≡ Some (Self.spelling v)) values };

    ghost by_name: { (v : Self) → IfSome (listed_name v) (λ name. called Self.spelling values name ≡ Some v) };
}

impl<E: Listed> Property for E {
    ghost listed = { E.listed_name };

    ghost meant = { called E.spelling E.values };

    ghost shared = { false };

    ghost unlisted = { E.UNLISTED };

    ghost told = { λ name v e. listed_called E.spelling E.listed_name E.values E.spelled name v e };

    ghost found = { λ name v e. at_some (λ n. called E.spelling E.values n ≡ Some v) (E.listed_name v) name (E.by_name v) e };

    fn read(name: &[u8]) -> Option<E> {
        find(E::values(), name)
    }

    fn shares_its_file() -> bool {
        false
    }

    fn default_value() -> E {
        E::UNLISTED
    }
}

// Whether a code point is Extended_Pictographic, as emoji-data.txt lists it among other properties.
ghost use Rattle.std.specs.Prelude.{◌≡◌, true, false, [], ◌∷◌, Some, codes, refl};
ghost use Rattle.properties.specs.Pictographs.{pictograph_name, pictograph_read};
ghost use Rattle.properties.specs.Naming.{listed_called, at_some};
ghost use Rattle.properties.specs.PictographPropertyLemmas.{by_name};

use crate::property::Property;

impl Property for bool {
    ghost listed = { pictograph_name };

    ghost meant = { pictograph_read };

    ghost shared = { true };

    ghost unlisted = { false };

    ghost told = { λ name v e. listed_called (λ _. codes "Extended_Pictographic") pictograph_name (true ∷ []) (refl, tt) name v e };

    ghost found = { λ name v e. at_some (λ n. pictograph_read n ≡ Some v) (pictograph_name v) name (by_name v) e };

    fn read(name: &[u8]) -> Option<bool> {
        (b"Extended_Pictographic".as_slice() == name).then_some(true)
    }

    fn shares_its_file() -> bool {
        true
    }

    fn default_value() -> bool {
        false
    }
}

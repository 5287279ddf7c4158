// What every property promises, so that one reader serves all data files.
ghost use Rattle.std.specs.Prelude.{◌≡◌, ℕ, Bool, List, Some, Option};

pub trait Property: Copy {
    // The name by which the property's data file lists a value, if it does.
    ghost listed: { Self → Option (List ℕ) };

    // The value that a name stands for.
    ghost meant: { List ℕ → Option Self };

    // Whether the file has lines for other properties too, whose names keep nothing.
    ghost shared: { Bool };

    // The value of a code point that no line lists.
    ghost unlisted: { Self };

    fn read(name: &[u8]) -> Option<Self>
        ensures { result ≡ meant name.now };

    fn shares_its_file() -> bool
        ensures { result ≡ shared };

    fn default_value() -> Self
        ensures { result ≡ unlisted };

    ghost told: { (name : List ℕ) (v : Self) → meant name ≡ Some v → listed v ≡ Some name };

    ghost found: { (name : List ℕ) (v : Self) → listed v ≡ Some name → meant name ≡ Some v };
}

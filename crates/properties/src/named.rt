// Values that have a name, and the value that has a given one.
ghost use Rattle.std.specs.Prelude.{◌≡◌, ℕ, List};
ghost use Rattle.properties.specs.Names.{called};

pub trait Named: Copy {
    ghost spelling: { Self → List ℕ };

    // The name in the data file, which is compared byte by byte: so it is text that is there, and not printed.
    fn name(self) -> &'static str
        ensures { result.now ≡ spelling self };
}

// The first of the values that has this name.
pub(crate) fn find<V: Named>(values: &[V], name: &[u8]) -> Option<V>
    ensures { result ≡ called V.Named.spelling values.now name.now }
{
    values
        .iter()
        .copied()
        .find(|value| value.name().as_bytes() == name)
}

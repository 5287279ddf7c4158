// The grapheme cluster break classes of UAX #29, as GraphemeBreakProperty.txt lists them.
ghost use Rattle.std.specs.Prelude.{refl};
ghost use Rattle.properties.specs.GraphemeClasses.{grapheme_name, grapheme_classes, listed_name};
ghost use Rattle.properties.specs.declared.grapheme_class.GraphemeClass.TheVariants.{Other as other};
ghost use Rattle.properties.specs.GraphemeClassPropertyLemmas.{by_name};

use crate::listed::Listed;
use crate::named::Named;

#[derive(Clone, Copy, PartialEq, Eq, Debug)]
pub enum GraphemeClass {
    Cr,
    Lf,
    Control,
    Extend,
    Zwj,
    RegionalIndicator,
    Prepend,
    SpacingMark,
    L,
    V,
    T,
    Lv,
    Lvt,
    Other,
}

// The values that the file lists.
const GRAPHEME_CLASSES: [GraphemeClass; 13] = [
    GraphemeClass::Cr,
    GraphemeClass::Lf,
    GraphemeClass::Control,
    GraphemeClass::Extend,
    GraphemeClass::Zwj,
    GraphemeClass::RegionalIndicator,
    GraphemeClass::Prepend,
    GraphemeClass::SpacingMark,
    GraphemeClass::L,
    GraphemeClass::V,
    GraphemeClass::T,
    GraphemeClass::Lv,
    GraphemeClass::Lvt,
];

impl Named for GraphemeClass {
    ghost spelling = { grapheme_name };

    fn name(self) -> &'static str {
        match self {
            GraphemeClass::Cr => "CR",
            GraphemeClass::Lf => "LF",
            GraphemeClass::Control => "Control",
            GraphemeClass::Extend => "Extend",
            GraphemeClass::Zwj => "ZWJ",
            GraphemeClass::RegionalIndicator => "Regional_Indicator",
            GraphemeClass::Prepend => "Prepend",
            GraphemeClass::SpacingMark => "SpacingMark",
            GraphemeClass::L => "L",
            GraphemeClass::V => "V",
            GraphemeClass::T => "T",
            GraphemeClass::Lv => "LV",
            GraphemeClass::Lvt => "LVT",
            GraphemeClass::Other => "Other",
        }
    }
}

impl Listed for GraphemeClass {
    ghost listed_name = { listed_name };

    ghost values = { grapheme_classes };

    ghost UNLISTED = { other };

    const UNLISTED: GraphemeClass = GraphemeClass::Other;

    ghost spelled = { (refl, (refl, (refl, (refl, (refl, (refl, (refl, (refl, (refl, (refl, (refl, (refl, (refl, tt))))))))))))) };

    ghost by_name = { by_name };

    fn values() -> &'static [GraphemeClass] {
        &GRAPHEME_CLASSES
    }
}

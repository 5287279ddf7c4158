// The general categories, as DerivedGeneralCategory.txt lists them.
ghost use Rattle.properties.specs.Names.{same_name};
ghost use Rattle.properties.specs.Categories.{category_name, categories};
ghost use Rattle.properties.specs.declared.category.Category.TheVariants.{Cn as unassigned};
ghost use Rattle.properties.specs.Naming.{all_same};
ghost use Rattle.properties.specs.CategoryPropertyLemmas.{by_name};

use crate::listed::Listed;
use crate::named::Named;

#[derive(Clone, Copy, PartialEq, Eq, Debug)]
pub enum Category {
    Lu,
    Ll,
    Lt,
    Lm,
    Lo,
    Mn,
    Mc,
    Me,
    Nd,
    Nl,
    No,
    Pc,
    Pd,
    Ps,
    Pe,
    Pi,
    Pf,
    Po,
    Sm,
    Sc,
    Sk,
    So,
    Zs,
    Zl,
    Zp,
    Cc,
    Cf,
    Cs,
    Co,
    Cn,
}

// The values that the file lists.
const CATEGORIES: [Category; 30] = [
    Category::Lu,
    Category::Ll,
    Category::Lt,
    Category::Lm,
    Category::Lo,
    Category::Mn,
    Category::Mc,
    Category::Me,
    Category::Nd,
    Category::Nl,
    Category::No,
    Category::Pc,
    Category::Pd,
    Category::Ps,
    Category::Pe,
    Category::Pi,
    Category::Pf,
    Category::Po,
    Category::Sm,
    Category::Sc,
    Category::Sk,
    Category::So,
    Category::Zs,
    Category::Zl,
    Category::Zp,
    Category::Cc,
    Category::Cf,
    Category::Cs,
    Category::Co,
    Category::Cn,
];

impl Named for Category {
    ghost spelling = { category_name };

    fn name(self) -> &'static str {
        match self {
            Category::Lu => "Lu",
            Category::Ll => "Ll",
            Category::Lt => "Lt",
            Category::Lm => "Lm",
            Category::Lo => "Lo",
            Category::Mn => "Mn",
            Category::Mc => "Mc",
            Category::Me => "Me",
            Category::Nd => "Nd",
            Category::Nl => "Nl",
            Category::No => "No",
            Category::Pc => "Pc",
            Category::Pd => "Pd",
            Category::Ps => "Ps",
            Category::Pe => "Pe",
            Category::Pi => "Pi",
            Category::Pf => "Pf",
            Category::Po => "Po",
            Category::Sm => "Sm",
            Category::Sc => "Sc",
            Category::Sk => "Sk",
            Category::So => "So",
            Category::Zs => "Zs",
            Category::Zl => "Zl",
            Category::Zp => "Zp",
            Category::Cc => "Cc",
            Category::Cf => "Cf",
            Category::Cs => "Cs",
            Category::Co => "Co",
            Category::Cn => "Cn",
        }
    }
}

impl Listed for Category {
    ghost listed_name = { same_name category_name };

    ghost values = { categories };

    ghost UNLISTED = { unassigned };

    const UNLISTED: Category = Category::Cn;

    ghost spelled = { all_same category_name categories };

    ghost by_name = { by_name };

    fn values() -> &'static [Category] {
        &CATEGORIES
    }
}

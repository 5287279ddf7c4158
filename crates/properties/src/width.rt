// The East Asian widths, as EastAsianWidth.txt lists them.
ghost use Rattle.properties.specs.Names.{same_name};
ghost use Rattle.properties.specs.Widths.{width_name, widths};
ghost use Rattle.properties.specs.declared.width.Width.TheVariants.{N as neutral};
ghost use Rattle.properties.specs.Naming.{all_same};
ghost use Rattle.properties.specs.WidthPropertyLemmas.{by_name};

use crate::listed::Listed;
use crate::named::Named;

#[derive(Clone, Copy, PartialEq, Eq, Debug)]
pub enum Width {
    F,
    H,
    W,
    Na,
    A,
    N,
}

// The values that the file lists.
const WIDTHS: [Width; 6] = [Width::F, Width::H, Width::W, Width::Na, Width::A, Width::N];

impl Named for Width {
    ghost spelling = { width_name };

    fn name(self) -> &'static str {
        match self {
            Width::F => "F",
            Width::H => "H",
            Width::W => "W",
            Width::Na => "Na",
            Width::A => "A",
            Width::N => "N",
        }
    }
}

impl Listed for Width {
    ghost listed_name = { same_name width_name };

    ghost values = { widths };

    ghost UNLISTED = { neutral };

    const UNLISTED: Width = Width::N;

    ghost spelled = { all_same width_name widths };

    ghost by_name = { by_name };

    fn values() -> &'static [Width] {
        &WIDTHS
    }
}

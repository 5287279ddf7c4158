// The line break classes of UAX #14, as LineBreak.txt lists them.
ghost use Rattle.properties.specs.Names.{same_name};
ghost use Rattle.properties.specs.LineClasses.{line_name, line_classes};
ghost use Rattle.properties.specs.declared.line_class.LineClass.TheVariants.{Xx as unknown};
ghost use Rattle.properties.specs.Naming.{all_same};
ghost use Rattle.properties.specs.LineClassPropertyLemmas.{by_name};

use crate::listed::Listed;
use crate::named::Named;

#[derive(Clone, Copy, PartialEq, Eq, Debug)]
pub enum LineClass {
    Ai,
    Bk,
    Cr,
    Lf,
    Cm,
    Nl,
    Sg,
    Wj,
    Zw,
    Gl,
    Sp,
    Zwj,
    B2,
    Ba,
    Bb,
    Hy,
    Cb,
    Cl,
    Cp,
    Ex,
    In,
    Ns,
    Op,
    Qu,
    Is,
    Nu,
    Po,
    Pr,
    Sy,
    Al,
    Cj,
    Eb,
    Em,
    H2,
    H3,
    Hl,
    Id,
    Jl,
    Jv,
    Jt,
    Ri,
    Sa,
    Xx,
}

// The values that the file lists.
const LINE_CLASSES: [LineClass; 43] = [
    LineClass::Ai,
    LineClass::Bk,
    LineClass::Cr,
    LineClass::Lf,
    LineClass::Cm,
    LineClass::Nl,
    LineClass::Sg,
    LineClass::Wj,
    LineClass::Zw,
    LineClass::Gl,
    LineClass::Sp,
    LineClass::Zwj,
    LineClass::B2,
    LineClass::Ba,
    LineClass::Bb,
    LineClass::Hy,
    LineClass::Cb,
    LineClass::Cl,
    LineClass::Cp,
    LineClass::Ex,
    LineClass::In,
    LineClass::Ns,
    LineClass::Op,
    LineClass::Qu,
    LineClass::Is,
    LineClass::Nu,
    LineClass::Po,
    LineClass::Pr,
    LineClass::Sy,
    LineClass::Al,
    LineClass::Cj,
    LineClass::Eb,
    LineClass::Em,
    LineClass::H2,
    LineClass::H3,
    LineClass::Hl,
    LineClass::Id,
    LineClass::Jl,
    LineClass::Jv,
    LineClass::Jt,
    LineClass::Ri,
    LineClass::Sa,
    LineClass::Xx,
];

impl Named for LineClass {
    ghost spelling = { line_name };

    fn name(self) -> &'static str {
        match self {
            LineClass::Ai => "AI",
            LineClass::Bk => "BK",
            LineClass::Cr => "CR",
            LineClass::Lf => "LF",
            LineClass::Cm => "CM",
            LineClass::Nl => "NL",
            LineClass::Sg => "SG",
            LineClass::Wj => "WJ",
            LineClass::Zw => "ZW",
            LineClass::Gl => "GL",
            LineClass::Sp => "SP",
            LineClass::Zwj => "ZWJ",
            LineClass::B2 => "B2",
            LineClass::Ba => "BA",
            LineClass::Bb => "BB",
            LineClass::Hy => "HY",
            LineClass::Cb => "CB",
            LineClass::Cl => "CL",
            LineClass::Cp => "CP",
            LineClass::Ex => "EX",
            LineClass::In => "IN",
            LineClass::Ns => "NS",
            LineClass::Op => "OP",
            LineClass::Qu => "QU",
            LineClass::Is => "IS",
            LineClass::Nu => "NU",
            LineClass::Po => "PO",
            LineClass::Pr => "PR",
            LineClass::Sy => "SY",
            LineClass::Al => "AL",
            LineClass::Cj => "CJ",
            LineClass::Eb => "EB",
            LineClass::Em => "EM",
            LineClass::H2 => "H2",
            LineClass::H3 => "H3",
            LineClass::Hl => "HL",
            LineClass::Id => "ID",
            LineClass::Jl => "JL",
            LineClass::Jv => "JV",
            LineClass::Jt => "JT",
            LineClass::Ri => "RI",
            LineClass::Sa => "SA",
            LineClass::Xx => "XX",
        }
    }
}

impl Listed for LineClass {
    ghost listed_name = { same_name line_name };

    ghost values = { line_classes };

    ghost UNLISTED = { unknown };

    const UNLISTED: LineClass = LineClass::Xx;

    ghost spelled = { all_same line_name line_classes };

    ghost by_name = { by_name };

    fn values() -> &'static [LineClass] {
        &LINE_CLASSES
    }
}

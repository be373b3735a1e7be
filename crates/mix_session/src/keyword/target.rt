//! What a command sets or waits for, and what the toggle and the indicator are set to.

ghost use Rattle.std.specs.Prelude.{refl, true, false};
ghost use Rattle.mix_session.specs.Keyword.{set_name, all_sets, until_name, all_untils, toggle_name, all_toggles, indicator_name, all_indicators};
ghost use Rattle.mix_session.specs.law.Named.{set_named, until_named};
ghost use Rattle.mix_word.specs.declared.word.Cmp.TheVariants as cmp;

use crate::keyword::Keyword;
use mix_machine::{Cmp, Reg};

/// What `set` may set.
#[derive(Clone, Copy)]
pub(crate) enum SetWord {
    Register(Reg),
    Cell,
    Location,
    Toggle,
    Indicator,
}

impl Keyword for SetWord {
    ghost name_of = { set_name };

    ghost all_of = { all_sets };

    fn name(self) -> &'static str {
        match self {
            SetWord::Register(register) => register.name(),
            SetWord::Cell => "cell",
            SetWord::Location => "loc",
            SetWord::Toggle => "over",
            SetWord::Indicator => "cmp",
        }
    }

    fn all() -> &'static [SetWord] {
        &[
            SetWord::Register(Reg::A),
            SetWord::Register(Reg::X),
            SetWord::Register(Reg::I1),
            SetWord::Register(Reg::I2),
            SetWord::Register(Reg::I3),
            SetWord::Register(Reg::I4),
            SetWord::Register(Reg::I5),
            SetWord::Register(Reg::I6),
            SetWord::Register(Reg::J),
            SetWord::Cell,
            SetWord::Location,
            SetWord::Toggle,
            SetWord::Indicator,
        ]
    }

    ghost named = { set_named };
}

/// What a command may wait for: a unit, a conflict, or what `set` names.
#[derive(Clone, Copy)]
pub(crate) enum UntilWord {
    Set(SetWord),
    Unit,
    Conflict,
}

impl Keyword for UntilWord {
    ghost name_of = { until_name };

    ghost all_of = { all_untils };

    fn name(self) -> &'static str {
        match self {
            UntilWord::Set(word) => word.name(),
            UntilWord::Unit => "unit",
            UntilWord::Conflict => "conflict",
        }
    }

    fn all() -> &'static [UntilWord] {
        &[
            UntilWord::Set(SetWord::Register(Reg::A)),
            UntilWord::Set(SetWord::Register(Reg::X)),
            UntilWord::Set(SetWord::Register(Reg::I1)),
            UntilWord::Set(SetWord::Register(Reg::I2)),
            UntilWord::Set(SetWord::Register(Reg::I3)),
            UntilWord::Set(SetWord::Register(Reg::I4)),
            UntilWord::Set(SetWord::Register(Reg::I5)),
            UntilWord::Set(SetWord::Register(Reg::I6)),
            UntilWord::Set(SetWord::Register(Reg::J)),
            UntilWord::Set(SetWord::Cell),
            UntilWord::Set(SetWord::Location),
            UntilWord::Set(SetWord::Toggle),
            UntilWord::Set(SetWord::Indicator),
            UntilWord::Unit,
            UntilWord::Conflict,
        ]
    }

    ghost named = { until_named };
}

/// The overflow toggle.
impl Keyword for bool {
    ghost name_of = { toggle_name };

    ghost all_of = { all_toggles };

    fn name(self) -> &'static str {
        if self { "on" } else { "off" }
    }

    fn all() -> &'static [bool] {
        &[true, false]
    }

    ghost named = { elim [ true ↦ refl | false ↦ refl ] };
}

/// The comparison indicator.
impl Keyword for Cmp {
    ghost name_of = { indicator_name };

    ghost all_of = { all_indicators };

    fn name(self) -> &'static str {
        match self {
            Cmp::Less => "L",
            Cmp::Equal => "E",
            Cmp::Greater => "G",
        }
    }

    fn all() -> &'static [Cmp] {
        &[Cmp::Less, Cmp::Equal, Cmp::Greater]
    }

    ghost named = { elim [ cmp.Less ↦ refl | cmp.Equal ↦ refl | cmp.Greater ↦ refl ] };
}

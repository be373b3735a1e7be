//! The first words of commands, and what may stand after `back` and `forth`.

ghost use Rattle.std.specs.Prelude.{refl};
ghost use Rattle.mix_session.specs.Keyword.{command_name, all_commands, back_name, all_backs, forth_name, all_forths};
ghost use Rattle.mix_session.specs.declared.keyword.command.CommandWord.TheVariants as command;
ghost use Rattle.mix_session.specs.declared.keyword.command.BackWord.TheVariants as back;
ghost use Rattle.mix_session.specs.declared.keyword.command.ForthWord.TheVariants as forth;

use crate::keyword::Keyword;

/// The first word of a command.
#[derive(Clone, Copy)]
pub(crate) enum CommandWord {
    Step,
    Run,
    Back,
    Forth,
    Goto,
    Set,
    Break,
    Clear,
    Show,
    Trace,
}

impl Keyword for CommandWord {
    ghost name_of = { command_name };

    ghost all_of = { all_commands };

    fn name(self) -> &'static str {
        match self {
            CommandWord::Step => "step",
            CommandWord::Run => "run",
            CommandWord::Back => "back",
            CommandWord::Forth => "forth",
            CommandWord::Goto => "goto",
            CommandWord::Set => "set",
            CommandWord::Break => "break",
            CommandWord::Clear => "clear",
            CommandWord::Show => "show",
            CommandWord::Trace => "trace",
        }
    }

    #[rattlefmt::skip]
    fn all() -> &'static [CommandWord] {
        &[
            CommandWord::Step, CommandWord::Run, CommandWord::Back, CommandWord::Forth,
            CommandWord::Goto, CommandWord::Set, CommandWord::Break, CommandWord::Clear, CommandWord::Show,
            CommandWord::Trace,
        ]
    }

    ghost named = { elim [ command.Step ↦ refl | command.Run ↦ refl | command.Back ↦ refl | command.Forth ↦ refl | command.Goto ↦ refl | command.Set ↦ refl | command.Break ↦ refl | command.Clear ↦ refl | command.Show ↦ refl | command.Trace ↦ refl ] };
}

/// What may stand after `back` in place of a number.
#[derive(Clone, Copy)]
pub(crate) enum BackWord {
    All,
    Break,
    Until,
}

impl Keyword for BackWord {
    ghost name_of = { back_name };

    ghost all_of = { all_backs };

    fn name(self) -> &'static str {
        match self {
            BackWord::All => "all",
            BackWord::Break => "break",
            BackWord::Until => "until",
        }
    }

    fn all() -> &'static [BackWord] {
        &[BackWord::All, BackWord::Break, BackWord::Until]
    }

    ghost named = { elim [ back.All ↦ refl | back.Break ↦ refl | back.Until ↦ refl ] };
}

/// What may stand after `forth` in place of a number.
#[derive(Clone, Copy)]
pub(crate) enum ForthWord {
    All,
    Until,
}

impl Keyword for ForthWord {
    ghost name_of = { forth_name };

    ghost all_of = { all_forths };

    fn name(self) -> &'static str {
        match self {
            ForthWord::All => "all",
            ForthWord::Until => "until",
        }
    }

    fn all() -> &'static [ForthWord] {
        &[ForthWord::All, ForthWord::Until]
    }

    ghost named = { elim [ forth.All ↦ refl | forth.Until ↦ refl ] };
}

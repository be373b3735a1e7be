//! The words that a person may begin a line with, and which of them a word is.

ghost use Rattle.std.specs.Prelude.{◌≡◌, ◌∷◌, [], codes, find};
ghost use Rattle.mix_person.specs.Person.{all_words, command_of, is_beginning, is_one_of, name_of, other_word, word_begun};

/// A word that a person may begin a line with.
#[derive(Clone, Copy)]
pub(crate) enum PersonWord {
    Step,
    Next,
    Run,
    Trace,
    Break,
    Back,
    Forth,
    Goto,
    Continue,
    Clear,
    Set,
    Show,
    Quit,
    Help,
    Question,
    Print,
    Listing,
    Where,
    Watch,
    Delete,
    Display,
    Until,
    Undisplay,
    Examine,
    Exit,
    Save,
    SaveOver,
    Source,
    Reload,
    Advance,
    ReverseStep,
}

// In this order: of several that begin in the same way, the first one is meant.
#[rattlefmt::skip]
fn all_words() -> &'static [PersonWord]
    ensures { result.now ≡ all_words }
{
    &[
        PersonWord::Step, PersonWord::Next, PersonWord::Run, PersonWord::Trace, PersonWord::Break, PersonWord::Back, PersonWord::Forth,
        PersonWord::Goto, PersonWord::Continue, PersonWord::Clear, PersonWord::Set, PersonWord::Show, PersonWord::Quit, PersonWord::Help,
        PersonWord::Question, PersonWord::Print, PersonWord::Listing, PersonWord::Where, PersonWord::Watch,
        PersonWord::Delete, PersonWord::Display, PersonWord::Until, PersonWord::Undisplay, PersonWord::Examine, PersonWord::Exit,
        PersonWord::Save, PersonWord::SaveOver, PersonWord::Source, PersonWord::Reload, PersonWord::Advance,
        PersonWord::ReverseStep,
    ]
}

impl PersonWord {
    fn name(self) -> &'static str
        ensures { result.now ≡ name_of self }
    {
        match self {
            PersonWord::Step => "step",
            PersonWord::Next => "next",
            PersonWord::Run => "run",
            PersonWord::Trace => "trace",
            PersonWord::Break => "break",
            PersonWord::Back => "back",
            PersonWord::Forth => "forth",
            PersonWord::Goto => "goto",
            PersonWord::Continue => "continue",
            PersonWord::Clear => "clear",
            PersonWord::Set => "set",
            PersonWord::Show => "show",
            PersonWord::Quit => "quit",
            PersonWord::Help => "help",
            PersonWord::Question => "?",
            PersonWord::Print => "print",
            PersonWord::Listing => "list",
            PersonWord::Where => "where",
            PersonWord::Watch => "watch",
            PersonWord::Delete => "delete",
            PersonWord::Display => "display",
            PersonWord::Until => "until",
            PersonWord::Undisplay => "undisplay",
            PersonWord::Examine => "x",
            PersonWord::Exit => "exit",
            PersonWord::Save => "save",
            PersonWord::SaveOver => "save!",
            PersonWord::Source => "source",
            PersonWord::Reload => "reload",
            PersonWord::Advance => "advance",
            PersonWord::ReverseStep => "reverse-step",
        }
    }

    /// The command that it stands for.
    pub(crate) fn command(self) -> &'static str
        ensures { result.now ≡ command_of self }
    {
        match self {
            PersonWord::Next => "step",
            PersonWord::Continue | PersonWord::Until | PersonWord::Watch | PersonWord::Advance =>
                "run",
            PersonWord::Question => "help",
            PersonWord::Print | PersonWord::Where | PersonWord::Examine | PersonWord::Display =>
                "show",
            PersonWord::Exit => "quit",
            PersonWord::ReverseStep => "back",
            _ => self.name(),
        }
    }
}

/// Whether a word is a beginning of a name, in capitals or small letters.
pub(crate) fn is_beginning(word: &[u8], name: &[u8]) -> bool
    ensures { result ≡ is_beginning word.now name.now }
{
    word.len() <= name.len() && word.eq_ignore_ascii_case(&name[..word.len()])
}

fn is_step(word: &[u8]) -> bool
    ensures { result ≡ is_one_of (codes "stepi" ∷ codes "si" ∷ codes "nexti" ∷ codes "ni" ∷ []) word.now }
{
    word.eq_ignore_ascii_case(b"stepi")
        || word.eq_ignore_ascii_case(b"si")
        || word.eq_ignore_ascii_case(b"nexti")
        || word.eq_ignore_ascii_case(b"ni")
}

fn is_reverse_step(word: &[u8]) -> bool
    ensures { result ≡ is_one_of (codes "rs" ∷ codes "rn" ∷ codes "reverse-next" ∷ codes "reverse-stepi" ∷ []) word.now }
{
    word.eq_ignore_ascii_case(b"rs")
        || word.eq_ignore_ascii_case(b"rn")
        || word.eq_ignore_ascii_case(b"reverse-next")
        || word.eq_ignore_ascii_case(b"reverse-stepi")
}

// Other debuggers' words for a step, and for one step back.
fn other_word(word: &[u8]) -> Option<PersonWord>
    ensures { result ≡ other_word word.now }
{
    if is_step(word) {
        Some(PersonWord::Step)
    } else if is_reverse_step(word) {
        Some(PersonWord::ReverseStep)
    } else {
        None
    }
}

fn known_word(word: &[u8]) -> Option<PersonWord>
    ensures { result ≡ find (λ known. is_beginning word.now (name_of known)) all_words }
{
    all_words()
        .iter()
        .copied()
        .find(|known| is_beginning(word, known.name().as_bytes()))
}

pub(crate) fn word_begun(word: &[u8]) -> Option<PersonWord>
    ensures { result ≡ word_begun word.now }
{
    known_word(word).or(other_word(word))
}

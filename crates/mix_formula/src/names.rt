//! The names of formulas and their values.
ghost use Rattle.std.specs.Prelude.{◌≡◌};
ghost use Rattle.mix_formula.specs.Names.{all_named, has_given, is_same_name, names_of, value_in};

/// A name with its value.
#[derive(Clone, Copy)]
pub struct Named<'a> {
    /// The name. Small letters are the same as capital ones.
    pub name: &'a [u8],
    /// Its value.
    pub value: i64,
    /// The number of the line whose count gave it that value; none if you gave it.
    pub line: Option<usize>,
}

/// The names that have a value, and one that is tried.
#[derive(Clone, Copy)]
pub(crate) struct Scope<'a> {
    pub names: &'a [Named<'a>],
    pub tried: Option<Named<'a>>,
}

/// Whether two names are the same.
#[tactic(auto, unfolding(crate::specs::Names::is_same_name))]
pub(crate) fn is_same_name(a: &[u8], b: &[u8]) -> bool
    ensures { result ≡ is_same_name a.now b.now }
{
    a.eq_ignore_ascii_case(b)
}

/// The value of a name, if it has one: the first one.
pub(crate) fn value_in(names: &[Named], name: &[u8]) -> Option<i64>
    ensures { result ≡ value_in (all_named names.now) name.now }
{
    let mut rest = names;
    while let [first, after @ ..] = rest {
        if is_same_name(first.name, name) {
            return Some(first.value);
        }
        rest = after;
    }
    None
}

/// Whether the count of a line gave a name its value.
pub(crate) fn has_given(names: &[Named], line: usize) -> bool
    ensures { result ≡ has_given (all_named names.now) line }
{
    let mut rest = names;
    while let [first, after @ ..] = rest {
        if first.line == Some(line) {
            return true;
        }
        rest = after;
    }
    false
}

impl Scope<'_> {
    /// The value of a name, if it has one.
    pub(crate) fn value_of(&self, name: &[u8]) -> Option<i64>
        ensures { result ≡ value_in (names_of self.now) name.now }
    {
        match self.tried {
            None => value_in(self.names, name),
            Some(tried) => {
                if is_same_name(tried.name, name) {
                    Some(tried.value)
                } else {
                    value_in(self.names, name)
                }
            }
        }
    }
}

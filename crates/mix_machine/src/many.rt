//! Steps that are done one after the other.
ghost use Rattle.std.specs.Prelude.{◌≡◌, option_map};
ghost use Rattle.mix_machine.specs.Many.{ends_if, watch_in};

use crate::watch::Watch;
use crate::world::World;

/// How steps are done one after the other.
#[derive(Drop)]
pub enum Many {
    /// Nothing stops them.
    Freely,
    /// What is watched does.
    Until(Watch),
}

impl Many {
    /// What is watched, if anything is.
    #[inline(always)]
    pub(crate) fn watch(&self) -> Option<&Watch>
        ensures { option_map (λ w. w.now) result ≡ watch_in self.now }
    {
        match self {
            Many::Freely => None,
            Many::Until(watch) => Some(watch),
        }
    }
}

/// Whether steps end at a machine.
#[inline(always)]
pub(crate) fn is_ended(watch: Option<&Watch>, world: &World) -> bool
    ensures { result ≡ ends_if (option_map (λ w. w.now) watch.entry) world.now }
{
    match watch {
        Some(watch) => watch.stops(world),
        None => false,
    }
}

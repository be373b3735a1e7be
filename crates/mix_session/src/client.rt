//! What a client asks for by values and not by a line: a condition, and what a part is set to.

ghost use Rattle.std.specs.Prelude.{◌≡◌};
ghost use Rattle.mix_session.specs.Client.{condition_at, setting_at};

use crate::condition::Condition;
use crate::fault::Refusal;
use crate::request::{read_condition, read_setting};
use crate::session::Session;
use mix_lines::Words;
use mix_machine::{Change, Part};

impl Session {
    /// The condition that a text names, as after `until` in a script: `A`, `over`, `cell LIST+1`, `unit 18`, `loc LOOP`. It takes no memory.
    pub fn condition(&self, text: &[u8]) -> Result<Condition, Refusal>
        ensures { result ≡ condition_at self.now text.now }
    {
        read_condition(&mut Words::of(text), self.program(), self.here())
    }

    /// The change that sets a part to what a text says, as after the name of the part in a script: a W-value for a register or a cell,
    /// an expression for the location, `on` or `off`, or `L`, `E` or `G`. A unit and the clock are not set. It takes no memory.
    pub fn setting(&self, part: Part, text: &[u8]) -> Result<Change, Refusal>
        ensures { result ≡ setting_at self.now part text.now }
    {
        read_setting(part, &mut Words::of(text), self.program(), self.here())
    }
}

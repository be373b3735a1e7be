//! A line of the console: what it stands for is done, or something is only said of it.

ghost use Rattle.std.specs.Prelude.{◌≡◌, codes, Ok};
ghost use Rattle.mix_refused.specs.Refused.{IfMemory};
ghost use Rattle.rpc_message.specs.Request.{text_of};
ghost use Rattle.mix_dap.specs.Console.{console_asked, console_deed, is_said, line_meant};
ghost use Rattle.dap_asked.specs.Deed.{effect_of_deed, line_deed};
ghost use Rattle.mix_dap.specs.Leaves.{BreaksOff, Does};
ghost use Rattle.mix_dap.specs.Reaction.{console, line_done, said_or_done};
ghost use Rattle.mix_dap.specs.Reacts.{AnsweredOr, Keeps};

use crate::adapter::act::done;
use crate::adapter::{Adapter, Then};
use crate::console::{line_meant, said_of};
use dap_asked::{Deed, Fault, line_deed};
use mix_refused::Refused;
use rpc_message::{Outbox, Request};

impl Adapter {
    // The line of a request.
    pub(crate) fn console(
        &mut self,
        request: &Request,
        out: &mut Outbox,
    ) -> Result<Then, Refused<Fault>>
        ensures keeps { Keeps self.old self.new }
        ensures program { self.new.session.program ≡ self.old.session.program }
        ensures first { self.new.session.timeline.first ≡ self.old.session.timeline.first }
        ensures begun { IfMemory result (BreaksOff (console_asked self.old.session (text_of request.now (codes "expression"))) self.old.session.timeline self.new.session.timeline) }
        ensures reacts { AnsweredOr (console (text_of request.now (codes "expression")) self.old) request.now self.old self.new out.old out.new result }
    {
        match request.text("expression") {
            None => Err(Refused::Fault(Fault::BadArgument)),
            Some(typed) => self.say_or_do(typed.as_bytes(), request, out),
        }
    }

    fn say_or_do(
        &mut self,
        typed: &[u8],
        request: &Request,
        out: &mut Outbox,
    ) -> Result<Then, Refused<Fault>>
        ensures keeps { Keeps self.old self.new }
        ensures program { self.new.session.program ≡ self.old.session.program }
        ensures first { self.new.session.timeline.first ≡ self.old.session.timeline.first }
        ensures begun { IfMemory result (BreaksOff (console_deed self.old.session typed.now) self.old.session.timeline self.new.session.timeline) }
        ensures reacts { AnsweredOr (said_or_done (is_said self.old.session typed.now) (line_meant self.old.session typed.now) self.old) request.now self.old self.new out.old out.new result }
    {
        match said_of(self.alloc, &self.session, typed)? {
            Some(text) => {
                self.tell_said(text.as_slice(), request, out)?;
                Ok(Then::Wait)
            }
            None => {
                let line = line_meant(self.alloc, &self.session, typed)?;
                self.do_line(line.as_slice(), request, out)
            }
        }
    }

    // A line of a script.
    fn do_line(
        &mut self,
        line: &[u8],
        request: &Request,
        out: &mut Outbox,
    ) -> Result<Then, Refused<Fault>>
        ensures keeps { Keeps self.old self.new }
        ensures program { self.new.session.program ≡ self.old.session.program }
        ensures first { self.new.session.timeline.first ≡ self.old.session.timeline.first }
        ensures begun { IfMemory result (BreaksOff (line_deed self.old.session line.now) self.old.session.timeline self.new.session.timeline) }
        ensures reacts { AnsweredOr (line_done (line_deed self.old.session line.now) self.old) request.now self.old self.new out.old out.new result }
    {
        match line_deed(&self.session, line) {
            Ok(deed) => self.do_deed(deed, line, request, out),
            Err(fault) => Err(Refused::Fault(fault)),
        }
    }

    // What it asks for.
    fn do_deed(
        &mut self,
        deed: Deed,
        line: &[u8],
        request: &Request,
        out: &mut Outbox,
    ) -> Result<Then, Refused<Fault>>
        ensures keeps { Keeps self.old self.new }
        ensures program { self.new.session.program ≡ self.old.session.program }
        ensures first { self.new.session.timeline.first ≡ self.old.session.timeline.first }
        ensures does { Does (effect_of_deed deed self.old.session.timeline) self.old.session.timeline self.new.session.timeline result }
        ensures reacts { AnsweredOr (line_done (Ok deed) self.old) request.now self.old self.new out.old out.new result }
    {
        match done(&mut self.session, deed) {
            Ok(answer) => Ok(self.tell_command(line, answer, request, out)?),
            Err(refused) => Err(refused),
        }
    }
}

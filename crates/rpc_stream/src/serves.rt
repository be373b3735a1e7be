//! What answers a client, request by request.

ghost use Rattle.std.specs.Prelude.{◌≡◌, ℕ, List, [], IfOk};
ghost use Rattle.serde_json.specs.Data.{Data};
ghost use Rattle.rpc_message.specs.Message.{waits};

use mix_refused::Memory;
use rpc_message::{Outbox, Request};

/// Whether a talk goes on after a request.
#[derive(Clone, Copy)]
pub enum Turn {
    /// More requests are waited for.
    On,
    /// The client is done.
    Over,
}

/// What answers a client. Each of its messages is sent before the next request is heard.
pub trait Serves {
    ghost use Rattle.rpc_message.specs.declared.request.Request.{Request};
    ghost use Rattle.rpc_stream.specs.declared.serves.Turn.{Turn};

    // These messages answer a request, after one of this number, and so the talk goes on; the last of them has the number at the end.
    ghost serves: { Self × ℕ → Request → List Data → Turn → Self × ℕ → Type 0 };

    /// Answers a request.
    fn serve(&mut self, request: &Request, outbox: &mut Outbox) -> Result<Turn, Memory>
        requires { waits outbox.old ≡ [] }
        ensures { IfOk result (λ turn. serves (self.old, outbox.old.seq) request.now (waits outbox.new) turn (self.new, outbox.new.seq)) };
}

//! Events that have no body.

ghost use Rattle.std.specs.Prelude.{[], ◌∷◌, OnOk};
ghost use Rattle.serde_json.specs.Data.{null};
ghost use Rattle.mix_dap.specs.Events.{AddsEvents};

use dap_asked::nothing;
use mix_refused::Memory;
use rpc_message::Outbox;

/// Tells an event of a name, and no more.
pub(crate) fn tell_event(name: &str, out: &mut Outbox) -> Result<(), Memory>
    ensures { OnOk result (AddsEvents (record { name = name.now; body = null } ∷ []) out.old out.new) }
{
    let body = nothing();
    out.event(name, body)?;
    Ok(())
}

//! The adapter over a stream: requests are heard and answered until the client is done.

ghost use Rattle.std.specs.Prelude.{◌≡◌, ◌≢◌, ◌<◌, ◌≤◌, ◌-◌, ◌^◌, Ok, Err};
ghost use Rattle.mix_stream.specs.Stream.{CountsFailure};
ghost use Rattle.rpc_stream.specs.declared.broken.Broken.{Broken};
ghost use Rattle.rpc_stream.specs.declared.broken.Broken.TheVariants as broken;
ghost use Rattle.mix_dap.specs.Dialogue.{DialogueAs, TellsBroken};

use crate::broken::tell;
use crate::dialogue::Dialogue;
use crate::launch::{FileLibrary, Library};
use mix_stream::{In, Out};
use rpc_stream::Broken;
use std::alloc::Global;
use std::rt::Files;

/// Answers a client until it disconnects or its input ends at the end of a frame, status 0. The status is 2 where the input ends within a frame or
/// has one that is too long, a read or a write fails, or memory is refused; then a line on the error output says so.
pub fn serve<F: Files, R: In, W: Out, E: Out>(
    files: &F,
    alloc: Global,
    input: &mut R,
    out: &mut W,
    errors: &mut E,
) -> u8
    requires in_count { R.failed input.old < 2 ^ 64 - 1 }
    requires out_count { W.failed out.old < 2 ^ 64 - 1 }
    requires errors_count { E.failed errors.old < 2 ^ 64 - 1 }
    ensures range { result ≤ 2 }

    // In a talk that ends well no write failed, and nothing was told on the error output.
    ensures written { result ≢ 2 → W.failed out.new ≡ W.failed out.old }
    ensures quiet { result ≢ 2 → errors.new ≡ errors.old }
    // Status 0: the dialogue came to its end, and nothing failed. Status 2: this broke it off, and a line on the error output tells it; what was sent before
    // is the answers to the frames that were heard, of the last one perhaps a beginning.
    ensures done { result ≢ 2 → (result ≡ 0) × DialogueAs (Ok tt) (R.rest input.old) (R.rest input.new) (W.told out.old) (W.told out.new)
        × (R.failed input.new ≡ R.failed input.old) }
    ensures broken { result ≡ 2 → (why : Broken) × DialogueAs (Err why) (R.rest input.old) (R.rest input.new) (W.told out.old) (W.told out.new)
        × CountsFailure (why ≡ broken.Read) (R.failed input.old) (R.failed input.new) × CountsFailure (why ≡ broken.Write) (W.failed out.old) (W.failed out.new)
        × (E.failed errors.new ≡ E.failed errors.old → TellsBroken why (E.told errors.old) (E.told errors.new)) }
{
    let library = FileLibrary::of(files);
    serve_from(&library, alloc, input, out, errors)
}

/// The same, where texts are found by their names in any library.
pub fn serve_from<L: Library, R: In, W: Out, E: Out>(
    library: &L,
    alloc: Global,
    input: &mut R,
    out: &mut W,
    errors: &mut E,
) -> u8
    requires in_count { R.failed input.old < 2 ^ 64 - 1 }
    requires out_count { W.failed out.old < 2 ^ 64 - 1 }
    requires errors_count { E.failed errors.old < 2 ^ 64 - 1 }
    ensures range { result ≤ 2 }
    ensures written { result ≢ 2 → W.failed out.new ≡ W.failed out.old }
    ensures quiet { result ≢ 2 → errors.new ≡ errors.old }
    // Status 0: the dialogue came to its end, and nothing failed. Status 2: this broke it off, and a line on the error output tells it; what was sent before
    // is the answers to the frames that were heard, of the last one perhaps a beginning.
    ensures done { result ≢ 2 → (result ≡ 0) × DialogueAs (Ok tt) (R.rest input.old) (R.rest input.new) (W.told out.old) (W.told out.new)
        × (R.failed input.new ≡ R.failed input.old) }
    ensures broken { result ≡ 2 → (why : Broken) × DialogueAs (Err why) (R.rest input.old) (R.rest input.new) (W.told out.old) (W.told out.new)
        × CountsFailure (why ≡ broken.Read) (R.failed input.old) (R.failed input.new) × CountsFailure (why ≡ broken.Write) (W.failed out.old) (W.failed out.new)
        × (E.failed errors.new ≡ E.failed errors.old → TellsBroken why (E.told errors.old) (E.told errors.new)) }
{
    match Dialogue::new(alloc).go_on(library, input, out) {
        Ok(()) => 0,
        Err(broken) => {
            tell(alloc, broken, errors);
            2
        }
    }
}

//! The debug adapter for a page, which calls it as a module of WebAssembly: as one function of bytes, and as an engine that stays between two calls.
#![tactic(auto)]

ghost use Rattle.std.specs.Prelude.{◌≡◌, ◌≢◌, ◌↔◌, ◌⊎◌, ◌+◌, ◌++◌, ◌<◌, ◌≤◌, None, Some, true, false, length, take, drop};
ghost use Rattle.rpc_stream.specs.Broken.{broken_text};
ghost use Rattle.rpc_stream.specs.declared.broken.Broken.TheVariants as broken;
ghost use Rattle.mix_dap.specs.Dialogue.{line_of};
ghost use Rattle.page.specs.Engine.{Answered, Closed, Closes, Waits, opened, status_of};
ghost use Rattle.page.specs.Talk.{IsServed, IsBroken, TalksAs, TalksFor, reported_by};

mod engine;
mod handle;
mod held;

use engine::Engine;
use handle::Handle;
use mix_dap::{NoLibrary, serve_from};
use mix_stream::Counted;
use rpc_stream::Broken;
use std::alloc::Global;
use std::mem::replace;

/// The status of what is done.
const DONE: usize = 0;

/// The status where memory is refused.
const MEMORY: usize = 1;

/// The status where messages are no whole frames.
const NO_FRAMES: usize = 2;

/// The status where what there is to give is longer than the room for it.
const NO_ROOM: usize = 3;

/// The status where no engine is open.
const CLOSED: usize = 4;

/// Opens an engine, in which nothing was heard yet. One that was open is closed first. The status is 0, or 1 where memory is refused: then none is open.
#[unsafe(no_mangle)]
pub extern "C" fn engine_open(alloc: Global, handle: &mut Handle) -> usize
    ensures done { result ≡ 0 → handle.new.held.value ≡ Some opened }
    ensures none { result ≢ 0 → handle.new.held.value ≡ None }
    ensures status { (result ≡ 0) ⊎ (result ≡ 1) }
{
    *handle = Handle::none(alloc);
    match Box::new(alloc, Engine::new(alloc)) {
        Ok(engine) => {
            *handle = Handle::of(engine);
            DONE
        }
        Err(_) => MEMORY,
    }
}

/// Answers messages of the client, each in its frame, where the dialogue of the engine is; it is kept for the next call. Status 0: what the client is
/// sent stands at the beginning of `out`, its length in `count`. Status 3: it is longer than the room, which stays as it was; it waits, and a call
/// without messages and with room for it gives it. Status 1 or 2: memory is refused, or the messages end within a frame or have one that is too long;
/// what was sent until then is given if there is room, and the engine is closed. Status 4: no engine is open.
#[unsafe(no_mangle)]
pub extern "C" fn engine_ask(
    alloc: Global,
    handle: &mut Handle,
    messages: &[u8],
    out: &mut [u8],
    count: &mut usize,
) -> usize
    ensures answered { result ≡ 0 → Answered handle.old.held.value handle.new.held.value messages.now out.old out.new count.new }
    ensures waits { result ≡ 3 → Waits handle.old.held.value handle.new.held.value messages.now out.old out.new count.new }
    ensures broken { (result ≡ 1) ⊎ (result ≡ 2) → Closes result handle.old.held.value handle.new.held.value messages.now out.old out.new count.new }
    ensures closed { result ≡ 4 → Closed handle.old.held.value handle.new.held.value out.old out.new count.new }
    ensures status { result ≤ 4 }
{
    match replace(handle, Handle::none(alloc)).into_box() {
        Some(mut engine) => {
            let asked = engine.ask(messages);
            let given = engine.give(out, count);
            match asked {
                Ok(()) => {
                    if given {
                        engine.clear();
                    }
                    *handle = Handle::of(engine);
                    if given { DONE } else { NO_ROOM }
                }
                Err(broken) => status_of(broken),
            }
        }
        None => {
            *count = 0;
            CLOSED
        }
    }
}

// The status of a call in which the dialogue was broken off.
fn status_of(broken: Broken) -> usize
    ensures { result ≡ status_of broken }
{
    match broken {
        Broken::Memory | Broken::Write | Broken::Read => MEMORY,
        Broken::TooLong | Broken::Cut => NO_FRAMES,
    }
}

/// Closes the engine, if one is open.
#[unsafe(no_mangle)]
pub extern "C" fn engine_close(alloc: Global, handle: &mut Handle)
    ensures { handle.new.held.value ≡ None }
{
    drop(replace(handle, Handle::none(alloc)));
}

/// Answers all that a client sends, as `mixrev dap` does with a file that holds it: the same requests, from the first one on, with no files. What the
/// client is sent stands at the beginning of `out`, its length in `count`, and behind it what is told on the error output, its length in `told`. The
/// answer is the status, 0 or 2; or 3 where both together are longer than the room, which then stays as it was. Nothing is kept for the next call.
#[unsafe(no_mangle)]
pub extern "C" fn talk(
    alloc: Global,
    input: &[u8],
    out: &mut [u8],
    count: &mut usize,
    told: &mut usize,
) -> usize
    ensures range { (result ≡ 0) ⊎ (result ≡ 2) ⊎ (result ≡ 3) }
    // The dialogue over the input reached its end, or this broke it off: the room begins with what was sent, and then has what was reported.
    ensures served { result ≡ 0 → IsServed input.now (take count.new out.new) (take told.new (drop count.new out.new)) }
    ensures broken { result ≡ 2 → IsBroken input.now (take count.new out.new) (take told.new (drop count.new out.new)) }
    // Both are longer than the room, of a talk that these lengths are of.
    ensures long { (result ≡ 3) ↔ (length out.old < count.new + told.new) }
    ensures lengths { TalksFor input.now count.new told.new }
    ensures room { result ≢ 3 → count.new + told.new ≤ length out.new }
    ensures rest { result ≢ 3 → drop (count.new + told.new) out.new ≡ drop (count.new + told.new) out.old }
    ensures kept { result ≡ 3 → out.new ≡ out.old }
    ensures quiet { result ≡ 0 → told.new ≡ 0 }
{
    let answer = answered(alloc, input);
    let (sent, reported) = (answer.sent.as_slice(), answer.reported());
    *count = sent.len();
    *told = reported.len();
    if put_both(out, sent, reported) {
        usize::from(answer.status)
    } else {
        NO_ROOM
    }
}

/// What a talk came to: its status, what the client was sent, and what was written to report what broke it off.
struct Answer {
    status: u8,
    sent: Vec<u8>,
    errors: Counted<Vec<u8>>,
}

impl Drop for Answer {
    fn drop(self) {
        let Answer {
            status: _,
            sent: _,
            errors: _,
        } = self;
    }
}

impl Answer {
    // The line that reports what broke the talk off.
    fn reported(&self) -> &[u8]
        ensures { result.now ≡ reported_by self.now.errors.count self.now.errors.inner.items }
    {
        if self.errors.count == 0 {
            self.errors.inner.as_slice()
        } else {
            no_memory()
        }
    }
}

fn no_memory() -> &'static [u8]
    ensures { result.now ≡ line_of (broken_text broken.Memory) }
{
    b"mixrev: T1 out of memory\n"
}

// The talk over all that a client sends.
fn answered(alloc: Global, input: &[u8]) -> Answer
    ensures { TalksAs input.now result.status result.sent.items (reported_by result.errors.count result.errors.inner.items) }
{
    let mut client = Counted::of(input);
    let mut sent = Counted::of(Vec::new(alloc));
    let mut errors = Counted::of(Vec::new(alloc));
    let status = serve_from(&NoLibrary, alloc, &mut client, &mut sent, &mut errors);
    Answer {
        status,
        sent: sent.inner,
        errors,
    }
}

// Puts two texts at the beginning of a room, unless they are longer than it.
#[tactic(auto, using(crate::proofs::TalkLemmas::both_put))]
fn put_both(out: &mut [u8], first: &[u8], second: &[u8]) -> bool
    ensures fits { (result ≡ true) ↔ (length first.now + length second.now ≤ length out.old) }
    ensures put { result ≡ true → out.new ≡ first.now ++ second.now ++ drop (length first.now + length second.now) out.old }
    ensures kept { result ≡ false → out.new ≡ out.old }
{
    let (a, b) = (first.len(), second.len());
    if a <= out.len() && b <= out.len() - a {
        out[..a].copy_from_slice(first);
        out[a..a + b].copy_from_slice(second);
        true
    } else {
        false
    }
}

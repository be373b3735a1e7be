//! A server: what each message of its client does.

ghost use Rattle.std.specs.Prelude.{◌≡◌, ◌≤◌, None, Some, IfOk, IfSome, OnOk, option_map};
ghost use Rattle.serde_json.specs.View.{view};
ghost use Rattle.mix_lsp.specs.Protocol.{id_asked, id_in, message_of, phase_after, phase_at, status_after, status_at, step_named};
ghost use Rattle.mix_lsp.specs.declared.phase.Phase.TheVariants as phase;

use crate::document::{Document, changed, text_among};
use crate::initialize::{abilities, encoding_asked};
use crate::look::{Look, Open};
use crate::params::{message_in, param, text_member, uri_of, version_of};
use crate::phase::{Phase, Step};
use crate::place::Encoding;
use crate::published::{published, withdrawn};
use crate::replies::{Fault, refusal, reply};
use mix_refused::Memory;
use serde_json::Value;
use std::alloc::Global;

/// A language server without a stream.
#[derive(Drop)]
pub struct Server {
    alloc: Global,
    phase: Phase,
    encoding: Encoding,
    documents: Vec<Document>,
}

/// What is sent for a message, if anything is, and the status with which the server ends, if it
/// does.
#[derive(Drop)]
pub struct Answer {
    pub message: Option<Value>,
    pub status: Option<u8>,
}

impl Server {
    /// A server that has heard nothing yet.
    pub fn new(alloc: Global) -> Server
        ensures { result.phase ≡ phase.New }
    {
        Server {
            alloc,
            phase: Phase::New,
            encoding: Encoding::Utf16,
            documents: Vec::new(alloc),
        }
    }

    /// What a frame does, by its body, or none where its header gives no length. Only out of memory
    /// refuses it; then nothing is known of the texts.
    pub fn receive(&mut self, body: Option<&[u8]>) -> Result<Answer, Memory>
        ensures answered { IfOk result (λ a. id_in (option_map view a.message) ≡ id_asked (message_of (option_map (λ b. b.now) body.entry))) }
        ensures phase { OnOk result (self.new.phase ≡ phase_after (message_of (option_map (λ b. b.now) body.entry)) self.old.phase) }
        ensures status { IfOk result (λ a. a.status ≡ status_after (message_of (option_map (λ b. b.now) body.entry)) self.old.phase) }
        ensures bound { IfOk result (λ a. IfSome a.status (λ s. s ≤ 1)) }
    {
        let Some(message) = message_in(self.alloc, body)? else {
            return self.refused(&Value::Null, Fault::NotJson);
        };
        let id = message.get("id");
        match message.get("method").and_then(Value::as_str) {
            Some(method) => match id {
                Some(id) => self.request(method, id, &message),
                None => self.notification(method, &message),
            },
            None if message.get("result").is_some() || message.get("error").is_some() => Ok(
                Answer {
                    message: None,
                    status: None,
                },
            ),
            None => match id {
                Some(id) => self.refused(id, Fault::NotRequest),
                None => self.refused(&Value::Null, Fault::NotRequest),
            },
        }
    }

    fn refused(&self, id: &Value, why: Fault) -> Result<Answer, Memory>
        ensures answered { IfOk result (λ a. id_in (option_map view a.message) ≡ Some (view id.now)) }
        ensures status { IfOk result (λ a. a.status ≡ None) }
    {
        let message = refusal(self.alloc, id, why)?;
        Ok(Answer {
            message: Some(message),
            status: None,
        })
    }

    fn replied(&self, id: &Value, body: Value) -> Result<Answer, Memory>
        ensures answered { IfOk result (λ a. id_in (option_map view a.message) ≡ Some (view id.now)) }
        ensures status { IfOk result (λ a. a.status ≡ None) }
    {
        let message = reply(self.alloc, id, body)?;
        Ok(Answer {
            message: Some(message),
            status: None,
        })
    }

    // A request alters no text.
    fn request(&mut self, method: &str, id: &Value, message: &Value) -> Result<Answer, Memory>
        ensures answered { IfOk result (λ a. id_in (option_map view a.message) ≡ Some (view id.now)) }
        ensures phase { OnOk result (self.new.phase ≡ phase_at self.old.phase (step_named method.now)) }
        ensures status { IfOk result (λ a. a.status ≡ None) }
        ensures texts { self.new.documents ≡ self.old.documents }
    {
        let step = Step::named(method);
        match self.phase {
            Phase::New => match step {
                Step::Initialize => {
                    let encoding = encoding_asked(message);
                    let answer = self.replied(id, abilities(self.alloc, encoding)?)?;
                    self.phase = Phase::Ready;
                    self.encoding = encoding;
                    Ok(answer)
                }
                Step::Shutdown | Step::Exit | Step::Other => self.refused(id, Fault::NotReady),
            },
            Phase::Ready => match step {
                Step::Initialize => self.refused(id, Fault::NotRequest),
                Step::Shutdown => {
                    let answer = self.replied(id, Value::Null)?;
                    self.phase = Phase::Closing;
                    Ok(answer)
                }
                Step::Exit | Step::Other => match Look::named(method) {
                    None => self.refused(id, Fault::NoSuchMethod),
                    Some(look) => match self.looked(look, message)? {
                        Some(body) => self.replied(id, body),
                        None => self.refused(id, Fault::BadParams),
                    },
                },
            },
            Phase::Closing => self.refused(id, Fault::NotRequest),
        }
    }

    // What is shown of a text that is open.
    fn looked(&self, look: Look, message: &Value) -> Result<Option<Value>, Memory> {
        let Some(uri) = uri_of(message) else {
            return Ok(None);
        };
        let Some(text) = text_among(&self.documents, uri) else {
            return Ok(None);
        };
        let open = Open {
            alloc: self.alloc,
            uri,
            encoding: self.encoding,
            text,
        };
        open.shown(look, message)
    }

    fn notification(&mut self, method: &str, message: &Value) -> Result<Answer, Memory>
        ensures answered { IfOk result (λ a. id_in (option_map view a.message) ≡ None) }
        ensures phase { self.new.phase ≡ self.old.phase }
        ensures status { IfOk result (λ a. a.status ≡ status_at self.old.phase (step_named method.now)) }
        ensures bound { IfOk result (λ a. IfSome a.status (λ s. s ≤ 1)) }
    {
        let status = match Step::named(method) {
            Step::Exit => match self.phase {
                Phase::Closing => Some(0),
                Phase::New | Phase::Ready => Some(1),
            },
            Step::Initialize | Step::Shutdown | Step::Other => None,
        };
        let message = match self.phase {
            Phase::Ready => self.told(method, message)?,
            Phase::New | Phase::Closing => None,
        };
        Ok(Answer { message, status })
    }

    // A text is opened, changed or closed, and its diagnostics are told.
    fn told(&mut self, method: &str, message: &Value) -> Result<Option<Value>, Memory>
        ensures unasked { IfOk result (λ m. id_in (option_map view m) ≡ None) }
        ensures phase { self.new.phase ≡ self.old.phase }
    {
        let Some(uri) = uri_of(message) else {
            return Ok(None);
        };
        match method {
            "textDocument/didClose" => {
                let message = withdrawn(self.alloc, uri)?;
                self.close(uri);
                Ok(Some(message))
            }
            "textDocument/didOpen" | "textDocument/didChange" => {
                let Some(text) = self.text_after(method, uri, message)? else {
                    return Ok(None);
                };
                let version = version_of(message);
                let message = published(self.alloc, self.encoding, uri, version, text.as_slice())?;
                self.close(uri);
                let uri = String::from_str(self.alloc, uri)?;
                self.documents.push(Document { uri, text })?;
                Ok(Some(message))
            }
            _ => Ok(None),
        }
    }

    // The text that a message opens, or the open one after its changes.
    fn text_after(
        &self,
        method: &str,
        uri: &str,
        message: &Value,
    ) -> Result<Option<Vec<u8>>, Memory> {
        if method == "textDocument/didOpen" {
            let text = param(message, "textDocument").and_then(|d| text_member(d, "text"));
            return match text {
                Some(text) => Ok(Some(Vec::from_slice(self.alloc, text.as_bytes())?)),
                None => Ok(None),
            };
        }
        let Some(text) = text_among(&self.documents, uri) else {
            return Ok(None);
        };
        match param(message, "contentChanges").and_then(Value::as_array) {
            Some(changes) => {
                let text = changed(self.alloc, self.encoding, text, changes.as_slice())?;
                Ok(Some(text))
            }
            None => Ok(None),
        }
    }

    // Takes the text of a name away.
    fn close(&mut self, uri: &str)
        ensures { self.new.phase ≡ self.old.phase }
    {
        self.documents
            .retain(|document| document.uri.as_str() != uri);
    }
}

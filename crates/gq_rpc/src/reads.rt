//! Messages read: from a body to the message that it is.
ghost use Rattle.std.specs.Prelude.{◌≡◌, codes, IfOk, Some, is_some, ◌||◌};
ghost use Rattle.serde_json.specs.View.{view};
ghost use Rattle.gq_rpc.specs.Decoding.{decoded, message_of};

use crate::messages::Incoming;
use crate::notifications::read_notification;
use crate::parameters::{read_id, read_id_in};
use crate::requests::read_request;
use gq_text::NoMemory;
use serde_json::Value;
use std::alloc::Global;

/// The message that a value is.
pub fn decode(alloc: Global, message: &Value) -> Result<Incoming, NoMemory>
    ensures { IfOk result (λ incoming. incoming ≡ decoded (view message.now)) }
{
    let Some(method) = message.get("method") else {
        if message.get("result").is_some() || message.get("error").is_some() {
            return Ok(Incoming::Ignored);
        }
        return Ok(Incoming::Invalid(read_id_in(alloc, message)?));
    };
    let Some(name) = method.as_str() else {
        return Ok(Incoming::Invalid(read_id_in(alloc, message)?));
    };
    let Some(id) = message.get("id") else {
        return Ok(Incoming::Notification(read_notification(alloc, name, message)?));
    };
    match read_id(alloc, id)? {
        Some(id) => Ok(Incoming::Request(id, read_request(alloc, name, message)?)),
        None => Ok(Incoming::Invalid(None)),
    }
}

/// The message that a body is: a body that is no UTF-8 or no JSON is `NotJson`, and `NoMemory` is answered only where
/// a growth was refused.
pub fn read_message(alloc: Global, body: &[u8]) -> Result<Incoming, NoMemory>
    ensures { IfOk result (λ incoming. incoming ≡ message_of body.now) }
{
    let Ok(text) = std::str::from_utf8(body) else {
        return Ok(Incoming::NotJson);
    };
    match Value::from_str(alloc, text) {
        Ok(value) => decode(alloc, &value),
        Err(e) => {
            if e.is_memory() {
                return Err(NoMemory);
            }
            Ok(Incoming::NotJson)
        }
    }
}

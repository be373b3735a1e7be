//! The kinds of exceptions that stop a run, by the names of their filters.

use crate::points::kinds::{PointKind, unverified, verified};
use mix_refused::Memory;
use mix_session::Condition;
use serde_json::Value;
use std::alloc::Global;

/// Kinds of exceptions: one, for the steps that conflict with a transfer under way.
#[derive(Clone, Copy)]
pub(crate) struct Filters;

impl PointKind for Filters {
    type Point = Condition;

    fn add(
        &self,
        alloc: Global,
        entry: &Value,
        points: &mut Vec<Condition>,
    ) -> Result<Value, Memory> {
        if matches!(entry.as_str(), Some("conflict")) {
            points.extend_from_slice(&[Condition::Conflicts])?;
            Ok(verified(alloc)?.done())
        } else {
            unverified(alloc, "no such filter")
        }
    }
}

//! What is done with all files.

use crate::bad_value::BadValue;
use crate::constants::known;
use crate::entry::Entry;
use crate::request::{Action, Answering, Request};
use base_engine::EngineInfo;
use rhai_base::{ImmutableString, OutOfMemory};
use std::alloc::Global;

/// What the words ask, read.
#[derive(Drop)]
pub(crate) struct Task<'a> {
    pub(crate) alloc: Global,
    pub(crate) request: Request<'a>,
    /// The record with the constants that are known beforehand.
    pub(crate) info: EngineInfo,
    /// The call that a run begins with.
    pub(crate) entry: Option<Entry>,
}

impl<'a> Task<'a> {
    /// What a request asks.
    pub(crate) fn of(alloc: Global, request: Request<'a>) -> Result<Task<'a>, BadValue<'a>> {
        let info = known(alloc, request.constants.as_slice())?;
        let entry = match request.entry {
            Some(text) => Some(Entry::parse(alloc, text)?),
            None => None,
        };
        Ok(Task {
            alloc,
            request,
            info,
            entry,
        })
    }

    /// Where runs are answered by rhai's standard functions, `+=` of an array and a text is asked as such, since `+` joins
    /// the text of the array and the other.
    pub(crate) fn let_arrays_take_texts(&mut self) -> Result<(), OutOfMemory> {
        if self.request.action != Action::Run || self.request.answering != Answering::Standard {
            return Ok(());
        }
        let mut types = Vec::new(self.alloc);
        for name in ["array", "string"] {
            types.push(ImmutableString::new(self.alloc, name)?)?;
        }
        let name = ImmutableString::new(self.alloc, "+=")?;
        self.info.override_operator(name, types)
    }
}

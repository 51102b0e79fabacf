//! Rows of plain forms: an envelope, and that of the plain form of its program.
use crate::programs::class_of;
use anyhow::{Result, bail};
use jsbase_reader::{Envelope, read_bytes};
use jsbase_writer::write_envelope;
use std::alloc::Global;
use swc_base_plain_form::plain_form;

/// The envelope of the plain form of the program of a line.
pub fn answer(alloc: Global, goal: &str, input: &str) -> Result<String> {
    let Ok(envelope) = read_bytes(alloc, class_of(goal)?, input.as_bytes()) else {
        bail!("a line has no such program, or memory was refused");
    };
    let Envelope {
        globals,
        unresolved,
        top,
        tree,
        ..
    } = envelope;
    let plain = plain_form(alloc, tree)?;
    let mut text = write_envelope(alloc, &globals, top, &plain, unresolved)?;
    let _line_feed = text.pop();
    Ok(text)
}

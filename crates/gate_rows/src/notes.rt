//! Comments that only note what is asked of them.
ghost use Rattle.std.specs.Prelude.{◌≡◌, ◌∷◌, ◌++◌, [], OnOk, OnErr};

use serde_json::Value;
use std::alloc::{AllocError, Global};
use std::fmt::Write;
use swc_tree::{BytePos, Comments, Items, Move, NoMemory};

/// Notes moves as long as there is room, and refuses those after.
#[derive(Drop)]
pub struct Notes {
    made: Items<Move>,
    room: usize,
}

/// The room that a row gives.
pub fn room(alloc: Global, input: &str) -> Option<usize> {
    let value = Value::from_str(alloc, input).ok()?;
    usize::try_from(value.get("room")?.as_u64()?).ok()
}

fn add_move(alloc: Global, text: &mut String, made: Move) -> Result<(), AllocError> {
    let one = match made {
        Move::Leading(from, to) => format!(in alloc; "leading {from} {to}, ")?,
        Move::Trailing(from, to) => format!(in alloc; "trailing {from} {to}, ")?,
    };
    text.push_str(one.as_str())
}

impl Notes {
    pub fn new(alloc: Global, room: usize) -> Self {
        Notes {
            made: Items::new(alloc),
            room,
        }
    }

    /// The moves, before what is left.
    pub fn before(&self, alloc: Global, left: &str) -> Result<String, AllocError> {
        let mut text = String::new(alloc);
        for made in self.made.as_slice() {
            add_move(alloc, &mut text, *made)?;
        }
        text.push_str(left)?;
        Ok(text)
    }

    fn note(&mut self, made: Move) -> Result<(), NoMemory>
        ensures made { OnOk result (self.new ≡ record self.old { made = self.old.made ++ made ∷ [] }) }
        ensures refused { OnErr result (self.new ≡ self.old) }
    {
        if self.made.len() >= self.room {
            return Err(NoMemory);
        }
        self.made.push(made)?;
        Ok(())
    }
}

impl Comments for Notes {
    ghost moved = { λ old m new. new ≡ record old { made = old.made ++ m ∷ [] } };

    fn move_leading(&mut self, from: BytePos, to: BytePos) -> Result<(), NoMemory> {
        self.note(Move::Leading(from, to))
    }

    fn move_trailing(&mut self, from: BytePos, to: BytePos) -> Result<(), NoMemory> {
        self.note(Move::Trailing(from, to))
    }
}

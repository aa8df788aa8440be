//! Lines with the line feeds that end them.
ghost use Rattle.std.specs.Prelude.{◌≡◌, ◌++◌, ◌∷◌, [], OnOk, OnErr};
ghost use Rattle.script_text.specs.LineTexts.{fabric_line};

use crate::Listener;
use arrayvec::ArrayString;
use fabric_core::{Config, EventRef};
use script_text::{write_event, write_fabric};
use std::alloc::AllocError;

/// The line of the event that was heard last, with the line feed that ends it.
#[derive(Drop)]
pub(crate) struct EventLine {
    text: ArrayString<512>,
}

impl EventLine {
    /// Empty, before the first event.
    pub(crate) fn new() -> EventLine {
        EventLine {
            text: ArrayString::new(),
        }
    }

    /// Its bytes.
    pub(crate) fn bytes(&self) -> &[u8]
        ensures { result.now ≡ self.now.text.bytes }
    {
        self.text.as_bytes()
    }
}

impl Listener for EventLine {
    ghost use Rattle.std.specs.Prelude.{◌≡◌, ◌++◌, ◌∷◌, []};
    ghost use Rattle.script_text.specs.LineTexts.{event_line};

    ghost hears = { λ before event after. after.text.bytes ≡ event_line event ++ 10 ∷ [] };

    fn hear(&mut self, event: &EventRef<'_>) {
        self.text.clear();
        write_event(event, &mut self.text);
        self.text.push_str("\n");
    }
}

/// Adds the line that makes a fabric, and the line feed that ends it.
pub(crate) fn put_fabric(config: &Config, out: &mut Vec<u8>) -> Result<(), AllocError>
    ensures ok { OnOk result (out.new.items ≡ out.old.items ++ (fabric_line config.now ++ 10 ∷ [])) }
    ensures err { OnErr result (out.new.items ≡ out.old.items) }
{
    let mut line = ArrayString::<512>::new();
    write_fabric(config, &mut line);
    line.push_str("\n");
    out.extend_from_slice(line.as_bytes())
}

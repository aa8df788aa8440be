//! What a session keeps of its fabric's events.
use arrayvec::ArrayString;
use fabric_core::{EventRef, Fabric, SeenRef};
use fabric_settle::Witness;
use history_words::Record;
use script_text::write_seen;
use seq_memory::Keeper;
use std::alloc::AllocError;

/// The text of what was seen last.
#[derive(Drop)]
pub(crate) struct LastSeen {
    pub(crate) text: ArrayString<512>,
}

impl LastSeen {
    ghost use Rattle.std.specs.Prelude.{◌≡◌};
    ghost use Rattle.script_text.specs.Texts.{seen_text};

    fn put(&mut self, event: &EventRef<'_>, seen: &SeenRef<'_>)
        ensures { self.new.text.bytes ≡ seen_text event.now seen.now }
    {
        self.text.clear();
        write_seen(event, seen, &mut self.text);
    }
}

/// The records of a trace, where one is kept, and the text of what was seen last.
#[derive(Drop)]
pub(crate) struct SessionWitness {
    pub(crate) records: Vec<Record>,
    pub(crate) last: LastSeen,
}

/// Without a trace. Nothing grows.
impl Witness for LastSeen {
    ghost use Rattle.std.specs.Prelude.{ℕ, List};
    ghost use Rattle.fabric_settle.specs.Keeping.{Always, Never};
    ghost use Rattle.c_fabric.specs.SessionView.{last_text};

    ghost Kept = { List ℕ };

    ghost kept = { λ last. last.text.bytes };

    ghost saw = { λ line. last_text };

    ghost has_room = { λ event last. Always event };

    ghost needs_room = { Never };

    ghost may_lose = { Never };

    fn make_room(&mut self, _event: &EventRef<'_>) -> Result<(), AllocError> {
        Ok(())
    }

    fn saw<K: Keeper>(
        &mut self,
        _line: u64,
        event: &EventRef<'_>,
        seen: &SeenRef<'_>,
        _fabric: &Fabric<K>,
    ) -> Result<(), AllocError> {
        self.put(event, seen);
        Ok(())
    }
}

/// With a trace.
impl Witness for SessionWitness {
    ghost use Rattle.std.specs.Prelude.{◌<◌, vec_len, vec_capacity};
    ghost use Rattle.fabric_settle.specs.Keeping.{IsRecorded, Never};
    ghost use Rattle.c_fabric.specs.SessionView.{KeptView, kept_of};

    ghost Kept = { KeptView };

    ghost kept = { λ w. record { records = w.records.items; text = w.last.text.bytes } };

    ghost saw = { λ line. kept_of };

    ghost has_room = { λ event w. IsRecorded event → vec_len w.records < vec_capacity w.records };

    ghost needs_room = { IsRecorded };

    ghost may_lose = { Never };

    fn make_room(&mut self, event: &EventRef<'_>) -> Result<(), AllocError> {
        self.records.make_room(event)
    }

    fn saw<K: Keeper>(
        &mut self,
        line: u64,
        event: &EventRef<'_>,
        seen: &SeenRef<'_>,
        fabric: &Fabric<K>,
    ) -> Result<(), AllocError> {
        self.last.put(event, seen);
        self.records.saw(line, event, seen, fabric)
    }
}

/// What a settlement keeps: the records of its events, in the trace where one is kept, and apart.
#[derive(Drop)]
pub(crate) struct SettleWitness {
    pub(crate) is_traced: bool,
    pub(crate) trace: Vec<Record>,
    pub(crate) collected: Vec<Record>,
}

impl Witness for SettleWitness {
    ghost use Rattle.std.specs.Prelude.{◌≡◌, ◌<◌, true, vec_len, vec_capacity};
    ghost use Rattle.fabric_settle.specs.Keeping.{IsRecorded, Never};
    ghost use Rattle.c_fabric.specs.SessionView.{SettledView, settled_of};

    ghost Kept = { SettledView };

    ghost kept = { λ w. record { is_traced = w.is_traced; records = w.trace.items; collected = w.collected.items } };

    ghost saw = { λ line. settled_of };

    ghost has_room = { λ event w. IsRecorded event → (w.is_traced ≡ true →
        vec_len w.trace < vec_capacity w.trace) × (vec_len w.collected < vec_capacity w.collected) };

    ghost needs_room = { IsRecorded };

    ghost may_lose = { Never };

    fn make_room(&mut self, event: &EventRef<'_>) -> Result<(), AllocError> {
        if self.is_traced {
            self.trace.make_room(event)?;
        }
        self.collected.make_room(event)
    }

    fn saw<K: Keeper>(
        &mut self,
        line: u64,
        event: &EventRef<'_>,
        seen: &SeenRef<'_>,
        fabric: &Fabric<K>,
    ) -> Result<(), AllocError> {
        if self.is_traced {
            self.trace.saw(line, event, seen, fabric)?;
        }
        self.collected.saw(line, event, seen, fabric)
    }
}

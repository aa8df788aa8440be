//! The script of a storm, a block of events at a time.
ghost use Rattle.std.specs.Prelude.{◌≡◌, ◌≢◌, ◌+◌, ◌*◌, ◌++◌, ◌∷◌, [], ℕ, List, IfOk, IfErr, OnOk, OnErr};
ghost use Rattle.std.specs.Io.KnownBytes.{Appends};
ghost use Rattle.line_loop.specs.Run.{IsBeginning};
ghost use Rattle.fabric_steps.specs.Event.{Event};
ghost use Rattle.fabric_core.specs.Config.{IsNewWith};
ghost use Rattle.script_text.specs.LineTexts.{event_line};
ghost use Rattle.parameters.specs.declared.storm.Storm.{Storm};
ghost use Rattle.parameters.specs.Ranges.{IsStorm};
ghost use Rattle.generate_engine.specs.Arrivals.{IsCounted};
ghost use Rattle.generate_engine.specs.Choice.{IsChosen};
ghost use Rattle.generate_engine.specs.Script.{config_of, IsUnderWay, BeginsScript, IsWhole, IsPart};

use crate::Chooser;
use crate::laws::counted_events_are_fated;
use crate::lines::{EventLine, put_fabric};
use fabric_core::{Config, Fabric};
use flow_control::LaneCredits;
use line_loop::{EngineFault, write_out};
use parameters::Storm;
use seq_memory::Counted;
use std::alloc::{AllocError, Global};
use std::io::Write;

/// How many events are written at once.
const BLOCK: u64 = 256;

/// The fabric of a storm.
fn config_of(storm: &Storm) -> Config
    requires { IsStorm storm.now }
    ensures { result ≡ config_of storm.now }
{
    Config {
        requesters: storm.requesters as u8,
        base: 0,
        size: 4096,
        credits: LaneCredits::DEFAULT,
        block: storm.block as u16,
    }
}

/// A new fabric. The only fault is being out of memory.
fn make(config: Config, alloc: Global) -> Result<Fabric<Counted>, AllocError>
    ensures { IfOk result (λ f. IsNewWith config f) }
{
    match Fabric::with_keeper(config, alloc) {
        Ok(fabric) => Ok(fabric),
        Err(_) => Err(AllocError),
    }
}

/// A storm that is written while it happens.
#[derive(Drop)]
struct Generator {
    fabric: Fabric<Counted>,
    chooser: Chooser,
    line: EventLine,
    /// The lines that are to be written.
    pending: Vec<u8>,
}

impl Generator {
    fn new(storm: &Storm, alloc: Global) -> Result<Generator, AllocError>
        requires { IsStorm storm.now }
        ensures { IfOk result (λ g. IsUnderWay storm.now 0 g.pending.items g.fabric g.chooser) }
    {
        counted_events_are_fated();
        let config = config_of(storm);
        let fabric = make(config, alloc)?;
        let mut pending = Vec::new(alloc);
        put_fabric(&config, &mut pending)?;
        let chooser = Chooser::new(storm);
        Ok(Generator {
            fabric,
            chooser,
            line: EventLine::new(),
            pending,
        })
    }

    /// One event more.
    fn put_next(&mut self) -> Result<(), AllocError>
        ensures ok { OnOk result ((event : Event) × IsChosen self.old.fabric event self.new.fabric
            × IsCounted self.old.chooser.arrived event self.new.chooser.arrived
            × (self.new.pending.items ≡ self.old.pending.items ++ (event_line event ++ 10 ∷ []))) }
        ensures err { OnErr result (self.new.pending.items ≡ self.old.pending.items) }
    {
        self.chooser.happen_next(&mut self.fabric, &mut self.line)?;
        self.pending.extend_from_slice(self.line.bytes())
    }

    /// So many events more. Also where one fails, the lines of those before it are there.
    fn fill(&mut self, count: u64) -> Result<(), AllocError>
        ensures ok { OnOk result ((s : Storm) (n : ℕ) (written : List ℕ)
            → IsUnderWay s n (written ++ self.old.pending.items) self.old.fabric self.old.chooser
            → IsUnderWay s (n + count) (written ++ self.new.pending.items) self.new.fabric self.new.chooser) }
        ensures err { OnErr result ((s : Storm) (n : ℕ) (written : List ℕ)
            → IsUnderWay s n (written ++ self.old.pending.items) self.old.fabric self.old.chooser
            → BeginsScript s (n + count) (written ++ self.new.pending.items)) }
    {
        counted_events_are_fated();
        for _event in 0..count {
            self.put_next()?;
        }
        Ok(())
    }

    /// Writes the pending lines.
    fn flush<W: Write>(&mut self, writer: &mut W) -> Result<(), EngineFault>
        ensures text { OnOk result (Appends (W.contents writer.old) (W.contents writer.new) self.old.pending.items) }
        ensures pending { OnOk result (self.new.pending.items ≡ []) }
        ensures fabric { self.new.fabric ≡ self.old.fabric }
        ensures chooser { self.new.chooser ≡ self.old.chooser }
        ensures fault { IfErr result (λ f. f ≡ EngineFault.Write) }
        ensures part { OnErr result ((done : List ℕ) × IsBeginning done self.old.pending.items
            × Appends (W.contents writer.old) (W.contents writer.new) done) }
    {
        write_out(writer, self.pending.as_slice())?;
        self.pending.clear();
        Ok(())
    }

    /// So many events more, and the lines of all written.
    fn advance<W: Write>(&mut self, count: u64, writer: &mut W) -> Result<(), EngineFault>
        ensures ok { OnOk result ((text : List ℕ) × Appends (W.contents writer.old) (W.contents writer.new) text
            × ((s : Storm) (n : ℕ) (written : List ℕ)
            → IsUnderWay s n (written ++ self.old.pending.items) self.old.fabric self.old.chooser
            → IsUnderWay s (n + count) (written ++ text) self.new.fabric self.new.chooser)) }
        ensures pending { OnOk result (self.new.pending.items ≡ []) }
        ensures fault { IfErr result (λ f. f ≢ EngineFault.Read) }
        ensures err { OnErr result ((done : List ℕ) × Appends (W.contents writer.old) (W.contents writer.new) done
            × ((s : Storm) (n : ℕ) (written : List ℕ)
            → IsUnderWay s n (written ++ self.old.pending.items) self.old.fabric self.old.chooser
            → BeginsScript s (n + count) (written ++ done))) }
    {
        let filled = self.fill(count);
        self.flush(writer)?;
        filled?;
        Ok(())
    }

    /// So many blocks more.
    fn put_blocks<W: Write>(&mut self, count: u64, writer: &mut W) -> Result<(), EngineFault>
        ensures ok { OnOk result ((text : List ℕ) × Appends (W.contents writer.old) (W.contents writer.new) text
            × ((s : Storm) (n : ℕ) (written : List ℕ)
            → IsUnderWay s n (written ++ self.old.pending.items) self.old.fabric self.old.chooser
            → IsUnderWay s (n + count * 256) ((written ++ text) ++ self.new.pending.items) self.new.fabric self.new.chooser)) }
        ensures fault { IfErr result (λ f. f ≢ EngineFault.Read) }
        ensures err { OnErr result ((done : List ℕ) × Appends (W.contents writer.old) (W.contents writer.new) done
            × ((s : Storm) (n : ℕ) (written : List ℕ)
            → IsUnderWay s n (written ++ self.old.pending.items) self.old.fabric self.old.chooser
            → BeginsScript s (n + count * 256) (written ++ done))) }
    {
        for _block in 0..count {
            self.advance(BLOCK, writer)?;
        }
        Ok(())
    }

    /// So many events more, the lines written a block at a time.
    fn put_all<W: Write>(&mut self, count: u64, writer: &mut W) -> Result<(), EngineFault>
        ensures ok { OnOk result ((text : List ℕ) × Appends (W.contents writer.old) (W.contents writer.new) text
            × ((s : Storm)
            → IsUnderWay s 0 self.old.pending.items self.old.fabric self.old.chooser
            → IsUnderWay s count text self.new.fabric self.new.chooser)) }
        ensures fault { IfErr result (λ f. f ≢ EngineFault.Read) }
        ensures err { OnErr result ((done : List ℕ) × Appends (W.contents writer.old) (W.contents writer.new) done
            × ((s : Storm)
            → IsUnderWay s 0 self.old.pending.items self.old.fabric self.old.chooser
            → BeginsScript s count done)) }
    {
        self.put_blocks(count / BLOCK, writer)?;
        self.advance(count % BLOCK, writer)
    }
}

/// Writes the script of a storm: a line for its fabric, and one for each of its events, which happened to that fabric
/// in turn. Each packet and DLLP has the fate that the storm's plan gives to its count on its lane. `Ok` is the exit
/// status, 0. After an `Err`, which is out of memory or the writer's, what was written is nothing or a prefix of
/// such a script.
pub fn run_generate<W: Write>(
    alloc: Global,
    storm: &Storm,
    writer: &mut W,
) -> Result<u8, EngineFault>
    requires { IsStorm storm.now }
    ensures status { IfOk result (λ status. status ≡ 0) }
    ensures ok { OnOk result (IsWhole storm.now (W.contents writer.old) (W.contents writer.new)) }
    ensures fault { IfErr result (λ f. f ≢ EngineFault.Read) }
    ensures part { OnErr result (IsPart storm.now (W.contents writer.old) (W.contents writer.new)) }
{
    let mut generator = Generator::new(storm, alloc)?;
    match generator.put_all(storm.events, writer) {
        Ok(()) => Ok(0),
        Err(fault) => Err(fault),
    }
}

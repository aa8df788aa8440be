//! A sweep under way.
ghost use Rattle.std.specs.Prelude.{◌≡◌, ◌≢◌, ◌⊎◌, ◌≤◌, ◌<◌, ◌+◌, ◌-◌, ◌^◌, ◌++◌, [], ℕ, List, true, false, fold, length, OnOk, OnErr, IfOk, IfErr};
ghost use Rattle.std.specs.Io.KnownBytes.{Appends};
ghost use Rattle.line_loop.specs.Run.{IsBeginning};
ghost use Rattle.sweep_engine.specs.declared.piping.Said.{Said};
ghost use Rattle.sweep_engine.specs.Ranges.{IsSweep};
ghost use Rattle.sweep_engine.specs.Pipe.{AreFound, AreSaid};
ghost use Rattle.sweep_engine.specs.Sweep.{after_said, none_said, seeds_in, whole_text, Stands, Begins};

use crate::judging::{Batch, found_in};
use crate::options::Sweep;
use crate::piping::Said;
use crate::telling::{put_failure, put_last};
use line_loop::{EngineFault, write_out};
use std::alloc::{AllocError, Global};
use std::io::Write;
use std::marker::Model;
use std::thread::Threads;

/// A sweep whose lines are written while it goes on.
#[derive(Drop)]
pub(crate) struct Sweeper {
    alloc: Global,
    /// How many seeds were ok, so far.
    ok: u64,
    /// The exit status so far.
    status: u8,
    /// Whether no more is told.
    has_ended: bool,
    /// The lines that are to be written.
    pending: Vec<u8>,
}

impl Model for Sweeper {
    ghost use Rattle.sweep_engine.specs.Sweep.{Swept};

    ghost Value = { Swept };

    ghost view = { λ s. record { ok = s.ok; text = s.pending.items; status = s.status; has_ended = s.has_ended } };
}

impl Sweeper {
    pub(crate) fn new(alloc: Global) -> Sweeper
        ensures { result ≡ none_said }
    {
        Sweeper {
            alloc,
            ok: 0,
            status: 0,
            has_ended: false,
            pending: Vec::new(alloc),
        }
    }

    /// Notes what is said of a seed more.
    fn tell(&mut self, sweep: &Sweep, said: &Said) -> Result<(), AllocError>
        ensures ok { OnOk result (self.new ≡ after_said sweep.now self.old said.now) }
        ensures err { OnErr result (self.new ≡ self.old) }
    {
        if self.has_ended {
            return Ok(());
        }
        if said.is_ok {
            self.ok = self.ok.saturating_add(1);
            return Ok(());
        }
        put_failure(self.alloc, sweep, said, &mut self.pending)?;
        self.status = 1;
        self.has_ended = !sweep.keeps_going;
        Ok(())
    }

    /// Notes what is said of seeds more, in their order, up to one of which nothing was found.
    pub(crate) fn tell_all(
        &mut self,
        sweep: &Sweep,
        found: &[Option<Said>],
    ) -> Result<(), EngineFault>
        ensures told { (saids : List Said) × OnOk result (length saids ≡ length found.now) × (length saids ≤ length found.now)
            × (self.new ≡ fold (after_said sweep.now) self.old saids)
            × ((first : ℕ) → AreFound sweep.now first found.now → AreSaid sweep.now first saids) }
        ensures fault { IfErr result (λ f. f ≡ EngineFault.Memory) }
    {
        for one in found {
            let Some(said) = one else {
                return Err(EngineFault::Memory);
            };
            self.tell(sweep, said)?;
        }
        Ok(())
    }

    /// Writes the pending lines.
    fn flush<W: Write>(&mut self, writer: &mut W) -> Result<(), EngineFault>
        ensures text { OnOk result (Appends (W.contents writer.old) (W.contents writer.new) self.old.text) }
        ensures left { OnOk result (self.new ≡ record self.old { text = [] }) }
        ensures fault { IfErr result (λ f. f ≡ EngineFault.Write) }
        ensures part { OnErr result ((done : List ℕ) × IsBeginning done self.old.text
            × Appends (W.contents writer.old) (W.contents writer.new) done) }
    {
        write_out(writer, self.pending.as_slice())?;
        self.pending.clear();
        Ok(())
    }

    /// Does the seeds of a batch more, and writes the lines of those that fail.
    fn advance<R: Threads + Sync, W: Write>(
        &mut self,
        rt: &R,
        batch: Batch<'_>,
        writer: &mut W,
    ) -> Result<(), EngineFault>
        requires sweep { IsSweep batch.sweep.now }
        requires workers { 0 < batch.workers }
        requires fits { batch.first + batch.count ≤ 2 ^ 64 }
        requires going { self.old.has_ended ≡ false }
        ensures ok { OnOk result ((text : List ℕ) × Appends (W.contents writer.old) (W.contents writer.new) text
            × ((n : ℕ) (written : List ℕ) → batch.entry.first ≡ batch.entry.sweep.now.storm.seed + n → Stands batch.entry.sweep.now n written self.old
            → Stands batch.entry.sweep.now (n + batch.entry.count) (written ++ text) self.new)) }
        ensures fault { IfErr result (λ f. f ≢ EngineFault.Read) }
        ensures err { OnErr result ((done : List ℕ) × Appends (W.contents writer.old) (W.contents writer.new) done
            × ((n : ℕ) (written : List ℕ) → batch.entry.first ≡ batch.entry.sweep.now.storm.seed + n → Stands batch.entry.sweep.now n written self.old
            → Begins batch.entry.sweep.now (n + batch.entry.count) (written ++ done))) }
    {
        let found = found_in(rt, self.alloc, batch)?;
        let told = self.tell_all(batch.sweep, found.as_slice());
        self.flush(writer)?;
        told
    }

    /// Notes the last line.
    fn tell_last(&mut self) -> Result<(), AllocError>
        ensures ok { OnOk result (self.new ≡ record self.old { text = whole_text self.old }) }
        ensures err { OnErr result (self.new ≡ self.old) }
    {
        put_last(self.ok, &mut self.pending)
    }

    /// Writes the last line, and gives the exit status.
    pub(crate) fn end<W: Write>(&mut self, writer: &mut W) -> Result<u8, EngineFault>
        ensures status { IfOk result (λ exit. exit ≡ self.old.status) }
        ensures text { OnOk result (Appends (W.contents writer.old) (W.contents writer.new) (whole_text self.old)) }
        ensures fault { IfErr result (λ f. f ≢ EngineFault.Read) }
        ensures part { OnErr result ((done : List ℕ) × IsBeginning done (whole_text self.old)
            × Appends (W.contents writer.old) (W.contents writer.new) done) }
    {
        self.tell_last()?;
        self.flush(writer)?;
        Ok(self.status)
    }
}

/// How a sweep is cut into batches.
#[derive(Clone, Copy)]
pub(crate) struct Batches<'a> {
    pub sweep: &'a Sweep,
    /// The sweep's last seed.
    pub last: u64,
    /// How many seeds a batch has.
    pub size: u64,
    /// How many threads do them.
    pub workers: u64,
}

impl Sweeper {
    /// Does whole batches, as many as there are or up to the end of the sweep, and gives the seed that comes next.
    fn put_batches<R: Threads + Sync, W: Write>(
        &mut self,
        rt: &R,
        batches: Batches<'_>,
        writer: &mut W,
    ) -> Result<u64, EngineFault>
        requires sweep { IsSweep batches.sweep.now }
        requires last { batches.last ≡ batches.sweep.now.last }
        requires size { (0 < batches.size) × (batches.size ≤ 16384) }
        requires workers { 0 < batches.workers }
        ensures next { IfOk result (λ next. (batches.entry.sweep.now.storm.seed ≤ next) × (next ≤ batches.entry.sweep.now.last)
            × ((self.new.has_ended ≡ true) ⊎ (batches.entry.sweep.now.last - next < batches.entry.size))) }
        ensures ok { IfOk result (λ next. (text : List ℕ) × Appends (W.contents writer.old) (W.contents writer.new) text
            × (Stands batches.entry.sweep.now 0 [] self.old → Stands batches.entry.sweep.now (next - batches.entry.sweep.now.storm.seed) text self.new)) }
        ensures fault { IfErr result (λ f. f ≢ EngineFault.Read) }
        ensures err { OnErr result ((done : List ℕ) × Appends (W.contents writer.old) (W.contents writer.new) done
            × (Stands batches.entry.sweep.now 0 [] self.old → Begins batches.entry.sweep.now (seeds_in batches.entry.sweep.now) done)) }
    {
        let Batches {
            sweep,
            last,
            size,
            workers,
        } = batches;
        let mut next = sweep.storm.seed;
        while last - next >= size {
            if self.has_ended {
                return Ok(next);
            }
            let batch = Batch {
                sweep,
                first: next,
                count: size as usize,
                workers: workers as usize,
            };
            self.advance(rt, batch, writer)?;
            next += size;
        }
        Ok(next)
    }

    /// Does all seeds, or those up to the first that fails.
    pub(crate) fn put_all<R: Threads + Sync, W: Write>(
        &mut self,
        rt: &R,
        batches: Batches<'_>,
        writer: &mut W,
    ) -> Result<(), EngineFault>
        requires sweep { IsSweep batches.sweep.now }
        requires last { batches.last ≡ batches.sweep.now.last }
        requires size { (0 < batches.size) × (batches.size ≤ 16384) }
        requires workers { 0 < batches.workers }
        ensures ok { OnOk result ((text : List ℕ) × Appends (W.contents writer.old) (W.contents writer.new) text
            × (Stands batches.entry.sweep.now 0 [] self.old → Stands batches.entry.sweep.now (seeds_in batches.entry.sweep.now) text self.new)) }
        ensures fault { IfErr result (λ f. f ≢ EngineFault.Read) }
        ensures err { OnErr result ((done : List ℕ) × Appends (W.contents writer.old) (W.contents writer.new) done
            × (Stands batches.entry.sweep.now 0 [] self.old → Begins batches.entry.sweep.now (seeds_in batches.entry.sweep.now) done)) }
    {
        let next = self.put_batches(rt, batches, writer)?;
        if self.has_ended {
            return Ok(());
        }
        let batch = Batch {
            sweep: batches.sweep,
            first: next,
            count: (batches.last - next).min(batches.size - 1) as usize + 1,
            workers: batches.workers as usize,
        };
        self.advance(rt, batch, writer)
    }
}

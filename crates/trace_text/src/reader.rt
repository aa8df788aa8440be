//! Reading a trace line by line.
ghost use Rattle.std.specs.Prelude.{◌≡◌, true, OnOk, OnErr, IfOk, IfErr, Ok, Err};
ghost use Rattle.record_text.specs.declared.fault.ReadFaultKind.{ReadFaultKind};
ghost use Rattle.trace_text.specs.TraceReaderView as reads;

use crate::form::TraceForm;
use record_text::{Cause, ReadFault, RecordReader};
use std::alloc::{AllocError, Global};
use std::marker::Model;
use trace_store::TraceStore;

/// A trace and a history, as far as their text was read.
#[derive(Drop)]
pub struct TraceReader {
    reader: RecordReader<TraceForm>,
}

impl Model for TraceReader {
    ghost use Rattle.trace_text.specs.TraceReaderView.{TraceReaderView};

    ghost Value = { TraceReaderView };

    ghost view = { λ s. s.reader };
}

impl TraceReader {
    /// Nothing was read.
    pub fn new(alloc: Global) -> TraceReader
        ensures { result ≡ reads.nothing_read }
    {
        TraceReader {
            reader: RecordReader::new(TraceForm::new(alloc)),
        }
    }

    /// The first fault of the lines so far.
    pub fn fault(&self) -> Option<ReadFault>
        ensures { result ≡ self.now.fault }
    {
        self.reader.fault()
    }

    /// What is wrong at the fault, for people; or if there is none, that the text ends here.
    pub fn cause(&self) -> Cause {
        self.reader.cause()
    }

    /// That memory ran out in the line that comes next.
    pub fn out_of_memory(&self) -> ReadFault
        ensures { result ≡ reads.fault_at_next self.now ReadFaultKind.Memory }
    {
        self.reader.out_of_memory()
    }

    /// Takes a line, without the line feed and the carriage return that end it. Behind a fault
    /// nothing is read. `Err` tells that an allocation failed, for a record or an entry behind no
    /// fault; nothing was taken then.
    #[inline(always)]
    pub fn line(&mut self, line: &[u8]) -> Result<(), AllocError>
        ensures ok { OnOk result (self.new ≡ reads.after_line self.old line.now) }
        ensures err { OnErr result (self.new ≡ self.old) }
        ensures adds { OnErr result (reads.adds_one self.old line.now ≡ true) }
    {
        self.reader.line(line)
    }

    /// Takes a line of more bytes than a line may have: 512 before its line feed.
    pub fn long_line(&mut self)
        ensures { self.new ≡ reads.after_long_line self.old }
    {
        self.reader.long_line();
    }

    /// What was read, or the first fault.
    pub fn end(self) -> Result<TraceStore, ReadFault>
        ensures ok { IfOk result (λ t. reads.at_end self ≡ Ok t) }
        ensures err { IfErr result (λ f. reads.at_end self ≡ Err f) }
    {
        match self.reader.end() {
            Ok(form) => Ok(form.claim()),
            Err(fault) => Err(fault),
        }
    }
}

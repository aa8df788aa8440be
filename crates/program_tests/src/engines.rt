//! The engines without the program's words: each over a reader and a writer of memory.
use chart_engine::run_chart;
use chart_links::ChartWindow;
use config_core::Setup;
use draw_engine::run_draw;
use endpoint_engine::{EndpointOptions, run_endpoint};
use history_picture::Window;
use line_loop::EngineFault;
use linked_engine::{FiniteCredits, LinkedOptions, run_linked};
use log_pieces::Granularity;
use packet_engine::{run_decode, run_encode, run_tlp};
use search_engine::{SearchOptions, Stages, run_search, run_search_with, run_search_with_reasons};
use seq_memory::Extent;
use std::alloc::Global;
use std::io::sink;
use trace_engine::{run_check, run_upgrade};

/// An engine, with options of its own.
#[derive(Clone, Copy)]
enum Engine {
    Tlp,
    Endpoint,
    Linked,
    Decode,
    Encode,
    Check,
    CheckClocked,
    Search,
    SearchWith,
    SearchWithReasons,
    Draw,
    Upgrade,
    Chart,
}

/// An endpoint of 4096 bytes.
fn endpoint() -> EndpointOptions {
    EndpointOptions {
        setup: Setup::new(4096, 0x1234, 0x7C1E).unwrap(),
        is_traced: false,
    }
}

/// The same behind a link.
fn linked() -> Option<LinkedOptions> {
    Some(LinkedOptions {
        device: endpoint(),
        credits: FiniteCredits::new(16, 64, 16, 16)?,
        has_crc: false,
    })
}

/// All events of a script.
const ALL: ChartWindow = ChartWindow {
    lane: None,
    from: 1,
    to: u64::MAX,
    is_brief: false,
    has_levels: false,
};

/// All points of a trace.
const WHOLE: Window = Window {
    from: 0,
    to: u64::MAX,
};

/// A search by pieces of 4 bytes.
const PIECES: SearchOptions = SearchOptions {
    limit: 1000,
    granularity: Granularity::Four,
    stages: Stages::Hidden,
};

/// What a run of an engine answered. It says nothing of what it does: the test looks.
fn run(
    engine: Engine,
    alloc: Global,
    reader: &mut &[u8],
    out: &mut Vec<u8>,
) -> Result<u8, EngineFault> {
    match engine {
        Engine::Tlp => run_tlp(
            alloc,
            Extent::new(0, 4096, 64).unwrap(),
            reader,
            out,
            &mut sink(),
        ),
        Engine::Endpoint => run_endpoint(alloc, endpoint(), reader, out, &mut sink()),
        Engine::Linked => match linked() {
            Some(options) => run_linked(alloc, options, reader, out, &mut sink()),
            None => Err(EngineFault::Memory),
        },
        Engine::Decode => run_decode(alloc, reader, out, &mut sink()),
        Engine::Encode => run_encode(alloc, reader, out, &mut sink()),
        Engine::Check => run_check(alloc, false, reader, out, &mut sink()),
        Engine::CheckClocked => run_check(alloc, true, reader, out, &mut sink()),
        Engine::Search => run_search(alloc, 1000, reader, out),
        Engine::SearchWith => run_search_with(alloc, PIECES, reader, out, &mut sink()),
        Engine::SearchWithReasons => run_search_with_reasons(alloc, 1000, reader, out, &mut sink()),
        Engine::Draw => run_draw(alloc, WHOLE, reader, out, &mut sink()),
        Engine::Upgrade => run_upgrade(alloc, reader, out, &mut sink()),
        Engine::Chart => run_chart(alloc, ALL, reader, out, &mut sink()),
    }
}

/// An engine, an input, what is written of it, and the exit status.
type Row = (Engine, &'static str, &'static str, u8);

const LOG: &str =
    "pciex-log 1\nmemory 0 4096 64\nsub 1 0 add 40 07000000\nans 1 0 data 07000000\nend\n";

static ROWS: [Row; 13] = [
    (
        Engine::Tlp,
        "4C000001 01000500 00000040 07000000\n",
        "4A000001 00000004 01000500 00000000\n",
        0,
    ),
    (
        Engine::Endpoint,
        "tlp 04000001 0008630F 01000000\nnext\n",
        "accept\ntlp 4A000001 00000004 00086300 34121E7C\n",
        0,
    ),
    (Engine::Linked, "up\nnext\n", "up\ndllp 40040040\n", 0),
    (Engine::Decode, "80008010\n", "update p 2 16\n", 0),
    (Engine::Encode, "nak FFF\n", "10000FFF\n", 0),
    // The history has no entry, and the record says that it has one.
    (
        Engine::CheckClocked,
        "pciex-trace 2\nmemory 0 4096 64\nsub 1 0 1 add 40 07000000\nhistory\nend\n",
        "flaw 13 Clock 0\n",
        1,
    ),
    (
        Engine::Check,
        "pciex-trace 2\nmemory 0 4096 64\nhistory\nend\n",
        "ok\n",
        0,
    ),
    (Engine::Search, LOG, "none 1\n", 1),
    (Engine::SearchWith, LOG, "none 1\n", 1),
    (Engine::SearchWithReasons, LOG, "none 1\n", 1),
    (
        Engine::Draw,
        "<&>\n",
        "<svg xmlns=\"http://www.w3.org/2000/svg\" width=\"640\" height=\"40\" viewBox=\"0 0 640 40\" font-family=\"monospace\"><rect x=\"0\" y=\"0\" width=\"640\" height=\"40\" fill=\"#FFFFFF\" stroke=\"#FFFFFF\" stroke-width=\"0\"><title></title></rect><text x=\"10\" y=\"22\" font-size=\"16\" fill=\"#C00000\" text-anchor=\"start\" pointer-events=\"none\">fault 1 Head</text></svg>\n",
        1,
    ),
    (
        Engine::Upgrade,
        "pciex-trace 1\nmemory 0 4096\nhistory\nend\n",
        "pciex-trace 2\nmemory 0 4096 64\nhistory\nend\n",
        0,
    ),
    (
        Engine::Chart,
        "",
        "<svg xmlns=\"http://www.w3.org/2000/svg\" width=\"640\" height=\"40\" viewBox=\"0 0 640 40\" font-family=\"monospace\"><rect x=\"0\" y=\"0\" width=\"640\" height=\"40\" fill=\"#FFFFFF\" stroke=\"#FFFFFF\" stroke-width=\"0\"><title></title></rect><text x=\"10\" y=\"22\" font-size=\"16\" fill=\"#000000\" text-anchor=\"start\" pointer-events=\"none\">the script ran to its end</text></svg>\n",
        0,
    ),
];

/// Whether the engine writes the row's text, and has its exit status.
fn is_written(alloc: Global, row: &Row) -> bool {
    let (engine, input, want, exit) = *row;
    let mut reader = input.as_bytes();
    let mut out = Vec::new(alloc);
    run(engine, alloc, &mut reader, &mut out) == Ok(exit) && out.as_slice() == want.as_bytes()
}

/// The input of the first row that goes otherwise.
fn first_wrong(alloc: Global) -> Option<&'static str> {
    for row in &ROWS {
        if !is_written(alloc, row) {
            return Some(row.1);
        }
    }
    None
}

#[test]
fn engines_over_memory(rt: HostRuntime) {
    assert_eq!(rt; first_wrong(rt.alloc()), None);
}

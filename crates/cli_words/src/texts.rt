//! The texts of `--help`. A line has at most 92 characters.

/// What the help of a subcommand says.
#[derive(Clone, Copy)]
pub(crate) struct Help {
    /// One line, for the list of subcommands and for `-h`.
    pub(crate) about: &'static str,
    /// The paragraphs of `--help`.
    pub(crate) long: &'static str,
    /// An example with what it prints.
    pub(crate) example: &'static str,
}

pub(crate) static ABOUT: &str =
    "A proved PCI Express memory device, fabric simulator and history checker";

pub(crate) static AFTER: &str =
    "Subcommands other than 'generate', 'sweep' and 'run' read standard input, or the file that
a word behind them names. Results are printed on standard output, and the reasons of faults
and refusals on standard error.
'pciex <COMMAND> --help' has the details and an example.

Exit status:
  0  success
  1  a fault, a flaw, a refusal, 'none', a failing seed or a halt was printed, or reading,
     writing or memory failed
  2  wrong arguments
  3  a part of 'run' used up its turns, or 'search' its limit or its work";

pub(crate) static TLP: Help = Help {
    about: "Answer request TLPs with their completions",
    long: "Answers request TLPs with their completions.

Each line of the input is one TLP in hexadecimal digits. Spaces, empty lines and lines that
begin with '#' are ignored. The result of a request is one line: its completion in
hexadecimal digits, or '-' for a posted write. The result of any other line is 'fault' and
the reason.",
    example: "Example:
  $ echo '4C000001 01000500 00000040 07000000' | pciex tlp
  4A000001 00000004 01000500 00000000",
};

pub(crate) static ENDPOINT: Help = Help {
    about: "Act as a memory device that a root complex brings up",
    long: "Acts as a memory device that a root complex enumerates and uses: a Type 0 function with
configuration registers and a memory behind BAR 0.

Each line of the input has a result, printed before more is read. 'tlp' and a TLP in
hexadecimal digits: 'accept', then a word if the TLP is ignored, unsupported, unexpected or
malformed. A posted request acts at once, the others wait. 'next': the oldest request acts,
a read by one block of 128 bytes, and the result is 'tlp' and its completion; '-' if none
waits. 'reset': registers are as at first, and the memory stays. 'trace': what '--trace'
recorded. Empty lines and lines that begin with '#' are ignored. The result of any other
line is 'fault Line'.

With '--link' it is behind its end of a link, and has no 'tlp' and 'reset'. 'packet', a
sequence number and a TLP in digits, and 'good' or 'failed': what the receiver makes of it.
'dllp' and a DLLP in the same way. 'next': what is sent next. 'up' and 'down', 'refresh',
'replay' and 'retrained': the physical layer and the timers. 'state': the state of the link.",
    example: "Example:
  $ printf 'tlp 04000001 0008630F 01000000\\nnext\\n' | pciex endpoint
  accept
  tlp 4A000001 00000004 00086300 34121E7C",
};

pub(crate) static DECODE: Help = Help {
    about: "Print TLPs and DLLPs in words",
    long: "Prints TLPs and DLLPs in words.

Each line of the input is one packet in hexadecimal digits: a DLLP if it has four bytes,
otherwise a TLP. Spaces, empty lines and lines that begin with '#' are ignored. The result
is one line: the packet in words, or 'fault' and the reason.",
    example: "Example:
  $ echo '4C000001 01000500 00000040 07000000' | pciex decode
  add 40 07000000 from 0100 tag 05",
};

pub(crate) static ENCODE: Help = Help {
    about: "Print the bytes of packets that are written in words",
    long: "Prints the bytes of packets that are written in words.

Each line of the input is one packet in the words that 'decode' prints. Empty lines and
lines that begin with '#' are ignored. The result is one line: the canonical bytes of the
packet in hexadecimal digits, or 'fault' and the reason.",
    example: "Example:
  $ echo 'update p 2 16' | pciex encode
  80008010",
};

pub(crate) static CHECK: Help = Help {
    about: "Check whether a history explains a trace",
    long: "Checks whether a history explains a trace: whether each requester received what one
sequential memory returns, with each request at one point between the n of its submission
and that of its answer, and posted writes in order. The n of a record is the number of
requests that had acted by then; it is taken as true unless '--clocked' is given.

The input is one trace with its history, as 'step --trace' prints it. The result is one
line: 'ok'; 'flaw' with the number, the name and the place of the first flaw; or 'fault'
with the first line that can't be read and the reason.",
    example: "Example:
  $ pciex generate --seed 7 --events 1000 | pciex step --trace | pciex check
  ok",
};

pub(crate) static SEARCH: Help = Help {
    about: "Search for a history that explains what requesters saw",
    long: "Searches for a history that explains what requesters saw of a memory that reports none.

The input is one log: what requesters submitted and were answered, in the order of time. A
trace may stand in its place; its history is ignored. Where it has one, as those that 'step'
prints, take 'check': it is much faster. The result is a trace with a history, to which
'check' says 'ok'; or one line: 'none' with the number of a record up to which no history
explains the log; 'limit' or 'work' if that bound ended the search and nothing is known;
'flaw' with the first bookkeeping mistake; or 'fault' with the first line that can't be read
and the reason. With '--core' a short log may stand in place of 'none'.

Each read and write acts as a whole, which PCI Express doesn't require of several DW. With
'--granularity' it acts in pieces.",
    example: "Example:
  $ pciex generate --seed 7 --events 300 | pciex step --trace | pciex search | pciex check
  ok",
};

pub(crate) static DRAW: Help = Help {
    about: "Draw a trace and its history as an SVG picture",
    long: "Draws a trace and its history as an SVG picture.

The input is one trace with its history, as 'check' reads it. The points of the history go
from left to right. Each requester has a row and each request a bar from its submission to
its answer; the first flaw is red. Of more than 60 points, 60 are drawn, up to 20 of them
behind the first flaw, unless '--from' or '--to' chooses others. If the trace can't be
read, the picture says why.",
    example: "Example:
  $ pciex generate --seed 7 --events 200 | pciex step --trace | pciex draw > history.svg",
};

pub(crate) static UPGRADE: Help = Help {
    about: "Rewrite a trace in version 2",
    long: "Rewrites a trace of version 1 or 2 in version 2.

The history is not checked. The result of a trace that can't be read is 'fault' with the
first line that can't be read and the reason.",
    example: "Example:
  $ printf 'pciex-trace 1\\nmemory 0 4096\\nhistory\\nend\\n' | pciex upgrade
  pciex-trace 2
  memory 0 4096 64
  history
  end",
};

pub(crate) static STEP: Help = Help {
    about: "Run a script of events on a fabric",
    long: "Runs a script of events on a fabric: one memory, a switch, one to seven requesters, and the
links between them.

The first line describes the fabric, as in 'fabric 1 0 4096'. Each line after it is one
event, or 'settle', which runs the fabric until nothing moves. The result of an event is one
line; 'settle' prints what is collected, and then 'settled'. The run ends at the first line
that can't be read ('fault') or that the fabric refuses ('refused').",
    example: "Example:
  $ printf 'fabric 1 0 4096\\nsubmit 1 add 40 07000000\\nsettle\\n' | pciex step
  sub 1 0
  ans 1 0 data 00000000
  settled",
};

pub(crate) static CHART: Help = Help {
    about: "Draw what a script does on the links of a fabric",
    long: "Draws what a script does on the links of a fabric, as an SVG chart.

The input is one script, as 'step' reads it. Each event of a link that the options choose
has a row, 1000 at most, and so has each 'settle', above its events. Left out are the Acks and
credit updates that tell nothing new. Above the rows stands the fault or the refusal that ended
the run, in red, or that the script ran to its end.",
    example: "Example:
  $ pciex chart examples/first_script.txt > chart.svg",
};

pub(crate) static GENERATE: Help = Help {
    about: "Write a random stress script for 'step'",
    long: "Writes a random stress script for 'step', in which the fabric accepts each event.

Requests of all kinds go to a few addresses, and packets and DLLPs are lost and corrupted.
The same arguments give the same script on every machine.",
    example: "Example:
  $ pciex generate --seed 7 --events 10000 --lose 8 | pciex step --trace | pciex check
  ok",
};

pub(crate) static SWEEP: Help = Help {
    about: "Run and check the stress scripts of many seeds",
    long: "Runs and checks the stress scripts of many seeds, in threads.

Each seed is done as 'generate', 'step --trace' and 'check' do it in a pipe. The result of a
seed that fails is two lines: 'failed', the seed and what 'check' prints; and the pipe, which
prints the same. The last line is 'ok' and the number of seeds that don't fail. The output
is in the order of seeds, and the same for any number of threads.",
    example: "Example:
  $ pciex sweep --seeds 1..200 --events 1000 --lose 8 --corrupt 9
  ok 200",
};

pub(crate) static RUN: Help = Help {
    about: "Count with worker threads over lossy links, and check the history",
    long: "Counts with worker threads over lossy links, and checks the history.

Each requester adds 1 to one word of the memory --each times, on a thread of its own. The
other parts, which are the ends of the links, the switch and the memory, share up to
--workers threads. The result is four lines: 'answered', 'history' and 'word' with their
numbers, and 'check ok'; or 'halt' and the name of what ended the run.",
    example: "Example:
  $ pciex run --requesters 2 --each 1000 --lose 3
  answered 2000
  history 2000
  word 2000
  check ok",
};

pub(crate) static BASE: &str =
    "First address of the memory, 1 to 16 hexadecimal digits, a multiple of 80h;
the memory ends at 2^64 or below [default: 0]";

pub(crate) static SIZE: &str =
    "Memory size in bytes, 128 to 1048576, a multiple of 128 [default: 4096]";

pub(crate) static BLOCK: &str =
    "Block size in bytes, 64 or 128; a request that crosses the end of an
aligned block completes with Completer Abort [default: 64]";

pub(crate) static MEMORY: &str =
    "Memory size in bytes, a power of two from 4096 to 1048576 [default: 4096]";

pub(crate) static ID: &str =
    "Vendor ID and Device ID, four hexadecimal digits each [default: 1234:7C1E]";

pub(crate) static RECORD: &str = "Record what acts on the memory, for the line 'trace'";

pub(crate) static LINK: &str = "Act behind an end of a link: packets and DLLPs in place of TLPs";

pub(crate) static CRC: &str = "With --link: packets and DLLPs have their CRC behind them";

pub(crate) static CREDITS: &str =
    "With --link: PH,PD,NPH,NPD, the credits that it advertises [default: 16,64,16,16]";

pub(crate) static LIMIT: &str = "Number of choices to look at, 1 to 1000000000 [default: 1000000]";

pub(crate) static WORK: &str =
    "Work to do before giving up, 1 to 1000000000000: about as many steps, or requests
looked at for one; the default takes about half a minute [default: 300000000]";

pub(crate) static CORE: &str =
    "Print, in place of 'none', a short log of the answers that contradict each other
and of the requests that have to do with them, if it is proved that this log has no
history";

pub(crate) static PICTURE: &str =
    "Print a picture, in SVG, in place of the answer: that of the trace and its history,
as 'draw' does, or of the log in place of 'none', with the last answer, what is expected
there, and what it contradicts; not with '--core'";

pub(crate) static GRANULARITY: &str =
    "Bytes of a read or a write that act at once, in naturally aligned pieces: 4, 8,
16, 64 or whole; the history that is printed is one of pieces [default: whole]";

pub(crate) static STAGES: &str =
    "Print on standard error how many records were read, and after two seconds, then
ever more rarely, how many choices were looked at; on by default for 10000 records
or more if standard error is a terminal";

pub(crate) static FROM: &str = "First point to draw, a length of the history [default: 0]";

pub(crate) static TO: &str =
    "Last point to draw, at least --from [default: the length of the history]";

pub(crate) static LANE: &str =
    "Lane whose events alone to draw: up1 to up7, down1 to down7, in or out";

pub(crate) static FIRST_LINE: &str = "First line of the script to draw [default: 1]";

pub(crate) static LAST_LINE: &str =
    "Last line of the script to draw, at least --from [default: the last one]";

pub(crate) static ALL: &str = "Draw the Acks and credit updates that tell nothing new, too";

pub(crate) static LEVELS: &str =
    "Draw the levels of each lane's queue, replay buffer and credits behind the results";

pub(crate) static CLOCKED: &str =
    "Also test the n: none falls, exceeds the history's length or is above its request's index";

pub(crate) static TRACE: &str = "Print the trace and its history in place of the results";

pub(crate) static KEEP_GOING: &str =
    "Continue after a refused event; the exit status is 1 all the same";

pub(crate) static ECHO: &str = "Print each result after its line, as in 'transmit up1 -> sent 000'";

pub(crate) static SEED: &str = "Seed of the random choices, 0 to 18446744073709551615";

pub(crate) static SEEDS: &str =
    "First and last seed, as in 1..1000; a seed is 0 to 18446744073709551615";

pub(crate) static WITH_CLOCK: &str = "Also test the n of each trace, as 'check --clocked' does";

pub(crate) static MORE_SEEDS: &str =
    "Continue after a seed that fails; the exit status is 1 all the same";

pub(crate) static THREADS: &str = "Number of threads, 1 to 64 [default: the number of processors]";

pub(crate) static EVENTS: &str = "Number of events, 0 to 1000000000";

pub(crate) static SOME_REQUESTERS: &str = "Number of requesters, 1 to 7 [default: 3]";

pub(crate) static REQUESTERS: &str = "Number of requesters, 1 to 7";

pub(crate) static EACH: &str = "Number of additions of each requester, 0 to 100000";

pub(crate) const LOSE: &str = "Lose one in COUNT packets and DLLPs, 0 to 65536; 0 loses none
[default: 0]";

pub(crate) const CORRUPT: &str =
    "Corrupt one in COUNT packets and DLLPs, 0 to 65536; 0 corrupts none
[default: 0]";

pub(crate) static TURNS: &str = "Limit of calls and records for each part, 1 to 1000000000
[default: 50000000]";

pub(crate) static WORKERS: &str =
    "Number of threads that the parts other than requesters share, 1 to 64
[default: twice the number of processors]";

pub(crate) static PROGRESS: &str = "Print the number of answers on standard error, ever more rarely;
on by default if standard error is a terminal";

//! A run of each subcommand by the words of its command line: what is written, what is told, and the exit status. Together
//! they call the functions that the program is made of; all other worked rows are in `rows/`, for the program as it is built.
use crate::runs::{Row, Written, first_wrong};

/// A comment, and a line of 513 bytes.
const LONG_LINE: &str = "#\n\
xxxxxxxxxxxxxxxxxxxxxxxxxxxxxxxxxxxxxxxxxxxxxxxxxxxxxxxxxxxxxxxxxxxxxxxxxxxxxxxxxxxxxxxxxxxxxxxxxxxxxxxxxxxxxxxxxx\
xxxxxxxxxxxxxxxxxxxxxxxxxxxxxxxxxxxxxxxxxxxxxxxxxxxxxxxxxxxxxxxxxxxxxxxxxxxxxxxxxxxxxxxxxxxxxxxxxxxxxxxxxxxxxxxxxx\
xxxxxxxxxxxxxxxxxxxxxxxxxxxxxxxxxxxxxxxxxxxxxxxxxxxxxxxxxxxxxxxxxxxxxxxxxxxxxxxxxxxxxxxxxxxxxxxxxxxxxxxxxxxxxxxxxx\
xxxxxxxxxxxxxxxxxxxxxxxxxxxxxxxxxxxxxxxxxxxxxxxxxxxxxxxxxxxxxxxxxxxxxxxxxxxxxxxxxxxxxxxxxxxxxxxxxxxxxxxxxxxxxxxxxx\
xxxxxxxxxxxxxxxxxxxxxxxxxxxxxxxxxxxxxxxxxxxxxxxxxxxxxxxxx\n";

static ENDPOINTS: [Row; 4] = [
    Row {
        name: "requests and a packet that is too short",
        words: &["pciex", "tlp"],
        input: "00000002 01000CFF 0000003C\n4C0000\n",
        written: Written::Text("0A000000 00008008 01000C3C\nfault 1 Short\n"),
        told: "pciex: line 2: Short (3 bytes, and a header has 12, or 16 where Fmt says so)\n",
        status: 1,
    },
    Row {
        name: "an endpoint without a trace",
        words: &["pciex", "endpoint", "--id=abcd:EF01", "--size", "1048576"],
        input: "tlp 04000001 0008630F 01000000\nnext\ntrace\n",
        written: Written::Text("accept\ntlp 4A000001 00000004 00086300 CDAB01EF\nfault Line\n"),
        told: "pciex: line 3: nothing is recorded without --trace\n",
        status: 1,
    },
    Row {
        name: "an endpoint with a trace",
        words: &["pciex", "endpoint", "--trace"],
        input: "\
tlp 44000001 0008690F 01000010 0000DCFE
tlp 44000001 0008640F 01000004 06000000
next
next
tlp 40000001 0008000F FEDC0040 01000000
tlp 00000001 0008650F FEDC0040
next
reset
trace
",
        written: Written::Text(
            "\
accept
accept
tlp 0A000000 01000004 00086900
tlp 0A000000 01000004 00086400
accept
accept
tlp 4A000001 01000004 00086540 01000000
reset
pciex-trace 2
memory 0 4096 128
sub 1 0 0 write 40 F 0 01000000
sub 1 1 1 read 40 1 F 0
ans 1 1 2 data 01000000
history
ent 1 0 write 40 F 0 01000000
ent 1 1 read 40 1 F 0
end
",
        ),
        told: "",
        status: 0,
    },
    Row {
        name: "a link's packets with CRCs",
        words: &["pciex", "endpoint", "--link", "--crc"],
        input: "up\nnext\ndllp 40080080 F35A\ndllp 60000000 D892\npacket 0000\npacket 0000 04000001 good\n",
        written: Written::Text("up\ndllp 40040040 F88E\ntook\ntook\ndrop\nfault Line\n"),
        told: "pciex: line 6, column 22: 'good' where a word of hexadecimal digits is expected (two a byte, no prefix)\n",
        status: 1,
    },
];

/// The next rows: a test of few is cheaper to prove.
static WORDS: [Row; 4] = [
    Row {
        name: "a link that replays, with a trace",
        words: &[
            "pciex",
            "endpoint",
            "--link",
            "--trace",
            "--credits",
            "16,64,16,16",
        ],
        input: "\
up
next
next
next
dllp 40080080 good
dllp 50080020 good
dllp 60000000 good
next
next
next
dllp C0080080 good
packet 0000 44000001 0008690F 01000010 0000DCFE good
packet 0001 44000001 0008640F 01000004 06000000 failed
packet 0001 44000001 0008640F 01000004 06000000 good
packet 0002 40000001 0008000F FEDC0040 01000000 good
packet 0003 00000001 0008650F FEDC0040 good
next
next
next
next
next
next
dllp 00000000 good
replay
retrained
next
refresh
state
down
trace
reset
",
        written: Written::Text(
            "\
up
dllp 40040040
dllp 50040010
dllp 60000000
took
took
took
dllp C0040040
dllp D0040010
dllp E0000000
took
accept
nak
accept
accept
accept
dllp 00000003
dllp 80044041
dllp 9004C012
packet 0000 0A000000 01000004 00086900
packet 0001 0A000000 01000004 00086400
packet 0002 4A000001 01000004 00086540 01000000
took
replay 2
retrained
packet 0001 0A000000 01000004 00086400
refresh
active expects 004 sends 003 unacknowledged 2 waiting 0
down
pciex-trace 2
memory 0 4096 128
sub 1 0 0 write 40 F 0 01000000
sub 1 1 1 read 40 1 F 0
ans 1 1 2 data 01000000
history
ent 1 0 write 40 F 0 01000000
ent 1 1 read 40 1 F 0
end
fault Line
",
        ),
        told: "pciex: line 31, column 1: 'reset' where a line is expected (packet <bytes>, dllp <bytes>, next, up, down, refresh, replay, retrained, state, trace)\n",
        status: 1,
    },
    Row {
        name: "packets' words, and two that no packet has",
        words: &["pciex", "encode"],
        input: "\
ack ABC
completion sc 0102 to 0100 tag 05 by 0000 count 4 lower 00
write 80 C 3 A1A2A3A4B1B2B3B4 from 0100 tag 07
swap 40 000102030405060708090A0B0C0D0E0F from 0100 tag 05
",
        written: Written::Text(
            "\
00000ABC
fault 9 LengthMismatch
40000002 0100073C 00000080 A1A2A3A4 B1B2B3B4
fault 12 OperandSize
",
        ),
        told: "\
pciex: line 2: 'completion sc 0102 to 0100 tag 05 by 0000 count 4 lower 00' is refused: LengthMismatch (a read has 1 to 1024 DW, and data are whole DW)
pciex: line 4: 'swap 40 000102030405060708090A0B0C0D0E0F from 0100 tag 05' is refused: OperandSize (FetchAdd and Swap have operands of 4 or 8 bytes, CAS of 4, 8 or 16)
",
        status: 1,
    },
    Row {
        name: "a packet's bytes, and two that no packet has",
        words: &["pciex", "decode"],
        input: "80008010\n80400000\n4C0\n",
        written: Written::Text("update p 2 16\nfault 3 Scaled\nfault hex\n"),
        told: "\
pciex: line 2: Scaled (four bytes are read as a DLLP)
pciex: line 3: an odd number of hexadecimal digits (two a byte)
",
        status: 1,
    },
    Row {
        name: "a line of 513 bytes in a trace",
        words: &["pciex", "check"],
        input: LONG_LINE,
        written: Written::Text("fault 2 Head\n"),
        told: "pciex: line 2, column 513: more where the line's end is expected (a line has 512 bytes at most)\n",
        status: 1,
    },
];

/// The next rows: a test of few is cheaper to prove.
static TRACES: [Row; 4] = [
    Row {
        name: "a trace of version 1",
        words: &["pciex", "upgrade"],
        input: "pciex-trace 1\nmemory 0 4096\nsub 1 0 0 add 40 07000000\nhistory\nend\n",
        written: Written::Text(
            "pciex-trace 2\nmemory 0 4096 64\nsub 1 0 0 add 40 07000000\nhistory\nend\n",
        ),
        told: "",
        status: 0,
    },
    Row {
        name: "a line of 513 bytes that no trace begins with",
        words: &["pciex", "upgrade"],
        input: LONG_LINE,
        written: Written::Text("fault 2 Head\n"),
        told: "pciex: line 2, column 513: more where the line's end is expected (a line has 512 bytes at most)\n",
        status: 1,
    },
    Row {
        name: "a script that goes on after a refusal and a fault",
        words: &["pciex", "step", "--keep-going", "--echo"],
        input: "fabric 1 0 4096\ncollect 1\nsubmit 1 add 40 01000000\nsettle\nserve x\n",
        written: Written::Text(
            "\
collect 1 -> refused 2 Idle
submit 1 add 40 01000000 -> sub 1 0
settle -> ans 1 0 data 00000000
settle -> settled
fault 5 Script
",
        ),
        told: "\
pciex: line 2: 'collect 1' is refused: Idle (there is nothing to send, deliver, replay, retrain or collect)
pciex: line 5, column 7: 'x' where a position is expected (0 or more)
",
        status: 1,
    },
    Row {
        name: "a request that acts, in a trace",
        words: &["pciex", "step", "--trace"],
        input: "fabric 1 0 4096\nsubmit 1 add 40 07000000\nsettle\n",
        written: Written::Text(
            "\
pciex-trace 2
memory 0 4096 64
sub 1 0 0 add 40 07000000
ans 1 0 1 data 00000000
history
ent 1 0 add 40 07000000
end
",
        ),
        told: "",
        status: 0,
    },
];

/// The next rows: a test of few is cheaper to prove.
static STORMS: [Row; 4] = [
    Row {
        name: "a log that tells when a request was done",
        words: &["pciex", "search", "--limit", "1000"],
        input: "pciex-log 2\nmemory 0 4096 64\nsub 1 0 add 1000 01000000\nans 1 0 done\nend\n",
        written: Written::Text(
            "\
pciex-trace 2
memory 0 4096 64
sub 1 0 0 add 1000 01000000
ans 1 0 1 ur
history
ent 1 0 add 1000 01000000
end
",
        ),
        told: "",
        status: 0,
    },
    Row {
        name: "a block that no memory has",
        words: &["pciex", "search"],
        input: "pciex-log 1\nmemory 0 4096 96\n",
        written: Written::Text("fault 2 Line\n"),
        told: "pciex: line 2, column 15: '96' where a block is expected (64, 128)\n",
        status: 1,
    },
    Row {
        name: "a storm",
        words: &[
            "pciex",
            "generate",
            "--seed",
            "1",
            "--events",
            "14",
            "--requesters",
            "2",
        ],
        input: "",
        written: Written::Text(
            "\
fabric 2 0 4096 16 64 16 16 16 64 block 64
submit 1 swap 400 00000000
submit 1 write 400 F F E935939924A3DF21
dllp out ack
deliver-dllp out good
dllp down1 ack
submit 2 cas 30 7475FBA3E715B2A1 0300000000000000
transmit up2
submit 1 write FF0 F 0 7DC47070
dllp up1 np
dllp down1 cpl
deliver-dllp up1 good
dllp down1 ack
dllp down2 cpl
transmit up1
",
        ),
        told: "",
        status: 0,
    },
    Row {
        name: "storms of three seeds",
        words: &[
            "pciex",
            "sweep",
            "--seeds",
            "1..3",
            "--events=20",
            "--keep-going",
        ],
        input: "",
        written: Written::Text("ok 3\n"),
        told: "",
        status: 0,
    },
];

/// The next rows: a test of few is cheaper to prove.
static RUNS: [Row; 3] = [
    Row {
        name: "a run of three requesters",
        words: &["pciex", "run", "--requesters", "3", "--each=20"],
        input: "",
        written: Written::Text("answered 60\nhistory 60\nword 60\ncheck ok\n"),
        told: "",
        status: 0,
    },
    Row {
        name: "a run over a wire on which no packet is good",
        words: &[
            "pciex",
            "run",
            "--requesters",
            "1",
            "--each",
            "1",
            "--corrupt",
            "1",
            "--turns",
            "1000",
        ],
        input: "",
        written: Written::Text("halt Turns\n"),
        told: "",
        status: 3,
    },
    Row {
        name: "an answer to nothing, which has no picture",
        words: &["pciex", "search", "--draw"],
        input: "pciex-log 1\nmemory 0 4096 64\nans 1 0 ur\nend\n",
        written: Written::Text("flaw 5 Unasked 0\n"),
        told: "pciex: record 0 is line 3: an answer to request 0 of requester 1, which was not submitted before\n",
        status: 1,
    },
];

#[test]
fn packets_and_endpoints(rt: HostRuntime) {
    assert_eq!(rt; first_wrong(&rt, rt.alloc(), &ENDPOINTS), None);
}

#[test]
fn links_and_words(rt: HostRuntime) {
    assert_eq!(rt; first_wrong(&rt, rt.alloc(), &WORDS), None);
}

#[test]
fn traces_and_scripts(rt: HostRuntime) {
    assert_eq!(rt; first_wrong(&rt, rt.alloc(), &TRACES), None);
}

#[test]
fn answers_and_storms(rt: HostRuntime) {
    assert_eq!(rt; first_wrong(&rt, rt.alloc(), &STORMS), None);
}

#[test]
fn runs_of_threads(rt: HostRuntime) {
    assert_eq!(rt; first_wrong(&rt, rt.alloc(), &RUNS), None);
}

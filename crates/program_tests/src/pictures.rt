//! A picture of each kind, by parts of it.
use crate::runs::{Row, Written, first_wrong};

static PICTURES: [Row; 7] = [
    Row {
        name: "a trace with a flaw",
        words: &["pciex", "draw", "--from", "0", "--to", "1"],
        input: "\
pciex-trace 2
memory 0 4096 64
sub 1 0 0 read 40 1 F 0
ans 1 0 1 data 00000001
history
ent 1 0 read 40 1 F 0
end
",
        written: Written::Parts(&[
            "fill=\"#C00000\" text-anchor=\"start\" pointer-events=\"none\">flaw 10 Reply 1 (line 4)</text>",
            "stroke=\"#C00000\" stroke-width=\"3\"><title>request 1:0 ",
            "text-anchor=\"start\" pointer-events=\"none\">data 00000001, expected 00000000</text>",
            "fill=\"#C00000\" text-anchor=\"middle\" pointer-events=\"none\">Reply</text>",
        ]),
        told: "pciex: record 1 is line 4: data 00000001 where data 00000000 is expected; entry 0, line 6\n",
        status: 1,
    },
    Row {
        name: "a text that is no trace",
        words: &["pciex", "draw"],
        input: "<&>\n",
        written: Written::Parts(&[
            "width=\"640\" height=\"40\"",
            ">fault 1 Head</text></svg>\n",
        ]),
        told: "pciex: line 1, column 1: '<&>' where the head is expected (pciex-trace 1, pciex-trace 2; step --trace prints one)\n",
        status: 1,
    },
    // Requester 1 writes data and then a doorbell, twice. Requester 2 reads the second doorbell, and after that the first data.
    Row {
        name: "a doorbell that overtook its data",
        words: &["pciex", "search", "--draw"],
        input: "\
pciex-log 1
memory 0 4096 64
sub 1 0 write 100 F 0 11111111
sub 1 1 write 200 F 0 01000000
sub 2 0 read 200 1 F 0
ans 2 0 data 01000000
sub 2 1 read 100 1 F 0
ans 2 1 data 11111111
sub 1 2 write 100 F 0 22222222
sub 1 3 write 200 F 0 02000000
sub 2 2 read 200 1 F 0
ans 2 2 data 02000000
sub 2 3 read 100 1 F 0
ans 2 3 data 11111111
end
",
        written: Written::Parts(&[
            ">none 11</text>",
            ">record 11 is line 14: lines 3 to 14 have no history, lines 3 to 13 have one</text>",
        ]),
        told: "\
pciex: record 11 is line 14: lines 3 to 14 have no history, lines 3 to 13 have one
pciex: line 14: ans 2 3 data 11111111, against these answers:
pciex: line 12: ans 2 2 data 02000000
pciex: with data 22222222 in line 14, lines 3 to 14 have a history
pciex: of these requests each acts before the next one, and the last one before the first:
pciex: line 14 shows 11111111 at 100, which line 3 put and line 9 overwrote
pciex: line 9 is a posted write of its requester before line 10
pciex: line 10 put 02000000 at 200, which line 12 shows
pciex: line 12 is an answer before line 13
",
        status: 1,
    },
    Row {
        name: "no script",
        words: &["pciex", "chart"],
        input: "",
        written: Written::Parts(&[
            "width=\"640\" height=\"40\"",
            ">the script ran to its end</text>",
        ]),
        told: "",
        status: 0,
    },
    Row {
        name: "a lane that the fabric lacks",
        words: &["pciex", "chart", "--lane", "up3"],
        input: "fabric 2 0 4096\ncollect 1\n",
        written: Written::Parts(&[">refused 2 Idle; the fabric lacks up3</text>"]),
        told: "pciex: line 2: 'collect 1' is refused: Idle (there is nothing to send, deliver, replay, retrain or collect)\n",
        status: 1,
    },
    // Requester 2 has sent its packet four times, and its link is retrained; no DLLP has come yet.
    Row {
        name: "one lane, on which credits are sent",
        words: &["pciex", "chart", "--lane", "in", "--all"],
        input: "\
fabric 2 0 4096
submit 2 write 40 F 0 01020304
transmit up2
timer up2
transmit up2
timer up2
transmit up2
timer up2
transmit up2
timer up2
retrained up2
dllp in p
",
        written: Written::Parts(&[
            "<title>line 12: dllp in p -&gt; 80040040</title>",
            "<title>UpdateFC P 16 64 on in, not seen to arrive</title>",
        ]),
        told: "",
        status: 0,
    },
    // The Ack is lost, and the packet is sent once more: until then the replay buffer holds it. Then all comes to rest.
    Row {
        name: "all lanes, with their levels",
        words: &["pciex", "chart", "--levels"],
        input: "\
fabric 1 0 4096
submit 1 add 40 07000000
transmit up1
deliver up1 good
dllp up1 ack
deliver-dllp up1 lost
timer up1
settle
",
        written: Written::Parts(&[
            "width=\"2284\"",
            "<title>line 7: timer up1 -&gt; replay 1</title>",
            "<title>line 8: deliver up1 good -&gt; duplicate</title>",
            "<title>line 8: collect 1 -&gt; ans 1 0 data 00000000</title>",
            "<title>Ack 000 on up1, lost</title>",
            "<title>packet 000 on up1, add of requester 1, request 0, duplicate, dropped</title>",
            "<title>packet 000 on down1, completion of add of requester 1, request 0, accepted</title>",
            "<title>packets in the replay buffer on up1: 1</title>",
            "<title>NPH credits left on up1: 15</title>",
            "<title>CPLD credits left on out: 63</title>",
        ]),
        told: "",
        status: 0,
    },
];

#[test]
fn pictures(rt: HostRuntime) {
    assert_eq!(rt; first_wrong(&rt, rt.alloc(), &PICTURES), None);
}

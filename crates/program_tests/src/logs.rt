//! Runs of `search` over logs.
use crate::runs::{Row, Written, first_wrong};

static LOGS: [Row; 4] = [
    Row {
        name: "a log that no order explains",
        words: &["pciex", "search", "--limit", "1000"],
        input: "\
pciex-log 1
memory 0 4096 64
sub 1 0 add 40 00010000
sub 2 0 add 40 00010000
sub 3 0 write 40 1 0 00000000
ans 1 0 data 00000000
ans 2 0 data 00000000
end
",
        written: Written::Text("none 4\n"),
        told: "\
pciex: record 4 is line 7: lines 3 to 7 have no history, lines 3 to 6 have one
pciex: line 7: ans 2 0 data 00000000, against these answers:
pciex: line 6: ans 1 0 data 00000000
pciex: with data 00010000 in line 7, lines 3 to 7 have a history
pciex: if line 5 (write 40 1 0 00000000) had written all bytes of its first DW, the whole log would have a history
pciex: if line 4 (add 40 00010000) had had no effect, the whole log would have a history
pciex: if line 3 (add 40 00010000) had had no effect, the whole log would have a history
",
        status: 1,
    },
    Row {
        name: "the records of a log that no order of pieces explains",
        words: &[
            "pciex",
            "search",
            "--limit",
            "1000",
            "--core",
            "--granularity",
            "4",
        ],
        input: "\
pciex-log 1
memory 0 4096 64
sub 1 0 write 40 F F 0101010102020202
sub 2 0 read 44 1 F 0
ans 2 0 data 02020202
sub 2 1 read 40 1 F 0
ans 2 1 data 00000000
end
",
        written: Written::Text(
            "\
pciex-log 1
memory 0 4096 64
sub 1 0 write 40 F 0 01010101
sub 1 1 write 44 F 0 02020202
sub 2 0 read 44 1 F 0
ans 2 0 data 02020202
sub 2 1 read 40 1 F 0
ans 2 1 data 00000000
end
",
        ),
        told: "\
pciex: record 4 is line 7: lines 3 to 7 have no history, lines 3 to 6 have one
pciex: line 7: ans 2 1 data 00000000, against these answers:
pciex: line 5: ans 2 0 data 02020202
pciex: of these requests each acts before the next one, and the last one before the first:
pciex: line 7 shows 00000000 at 40, which was there at the start and line 3 overwrote
pciex: line 3 is a posted write, whose pieces act in rising order
pciex: line 3 put 02020202 at 44, which line 5 shows
pciex: line 5 is an answer before line 6
",
        status: 1,
    },
    Row {
        name: "a log that has a history",
        words: &["pciex", "search", "--limit", "1000"],
        input: "\
pciex-log 1
memory 0 4096 64
sub 1 0 write 40 F 0 33333333
sub 2 0 write 44 F 0 44444444
sub 3 0 write 44 F 0 55555555
sub 4 0 read 40 2 F F
sub 5 0 read 40 2 F F
ans 4 0 data 0000000055555555
ans 5 0 data 3333333355555555
end
",
        written: Written::Text(
            "\
pciex-trace 2
memory 0 4096 64
sub 1 0 0 write 40 F 0 33333333
sub 2 0 0 write 44 F 0 44444444
sub 3 0 0 write 44 F 0 55555555
sub 4 0 0 read 40 2 F F
sub 5 0 0 read 40 2 F F
ans 4 0 3 data 0000000055555555
ans 5 0 5 data 3333333355555555
history
ent 2 0 write 44 F 0 44444444
ent 3 0 write 44 F 0 55555555
ent 4 0 read 40 2 F F
ent 1 0 write 40 F 0 33333333
ent 5 0 read 40 2 F F
end
",
        ),
        told: "",
        status: 0,
    },
    Row {
        name: "a search that is given up",
        words: &["pciex", "search", "--limit", "2"],
        input: "\
pciex-log 1
memory 0 4096 64
sub 1 0 add 40 01000000
sub 2 0 add 40 02000000
sub 3 0 swap 44 01000000
sub 4 0 swap 44 02000000
sub 5 0 read 40 2 F F
ans 5 0 data 0200000002000000
sub 5 1 read 40 2 F F
ans 5 1 data 0300000001000000
end
",
        written: Written::Text("limit 2\n"),
        told: "pciex: given up at line 8 (open requests: 3); --progress shows how far it is\npciex: lines 3 to 7 have a history\n",
        status: 3,
    },
];

#[test]
fn logs(rt: HostRuntime) {
    assert_eq!(rt; first_wrong(&rt, rt.alloc(), &LOGS), None);
}

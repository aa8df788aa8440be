//! Worked rows of flow control: needs of packets, a gate and a ledger past a wrap of their counters, limits.
use flow_control::LaneCredits;

#[test]
fn limits(rt: HostRuntime) {
    let credits = LaneCredits::DEFAULT;
    for (given, want) in [
        (credits, true),
        (LaneCredits { ph: 0, ..credits }, true),
        (
            LaneCredits {
                cplh: 128,
                ..credits
            },
            false,
        ),
        (LaneCredits { pd: 7, ..credits }, false),
        (LaneCredits { npd: 2, ..credits }, true),
        (LaneCredits { npd: 1, ..credits }, false),
        (
            LaneCredits {
                cpld: 2048,
                ..credits
            },
            false,
        ),
    ] {
        assert_eq!(rt; given.is_in_limits(), want);
    }
}

//! Worked rows of a transmitter: its window, replays, Acks and Naks, names of what it refuses.
use arrayvec::ArrayVec;
use link_replay::{AckFault, Cargo, SendRefusal, Sender};
use seq12::Seq12;
use std::alloc::Global;
use std::test::Fail;

/// A packet of no bytes.
fn packet(mark: u32) -> Cargo {
    Cargo {
        bytes: ArrayVec::new(),
        mark,
    }
}

/// A fresh sender that took so many packets, with the marks 0, 1, 2, ..
fn filled(alloc: Global, count: u32) -> Result<Sender, SendRefusal> {
    let mut sender = Sender::new(alloc);
    for mark in 0..count {
        sender.accept(packet(mark))?;
    }
    Ok(sender)
}

/// Transmits so many times; gives how many packets were sent.
fn send(sender: &mut Sender, count: usize) -> usize {
    let mut sent: usize = 0;
    for _ in 0..count {
        if sender.transmit().is_some() {
            sent = sent.saturating_add(1);
        }
    }
    sent
}

/// The next number that is sent, and its mark.
fn sent(sender: &mut Sender) -> Option<(u16, u32)> {
    let (number, cargo) = sender.transmit()?;
    Some((number.value(), cargo.mark))
}

/// A number below 4096.
fn number(value: u16) -> Seq12 {
    Seq12::new(value % 4096)
}

/// So many packets are accepted, under the numbers from 0.
fn accepts(sender: &mut Sender, count: u16) -> bool {
    for n in 0..count {
        if sender.accept(packet(0)) != Ok(number(n)) {
            return false;
        }
    }
    true
}

fn is_full_now(sender: &mut Sender) -> bool {
    sender.accept(packet(0)) == Err(SendRefusal::WindowFull)
        && sender.reserve() == Err(SendRefusal::WindowFull)
}

fn is_emptied(sender: &mut Sender) -> bool {
    sender.ack(number(0x7FE)) == Ok(2047) && sender.is_empty()
}

fn goes_on(sender: &mut Sender) -> bool {
    sender.reserve().is_ok() && sender.accept(packet(0)) == Ok(number(0x7FF))
}

fn fills_and_goes_on(sender: &mut Sender) -> bool {
    accepts(sender, 2047) && is_full_now(sender) && is_emptied(sender) && goes_on(sender)
}

fn new_fills_and_goes_on(alloc: Global) -> bool {
    let mut sender = Sender::new(alloc);
    fills_and_goes_on(&mut sender)
}

#[test]
fn window(rt: HostRuntime) {
    assert!(rt; new_fills_and_goes_on(rt.alloc()));
}

/// So many packets are sent, and the replay timer moves back by them.
fn replays(sender: &mut Sender, count: usize) -> bool {
    send(sender, count) == count && sender.timer() == count
}

/// The oldest of two packets that were sent is acknowledged.
fn acknowledges_one(sender: &mut Sender) -> bool {
    send(sender, 2) == 2 && sender.ack(number(0)) == Ok(1) && sender.timer() == 1
}

/// Three replays of one packet, before each of which the sender isn't stopped.
fn replays_thrice(sender: &mut Sender) -> bool {
    for _ in 0..3 {
        if sender.stopped() || !replays(sender, 1) {
            return false;
        }
    }
    true
}

fn is_stopped(sender: &mut Sender) -> bool {
    sender.stopped() && !sender.can_transmit() && send(sender, 1) == 0
}

fn is_retrained(sender: &mut Sender) -> bool {
    sender.retrained() && !sender.retrained() && sent(sender) == Some((1, 1))
}

fn stops_and_is_retrained(sender: &mut Sender) -> bool {
    replays(sender, 2)
        && replays(sender, 2)
        && acknowledges_one(sender)
        && replays_thrice(sender)
        && is_stopped(sender)
        && is_retrained(sender)
}

fn two_stop(alloc: Global) -> Result<bool, SendRefusal> {
    let mut sender = filled(alloc, 2)?;
    Ok(stops_and_is_retrained(&mut sender))
}

#[test]
fn fourth_replay_stops(rt: HostRuntime) -> Result<(), Fail> {
    assert!(rt; two_stop(rt.alloc())?);
    Ok(())
}

/// Whether the answer to an Ack of this number is that of ten packets; a refusal leaves the oldest to be sent.
fn answers_of_ten(sender: &mut Sender, n: u16) -> bool {
    let answer = sender.ack(number(n));
    if n == 0xFFF {
        answer == Ok(0)
    } else if n < 10 {
        answer == Ok(usize::from(n) + 1)
    } else {
        answer == Err(AckFault::NotOutstanding) && sent(sender) == Some((0, 0))
    }
}

fn ten_answer(alloc: Global, n: u16) -> Result<bool, SendRefusal> {
    let mut sender = filled(alloc, 10)?;
    Ok(answers_of_ten(&mut sender, n))
}

#[test]
fn acks_of_ten_packets(rt: HostRuntime) -> Result<(), Fail> {
    for n in 0..4096u16 {
        assert!(rt; ten_answer(rt.alloc(), n)?, "number {n}");
    }
    Ok(())
}

fn sends_again(sender: &mut Sender) -> bool {
    send(sender, 3) == 3 && sender.nak(number(0)) == Ok(1) && sent(sender) == Some((1, 1))
}

fn has_two(sender: &Sender) -> bool {
    sender.ackd_seq() == number(0)
        && sender.next_transmit_seq() == number(3)
        && sender.len() == 2
        && !sender.is_full()
}

fn two_are_left(alloc: Global) -> Result<bool, SendRefusal> {
    let mut sender = filled(alloc, 3)?;
    Ok(sends_again(&mut sender) && has_two(&sender))
}

#[test]
fn nak_sends_the_rest_again(rt: HostRuntime) -> Result<(), Fail> {
    assert!(rt; two_are_left(rt.alloc())?);
    Ok(())
}

#[test]
fn names(rt: HostRuntime) -> Result<(), Fail> {
    for (refusal, name) in [
        (SendRefusal::WindowFull, "WindowFull"),
        (SendRefusal::Memory, "Memory"),
    ] {
        assert_eq!(rt; format!(in rt.alloc(); "{refusal}")?.as_str(), name);
    }
    let fault = AckFault::NotOutstanding;
    assert_eq!(rt;
        format!(in rt.alloc(); "{fault}")?.as_str(),
        "NotOutstanding"
    );
    Ok(())
}

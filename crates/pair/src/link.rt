// The fair link of document 01, played in a fixed order. An event due is taken before any packet, the head's before the
// terminal's. Where events come late, packets are taken first, and the terminal's event before the head's: its Confirm
// then reaches a head that still waits for its passkey.
use crate::arguments::Pairing;
use crate::end::{End, Given, Timing};
use crate::ends::{Ends, peer};
use crate::packet::Packet;
use crate::trace::Trace;
use machine::Role;
use smp_types::PairingFeatures;
use std::io;

// An end, and the input that it gets.
#[derive(Clone, Copy)]
struct Turn {
    role: Role,
    given: Given,
}

#[derive(Drop)]
struct Link {
    ends: Ends<End>,
    is_late: bool,
}

impl Link {
    // At the start only the request is on its way, to the head.
    fn new(records: Ends<PairingFeatures>, is_late: bool) -> Link {
        let mut terminal = End::new(Role::Central, records.terminal);
        let head = End::new(Role::Peripheral, records.head);
        terminal.send(Packet::PairingRequest(records.terminal));
        Link {
            ends: Ends { terminal, head },
            is_late,
        }
    }

    // An event that may be taken at an end. The head gets its OOB data before the terminal does.
    fn event(&self, role: Role) -> Option<Turn> {
        let may_take_oob_data = role == Role::Peripheral
            || self.ends.head.oob_data == Timing::Taken;
        let event = self.ends.get(role).event_due(may_take_oob_data)?;
        Some(Turn {
            role,
            given: Given::Event(event),
        })
    }

    // The oldest packet to an end. One whose report is due gets none.
    fn packet(&self, role: Role) -> Option<Turn> {
        if self.ends.get(role).report == Timing::Due {
            return None;
        }
        let packet = self.ends.get(peer(role)).sent.first()?;
        Some(Turn {
            role,
            given: Given::Packet(*packet),
        })
    }

    // The next input, if any, by the fixed order.
    fn next(&self) -> Option<Turn> {
        let packet = self.packet(Role::Peripheral).or(self.packet(Role::Central));
        let at_terminal = self.event(Role::Central);
        let at_head = self.event(Role::Peripheral);
        if self.is_late {
            packet.or(at_terminal).or(at_head)
        } else {
            at_head.or(at_terminal).or(packet)
        }
    }

    // An end gets input n.
    fn take(&mut self, trace: &impl Trace, n: u64, turn: Turn) -> io::Result<()> {
        let Turn { role, given } = turn;
        match given {
            Given::Packet(_) => {
                self.ends.get_mut(peer(role)).sent.pop_at(0);
            }
            Given::Event(event) => self.ends.get_mut(role).take_event(event),
        }
        let end = self.ends.get_mut(role);
        let before = end.machine.phase;
        trace.input(n, role, before, given)?;
        end.step(trace, given)?;
        trace.state(role, before, end.machine.phase)
    }

    // Takes inputs until there is none, at most 64: a fair run has at most 18. Returns their number.
    fn run(&mut self, trace: &impl Trace) -> io::Result<u64> {
        // n is no index: the inputs so far, whose number each line begins with
        for n in 0..64 {
            let Some(turn) = self.next() else {
                return Ok(n);
            };
            self.take(trace, n + 1, turn)?;
        }
        Ok(64)
    }
}

// Plays a pairing.
pub(crate) fn play(trace: &impl Trace, pairing: Pairing) -> io::Result<()> {
    let Pairing {
        title,
        records,
        is_late,
    } = pairing;
    let mut link = Link::new(records, is_late);
    trace.start(title, &link.ends, is_late)?;
    let inputs = link.run(trace)?;
    trace.summary(&link.ends, inputs)
}

//! One number of many answers: another answer anywhere makes another one.

use fb_verify::{Fault, Link, Report};

/// By what each step is multiplied.
const PRIME: u64 = 0x0000_0100_0000_01b3;

/// What many numbers make, one after another.
#[derive(Clone, Copy)]
pub struct Digest {
    pub value: u64,
}

impl Digest {
    /// Of no numbers.
    pub fn new() -> Digest {
        Digest { value: 0 }
    }

    fn add(&mut self, number: u64) {
        self.value = (self.value ^ number).wrapping_mul(PRIME).wrapping_add(1);
    }

    /// Adds a number one up, and 0 where there is none.
    fn add_if_any(&mut self, number: Option<u64>) {
        self.add(match number {
            Some(number) => number.wrapping_add(1),
            None => 0,
        });
    }

    fn add_reads(&mut self, reads: u128) {
        self.add(u64::try_from(reads).unwrap_or(u64::MAX));
    }

    /// Adds a yes.
    pub fn add_report(&mut self, report: Report) {
        self.add(0);
        self.add(u64::from(report.tables));
        self.add(u64::from(report.depth));
        self.add_reads(report.reads);
    }

    /// Adds a no, and the way to it.
    pub fn add_fault(&mut self, fault: Fault, links: &[Link]) {
        for byte in fault.reason.text().as_bytes() {
            self.add(u64::from(*byte));
        }
        self.add(fault.at);
        self.add(u64::from(fault.object));
        self.add_if_any(fault.field.map(u64::from));
        self.add_reads(fault.reads);
        self.add(links.len() as u64);
        for link in links {
            self.add_link(*link);
        }
    }

    fn add_link(&mut self, link: Link) {
        self.add(u64::from(link.object));
        self.add(u64::from(link.field));
        self.add_if_any(link.element.map(u64::from));
        self.add_if_any(link.member.map(u64::from));
    }
}

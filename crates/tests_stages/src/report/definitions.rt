//! The laws, and the numbers and texts of the faults.
use crate::expect::holds;
use spread_report::DeskFault;
use spread_report::laws::{read_back, running};

/// A fault, its number and its text.
static FAULTS: [(DeskFault, u8, &str); 2] = [
    (DeskFault::NoMemory, 1, "no memory"),
    (DeskFault::NumbersSpent, 2, "numbers spent"),
];

/// A law asks nothing of who cites it, and does nothing when it runs. That it holds is the prover's to say.
#[test]
fn laws_have_no_premises() {
    read_back();
    running();
}

#[test]
fn faults_have_numbers(rt: HostRuntime) {
    for (fault, number, text) in &FAULTS {
        holds(&rt, fault.number() == *number);
        let written = fault.to_string(rt.alloc()).expect(&rt, "memory");
        holds(&rt, written.as_str() == *text);
    }
}

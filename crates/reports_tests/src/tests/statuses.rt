//! How the program ends with each status.

use reports::{Status, code_of, complaint};

// The status, its number, and what is said.
const ENDS: &[(Status, u8, Option<&str>)] = &[
    (Status::Done, 0, None),
    (Status::No, 1, None),
    (Status::Usage, 2, Some("memplan: usage")),
    (Status::Format, 3, None),
    (Status::Limit, 4, None),
    (Status::Bound, 5, None),
    (Status::ReadFault, 6, Some("memplan: read fault")),
    (Status::WriteFault, 7, Some("memplan: write fault")),
    (Status::NoMemory, 8, Some("memplan: no memory")),
    (Status::NotSeriesParallel, 9, None),
    (Status::WorkingSet, 10, None),
];

#[test]
fn ends_of_the_program(rt: HostRuntime) {
    for (status, number, said) in ENDS {
        assert_eq!(rt; code_of(*status), *number);
        assert_eq!(rt; complaint(*status), *said);
    }
}

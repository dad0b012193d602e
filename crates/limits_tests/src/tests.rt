use limits::LimitName;
use std::test::Fail;

// Limits, how great they are, and their words.
const LIMITS: &[(LimitName, u64, &str)] = &[
    (LimitName::Bytes, 268_435_456, "bytes"),
    (LimitName::Order, 1_000_000, "order"),
    (LimitName::Entries, 10_000_000, "entries"),
    (LimitName::Mindeg, 50_000, "mindeg"),
    (LimitName::Tasks, 1_000_000, "tasks"),
    (LimitName::Positions, 4_000_001, "positions"),
    (LimitName::Size, 1_099_511_627_776, "size"),
    (LimitName::Total, 1_152_921_504_606_846_976, "total"),
    (LimitName::Time, 1_099_511_627_776, "time"),
    (LimitName::Arcs, 2_000_001, "arcs"),
    (LimitName::Uses, 10_000_000, "uses"),
    (LimitName::Steps, 10_000_000, "steps"),
];

#[test]
fn limits_and_their_words(rt: HostRuntime) -> Result<(), Fail> {
    for (name, most, word) in LIMITS {
        assert_eq!(rt; name.most(), *most);
        assert_eq!(rt; name.word(), *word);
        assert_eq!(rt; format!(in rt.alloc(); "{name}")?.as_str(), *word);
    }
    Ok(())
}

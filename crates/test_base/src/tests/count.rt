use crate::tests::so;
use step_count::raised;

#[test]
fn a_count_stays_at_its_largest_number(rt: HostRuntime) {
    let rows = [
        (0, 0, 0),
        (1, 2, 3),
        (u64::MAX - 1, 1, u64::MAX),
        (u64::MAX - 1, 2, u64::MAX),
        (u64::MAX, u64::MAX, u64::MAX),
    ];
    for (steps, k, after) in rows {
        so(&rt, raised(steps, k) == after, "a row");
    }
}

// The laws have nothing to run: the test shows that the crate is linked.
#[test]
fn laws_are_linked(_rt: HostRuntime) {}

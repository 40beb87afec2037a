use crate::{Gates, Refusal, Seconds, Toll};

#[test]
fn seconds_stop_at_shut(rt: HostRuntime) {
    let one = Seconds::new(1);
    let nearly = Seconds::new(4294967293).join(one);
    assert_eq!(rt; nearly.value(), 4294967294);
    assert_eq!(rt; nearly.join(one).value(), 4294967295);
    assert_eq!(rt; nearly.join(one), <Seconds as Toll>::shut());
    assert!(rt; !<Seconds as Toll>::shut().at_most(nearly), "shut is above");
}

#[test]
fn gates_stop_at_shut(rt: HostRuntime) {
    let long = Gates::new(0, 4294967295);
    assert_eq!(rt; long.join(Gates::new(0, 1)), long);
    assert!(rt; !Gates::new(1, 0).at_most(long), "fewer gates come first");
    assert_eq!(rt;
        Gates::new(65534, 7).join(Gates::new(1, 0)),
        <Gates as Toll>::shut()
    );
    assert_eq!(rt; Gates::new(65535, 9).seconds(), 0);
}

#[test]
fn refusals_have_numbers(rt: HostRuntime) {
    assert_eq!(rt; Refusal::FloorSize.number(), 1);
    assert_eq!(rt; Refusal::NotNow.number(), 14);
}

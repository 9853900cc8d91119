use faults::Fault;
use faults::numbers::{FaultNumber, Layer};
use std::test::Fail;

// Every fault with its number and its layer.
const FAULTS: [(FaultNumber, u8, Layer); 18] = [
    (FaultNumber::WorkShort, 1, Layer::Engine),
    (FaultNumber::ImageLength, 2, Layer::Engine),
    (FaultNumber::SpareLength, 3, Layer::Engine),
    (FaultNumber::Head, 4, Layer::Form),
    (FaultNumber::Row, 5, Layer::Form),
    (FaultNumber::RowTwice, 6, Layer::Form),
    (FaultNumber::TermWord, 7, Layer::Form),
    (FaultNumber::TermEnd, 8, Layer::Form),
    (FaultNumber::Depth, 9, Layer::Form),
    (FaultNumber::Scope, 10, Layer::Check),
    (FaultNumber::Quantity, 11, Layer::Check),
    (FaultNumber::Types, 12, Layer::Check),
    (FaultNumber::YieldType, 13, Layer::Check),
    (FaultNumber::Labels, 14, Layer::Engine),
    (FaultNumber::ImageFull, 15, Layer::Engine),
    (FaultNumber::NotImage, 16, Layer::Engine),
    (FaultNumber::OtherState, 17, Layer::Engine),
    (FaultNumber::NoRule, 18, Layer::Engine),
];

#[test]
fn each_fault_has_its_number_and_layer(rt: HostRuntime) {
    for (fault, number, layer) in FAULTS {
        let made = Fault::new(fault, 7);
        assert_eq!(rt; made.number(), fault);
        assert_eq!(rt; u8::from(made.number()), number);
        assert_eq!(rt; made.layer(), layer);
        assert_eq!(rt; made.place(), 7);
    }
}

#[test]
fn a_fault_is_printed_for_a_person(rt: HostRuntime) -> Result<(), Fail> {
    let fault = Fault::new(FaultNumber::YieldType, 6);
    let text = format!(in rt.alloc(); "{fault}")?;
    assert_eq!(rt;
        text.as_str(),
        "check: fault 13 at place 6: the yield type of a part does not fit"
    );
    Ok(())
}

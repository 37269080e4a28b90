//! What can't be said in the data of `rows_machine`.

use rv_inst::{Form, Rv};
use rv_machine::Output;
use std::test::Fail;

#[test]
fn forms_are_within_their_ranges(rt: HostRuntime) {
    for form in [Form::ADDI(10, 0, 2047), Form::SLLIW(5, 5, 31)] {
        assert!(rt; Rv::new(form).is_some(), "{form:?}");
    }
    for form in [
        Form::ADDI(10, 0, 2048),
        Form::ADD(0, 0, 32),
        Form::BEQ(0, 0, 7),
        Form::LUI(5, -1),
        Form::SLLIW(5, 5, 32),
    ] {
        assert!(rt; Rv::new(form).is_none(), "{form:?}");
    }
}

#[test]
fn outputs_are_appended_to(rt: HostRuntime) -> Result<(), Fail> {
    let mut out = Output::new(rt.alloc());
    for piece in [[7, 0].as_slice(), [].as_slice(), [255].as_slice()] {
        out.append(piece)?;
    }
    assert_eq!(rt; out.as_slice(), [7, 0, 255].as_slice());
    assert_eq!(rt; out.into_bytes().as_slice(), [7, 0, 255].as_slice());
    Ok(())
}

//! Signatures.

use cil_sig::{
    Position, SigFault, SigType, element_place, field_sig, locals_sig, method_sig, spec_sig,
};
use plain_types::elem::Elem;
use std::test::Fail;

fn plain(elem: Elem) -> SigType {
    SigType {
        pointer: false,
        ranks: 0,
        elem,
        token: 0,
    }
}

fn named(elem: Elem, token: u32) -> SigType {
    SigType {
        pointer: false,
        ranks: 0,
        elem,
        token,
    }
}

#[test]
fn a_method_with_this_and_a_pointer(rt: HostRuntime) -> Result<(), Fail> {
    let sig = method_sig(rt.alloc(), &[0x20, 0x01, 0x01, 0x10, 0x08])
        .ok()
        .ok_or("the bytes are a method's")?;
    assert!(rt; sig.this);
    assert_eq!(rt; sig.returns, plain(Elem::Void));
    let pointer = SigType {
        pointer: true,
        ..plain(Elem::I4)
    };
    assert_eq!(rt; sig.params.as_slice(), [pointer].as_slice());
    Ok(())
}

#[test]
fn locals_of_each_width_of_number(rt: HostRuntime) -> Result<(), Fail> {
    let blob = [
        0x07, 0x80, 0x03, 0x0E, 0x1D, 0x1D, 0x12, 0xC0, 0x00, 0x40, 0x01, 0x11, 0x49,
    ];
    let types = locals_sig(rt.alloc(), &blob)
        .ok()
        .ok_or("the bytes are those of locals")?;
    let jagged = SigType {
        ranks: 2,
        ..named(Elem::Class, 0x4001)
    };
    assert_eq!(rt;
        types.as_slice(),
        [plain(Elem::String), jagged, named(Elem::Value, 0x49)].as_slice()
    );
    Ok(())
}

#[test]
fn fields_and_array_types(rt: HostRuntime) {
    let array = SigType {
        ranks: 1,
        ..plain(Elem::U1)
    };
    assert_eq!(rt; field_sig(&[0x06, 0x1D, 0x05]), Ok(array));
    assert_eq!(rt; spec_sig(&[0x1D, 0x05]), Ok(array));
    for (blob, offset) in [
        ([].as_slice(), 0),
        ([0x06].as_slice(), 1),
        ([0x06, 0x0C].as_slice(), 1),
        ([0x06, 0x01].as_slice(), 1),
        ([0x06, 0x10, 0x08].as_slice(), 1),
        ([0x06, 0x1D].as_slice(), 2),
        ([0x06, 0x08, 0x08].as_slice(), 2),
        ([0x06, 0x12, 0x06].as_slice(), 2),
        ([0x06, 0x12, 0x80].as_slice(), 2),
        ([0x06, 0x12, 0xE0, 0x00, 0x00, 0x01].as_slice(), 2),
    ] {
        assert_eq!(rt; field_sig(blob), Err(SigFault::Bad { offset }), "{blob:?}");
    }
    assert_eq!(rt; spec_sig(&[0x05]), Err(SigFault::Bad { offset: 0 }));
}

#[test]
fn faults_behind_a_count(rt: HostRuntime) -> Result<(), Fail> {
    for (blob, offset) in [
        ([0x07, 0x01, 0x0F, 0x08].as_slice(), 2),
        ([0x07, 0xC0, 0x01, 0x00, 0x00].as_slice(), 1),
        ([0x07, 0x01, 0x10, 0x08].as_slice(), 2),
        ([0x07, 0x02, 0x08].as_slice(), 3),
    ] {
        let fault = locals_sig(rt.alloc(), blob).err().ok_or("a fault")?;
        assert_eq!(rt; fault, SigFault::Bad { offset }, "{blob:?}");
    }
    for (blob, offset) in [
        ([0x10, 0x00, 0x01].as_slice(), 0),
        ([0x00, 0x01, 0x01, 0x10, 0x10, 0x08].as_slice(), 4),
        ([0x00, 0x01, 0x01, 0x01].as_slice(), 3),
        ([0x00, 0x00, 0x01, 0x00].as_slice(), 3),
    ] {
        let fault = method_sig(rt.alloc(), blob).err().ok_or("a fault")?;
        assert_eq!(rt; fault, SigFault::Bad { offset }, "{blob:?}");
    }
    Ok(())
}

#[test]
fn as_many_brackets_as_there_may_be(rt: HostRuntime) -> Result<(), Fail> {
    let mut blob = vec![in rt.alloc(); 0x1D; 255]?;
    blob.push(0x08)?;
    let deepest = SigType {
        ranks: 255,
        ..plain(Elem::I4)
    };
    assert_eq!(rt; spec_sig(&blob), Ok(deepest));
    let mut blob = vec![in rt.alloc(); 0x1D; 256]?;
    blob.push(0x08)?;
    assert_eq!(rt; spec_sig(&blob), Err(SigFault::Bad { offset: 255 }));
    Ok(())
}

#[test]
fn places_of_types(rt: HostRuntime) {
    let method = [0x20, 0x02, 0x12, 0x04, 0x10, 0x1D, 0x11, 0x08, 0x0E];
    let locals = [0x07, 0x02, 0x12, 0x80, 0x04, 0x1D, 0x12, 0x09];
    for (position, blob, place) in [
        (Position::Returned, method.as_slice(), Some(2)),
        (Position::Parameter(0), method.as_slice(), Some(6)),
        (Position::Parameter(1), method.as_slice(), Some(8)),
        (Position::Parameter(2), method.as_slice(), None),
        (Position::Local(1), locals.as_slice(), Some(6)),
        (
            Position::Field,
            [0x06, 0x1D, 0x12, 0x04].as_slice(),
            Some(2),
        ),
        (Position::Spec, [0x1D, 0x1D, 0x12, 0x04].as_slice(), Some(2)),
        (Position::Field, [0x07, 0x08].as_slice(), None),
    ] {
        assert_eq!(rt;
            element_place(position, blob),
            place,
            "{position:?} of {blob:?}"
        );
    }
}

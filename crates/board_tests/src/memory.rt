//! Things in a memory, and the cells that they take.

use board_types::board::{BoardType, NO_ROW, TypeAt};
use plain_types::elem::Elem;
use std::test::Fail;
use tiny_ram::{Ram, RamPlace, Spent, Value};

const CLASS: TypeAt = TypeAt {
    assembly: 2,
    row: 70,
};

/// A thing that is asked for.
#[derive(Clone, Copy, Debug)]
enum Asked {
    Object(u32),
    Array(Elem, u32),
    Text(u32),
    Boxed,
    StaticCell,
    Frame([u32; 4]),
}

fn type_of(elem: Elem) -> BoardType {
    BoardType {
        ranks: 0,
        elem,
        of: TypeAt {
            assembly: 0,
            row: NO_ROW,
        },
    }
}

fn make(ram: &mut Ram, asked: Asked) -> Result<u32, Spent> {
    match asked {
        Asked::Object(fields) => ram.object(CLASS, fields),
        Asked::Array(elem, n) => ram.array(type_of(elem), n),
        Asked::Text(n) => ram.string(n),
        Asked::Boxed => ram.boxed(type_of(Elem::I8)),
        Asked::StaticCell => ram.static_cell(),
        Asked::Frame(sizes) => ram.frame(CLASS, sizes),
    }
}

#[test]
fn things_take_their_cells(rt: HostRuntime) -> Result<(), Fail> {
    let table = [
        (Asked::Object(0), 1),
        (Asked::Object(3), 4),
        (Asked::Array(Elem::U1, 12), 2),
        (Asked::Array(Elem::U1, 13), 3),
        (Asked::Array(Elem::Char, 6), 2),
        (Asked::Array(Elem::Char, 7), 3),
        (Asked::Array(Elem::I4, 9), 4),
        (Asked::Array(Elem::String, 3), 2),
        (Asked::Array(Elem::String, 4), 3),
        (Asked::Array(Elem::I8, 3), 3),
        (Asked::Array(Elem::I8, 4), 4),
        (Asked::Array(Elem::I4, 0), 1),
        (Asked::Text(0), 1),
        (Asked::Text(6), 2),
        (Asked::Text(7), 3),
        (Asked::Boxed, 2),
        (Asked::StaticCell, 1),
        (Asked::Frame([0, 0, 8, 0]), 10),
        (Asked::Frame([1, 2, 3, 4]), 12),
    ];
    for (asked, cells) in table {
        let mut room = Ram::new(rt.alloc(), cells)?;
        assert_eq!(rt; make(&mut room, asked), Ok(1), "{asked:?}");
        assert_eq!(rt; make(&mut room, Asked::StaticCell), Err(Spent), "{asked:?}");
        let mut less = Ram::new(rt.alloc(), cells.saturating_sub(1))?;
        assert_eq!(rt; make(&mut less, asked), Err(Spent), "{asked:?}");
    }
    let mut both = Ram::new(rt.alloc(), 14)?;
    assert_eq!(rt; make(&mut both, Asked::Frame([0, 0, 8, 0])), Ok(5));
    assert_eq!(rt; make(&mut both, Asked::Array(Elem::I4, 9)), Ok(1));
    let mut one = Ram::new(rt.alloc(), 13)?;
    assert_eq!(rt; make(&mut one, Asked::Frame([0, 0, 8, 0])), Ok(4));
    assert_eq!(rt; make(&mut one, Asked::Array(Elem::I4, 9)), Err(Spent));
    assert_eq!(rt;
        make(&mut one, Asked::Array(Elem::U8, u32::MAX)),
        Err(Spent)
    );
    assert_eq!(rt;
        make(
            &mut one,
            Asked::Frame([u32::MAX, u32::MAX, u32::MAX, u32::MAX])
        ),
        Err(Spent)
    );
    Ok(())
}

#[test]
fn places_keep_what_was_put(rt: HostRuntime) -> Result<(), Fail> {
    let pointer = Value::Pointer(RamPlace {
        thing: 9,
        index: 8,
        elem: Elem::Bool,
    });
    let table = [
        (
            Asked::Object(2),
            1,
            Elem::I1,
            Value::Int(0x180),
            Value::Int(-128),
        ),
        (
            Asked::Object(2),
            1,
            Elem::Char,
            Value::Int(-1),
            Value::Int(0xFFFF),
        ),
        (
            Asked::Object(2),
            0,
            Elem::Class,
            Value::Ref(7),
            Value::Ref(7),
        ),
        (Asked::Object(2), 0, Elem::Class, pointer, pointer),
        (
            Asked::Object(2),
            0,
            Elem::Value,
            Value::Handle(CLASS),
            Value::Handle(CLASS),
        ),
        (
            Asked::Array(Elem::U1, 13),
            12,
            Elem::U1,
            Value::Int(0x1FF),
            Value::Int(0xFF),
        ),
        (
            Asked::Array(Elem::I2, 7),
            5,
            Elem::I2,
            Value::Int(0x8001),
            Value::Int(-0x7FFF),
        ),
        (
            Asked::Array(Elem::I8, 4),
            1,
            Elem::I8,
            Value::Long(i64::MIN),
            Value::Long(i64::MIN),
        ),
        (
            Asked::Text(7),
            6,
            Elem::Char,
            Value::Int(0x2_0041),
            Value::Int(0x41),
        ),
        (Asked::Boxed, 0, Elem::I8, Value::Long(-5), Value::Long(-5)),
        (
            Asked::StaticCell,
            0,
            Elem::I4,
            Value::Int(-5),
            Value::Int(-5),
        ),
        (
            Asked::Frame([1, 1, 2, 1]),
            4,
            Elem::Object,
            Value::Ref(3),
            Value::Ref(3),
        ),
        (
            Asked::Frame([1, 1, 2, 1]),
            5,
            Elem::I4,
            Value::Int(-2),
            Value::Int(-2),
        ),
        (
            Asked::Frame([1, 1, 2, 1]),
            6,
            Elem::I4,
            Value::Int(2),
            Value::Int(2),
        ),
        (
            Asked::Frame([1, 1, 2, 1]),
            7,
            Elem::I4,
            Value::Int(1),
            Value::Int(1),
        ),
    ];
    for (asked, index, elem, value, want) in table {
        let mut ram = Ram::new(rt.alloc(), 40)?;
        let before = make(&mut ram, Asked::Array(Elem::U1, 3))
            .ok()
            .ok_or("room")?;
        let thing = make(&mut ram, asked).ok().ok_or("room")?;
        let behind = make(&mut ram, Asked::Text(2)).ok().ok_or("room")?;
        let (shape, old) = (ram.shape(thing), ram.shape(behind));
        ram.put(RamPlace { thing, index, elem }, value);
        assert_eq!(rt; ram.get(RamPlace { thing, index, elem }), want, "{asked:?}");
        assert_eq!(rt; ram.shape(thing), shape, "{asked:?}");
        assert_eq!(rt; ram.shape(behind), old, "{asked:?}");
        for i in 0..3u32 {
            assert_eq!(rt;
                ram.get(RamPlace {
                    thing: before,
                    index: i,
                    elem: Elem::U1
                }),
                Value::Int(0)
            );
        }
    }
    Ok(())
}

#[test]
fn frames_wait_and_go_on(rt: HostRuntime) -> Result<(), Fail> {
    let mut ram = Ram::new(rt.alloc(), 30)?;
    assert_eq!(rt; ram.top(), 0);
    let outer = ram.frame(CLASS, [1, 0, 2, 0]).ok().ok_or("room")?;
    ram.put(
        RamPlace {
            thing: outer,
            index: 3,
            elem: Elem::I4,
        },
        Value::Int(77),
    );
    ram.put(
        RamPlace {
            thing: outer,
            index: 4,
            elem: Elem::I4,
        },
        Value::Int(2),
    );
    let inner = ram.frame(CLASS, [0, 3, 1, 1]).ok().ok_or("room")?;
    assert_eq!(rt;
        (ram.top(), ram.caller(inner), ram.caller(outer)),
        (inner, outer, 0)
    );
    assert_eq!(rt; ram.sizes(inner), [0, 3, 1, 1]);
    ram.put(
        RamPlace {
            thing: outer,
            index: 0,
            elem: Elem::I4,
        },
        Value::Int(5),
    );
    ram.put(
        RamPlace {
            thing: outer,
            index: 5,
            elem: Elem::I4,
        },
        Value::Int(1),
    );
    assert_eq!(rt;
        ram.get(RamPlace {
            thing: inner,
            index: 5,
            elem: Elem::I4
        }),
        Value::Int(0)
    );
    assert_eq!(rt;
        (
            ram.put_variable(2, Value::Ref(4)),
            ram.put_variable(3, Value::Ref(4))
        ),
        (true, false)
    );
    assert_eq!(rt;
        (ram.variable(2), ram.variable(1), ram.variable(3)),
        (Some(Value::Ref(4)), None, None)
    );
    assert_eq!(rt;
        (ram.push(Value::Long(-1)), ram.push(Value::Int(0))),
        (true, false)
    );
    assert_eq!(rt; (ram.pop(), ram.pop()), (Some(Value::Long(-1)), None));
    ram.go_to(-3);
    assert_eq!(rt; ram.place(), -3);
    ram.end_frame();
    assert_eq!(rt; ram.top(), outer);
    for (index, want) in [(0, 5), (3, 77), (4, 2), (5, 1)] {
        assert_eq!(rt;
            ram.get(RamPlace {
                thing: outer,
                index,
                elem: Elem::I4
            }),
            Value::Int(want),
            "{index}"
        );
    }
    ram.end_frame();
    assert_eq!(rt; ram.top(), 0);
    assert_eq!(rt; ram.object(CLASS, 29), Ok(1));
    Ok(())
}

//! Copies of places.

ghost use Rattle.std.specs.Prelude.{◌≡◌, ◌+◌, ◌-◌, ◌^◌, ◌<◌, ◌≤◌, ℕ, length, slice_set, slice_index_or, None};
ghost use Rattle.machine.specs.Data.{Cell};
ghost use Rattle.tiny_ram.specs.Things.{Entry, Packed, layout_of};
ghost use Rattle.tiny_ram.specs.Memory.{Memory, IsEntry, put_in};
ghost use Rattle.tiny_ram.specs.Region.{Keeps};
ghost use Rattle.tiny_native.specs.Copies.{cut_place, PlaceHasKind, AllHaveKind, Copied};

use crate::find::read;
use board_types::value::RamPlace;
use plain_types::elem::Elem;
use tiny_ram::Ram;

/// An element of an array, or a unit of a string.
#[derive(Clone, Copy)]
pub(crate) struct Place {
    pub thing: u32,
    pub index: u32,
}

/// Copies one place into another.
#[inline(always)]
fn copy_place(ram: &mut Ram, from: Place, to: Place)
    ensures { (m : Memory) (d e : Entry) (cell : Cell) → Keeps ram.old m → IsEntry m from.thing d → IsEntry m to.thing e → layout_of e.shape ≡ Packed cell → from.index < length d.places → to.index < length e.places → PlaceHasKind cell (slice_index_or d.places from.index None) → Keeps ram.new (put_in m to.thing (record e { places = slice_set e.places to.index (cut_place cell (slice_index_or d.places from.index None)) })) }
{
    let value = read(ram, from.thing, from.index);
    let at = RamPlace {
        thing: to.thing,
        index: to.index,
        elem: Elem::Void,
    };
    ram.put(at, value);
}

/// Copies so many places behind one another, as if all were read before the first is written.
pub(crate) fn copy(ram: &mut Ram, from: Place, to: Place, count: u32)
    requires source { from.index + count < 2 ^ 32 }
    requires target { to.index + count < 2 ^ 32 }
    ensures { (m : Memory) (d e : Entry) (cell : Cell) → Keeps ram.old m → IsEntry m from.thing d → IsEntry m to.thing e → layout_of e.shape ≡ Packed cell → from.index + count ≤ length d.places → to.index + count ≤ length e.places → AllHaveKind cell d.places from.index count → Copied ram.new m to.thing e cell d.places from.index to.index 0 count }
{
    let backwards = from.index < to.index;
    for k in 0..count {
        let offset = if backwards { count - 1 - k } else { k };
        let source = Place {
            thing: from.thing,
            index: from.index + offset,
        };
        let target = Place {
            thing: to.thing,
            index: to.index + offset,
        };
        copy_place(ram, source, target);
    }
}

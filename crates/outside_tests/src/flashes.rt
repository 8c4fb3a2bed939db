//! A flash in memory.

ghost use Rattle.std.specs.Prelude.{◌≤◌, length};

use block_flash::MemoryFlash;
use flash_trait::flash::{FLASH_SIZE, Flash, FlashErr, SECTOR_SIZE, SECTORS, Stop};
use plain_types::fault::NoMemory;
use plain_types::list::Items;
use std::alloc::Global;

/// The marker of a set.
const MARKER: &[u8] = &[0x4D, 0x53, 0x53, 0x70, 0x6F, 0x74, 0x31, 0x00];

const FAILED: Option<Result<(), FlashErr>> = Some(Err(FlashErr::Failed));

const CUT: Option<Result<(), FlashErr>> = Some(Err(FlashErr::Cut));

const DONE: Option<Result<(), FlashErr>> = Some(Ok(()));

fn erased(alloc: Global, fails: Vec<u32>, room: u32) -> Result<MemoryFlash, NoMemory> {
    let content = vec![in alloc; 0xFF; FLASH_SIZE]?;
    let flash = MemoryFlash::new(alloc, content, fails, room)?;
    Ok(flash)
}

/// Programs, where the flash is on and the bytes fit.
fn program<F: Flash>(flash: &mut F, at: u32, bytes: &[u8]) -> Option<Result<(), FlashErr>> {
    if !flash.is_on() || bytes.is_empty() || bytes.len() > SECTOR_SIZE {
        return None;
    }
    if at as usize + bytes.len() > FLASH_SIZE {
        return None;
    }
    Some(flash.program(at, bytes))
}

/// Erases, where the flash is on and has the sector.
fn erase<F: Flash>(flash: &mut F, sector: u32) -> Option<Result<(), FlashErr>> {
    if !flash.is_on() || sector >= SECTORS {
        return None;
    }
    Some(flash.erase(sector))
}

/// Arms a stop at an operation, by a mask.
fn arm<F: Flash>(flash: &mut F, alloc: Global, operation: u32, mask: &[u8]) -> Result<(), NoMemory>
    requires operation { 1 ≤ operation }
    requires some { 1 ≤ length mask.now }
    requires few { length mask.now ≤ 8192 }
{
    let mask = Items::from_vec(Vec::from_slice(alloc, mask)?);
    flash.arm(Some(Stop { operation, mask }));
    Ok(())
}

/// Whether these bytes stand at a place.
fn shows<F: Flash>(flash: &F, at: usize, bytes: &[u8]) -> bool {
    match flash.map().get(at..) {
        Some(rest) => rest.starts_with(bytes),
        None => false,
    }
}

/// A program only clears bits, and an erase sets all those of its sector.
#[test]
fn programs_and_erases(rt: HostRuntime) -> Result<(), NoMemory> {
    let mut flash = erased(rt.alloc(), Vec::new(rt.alloc()), 9)?;
    assert!(rt; program(&mut flash, 8190, &[0x0F, 0xF0, 0x55]) == DONE);
    assert!(rt; program(&mut flash, 8191, &[0x1F, 0xAA]) == DONE);
    assert!(rt; shows(&flash, 8189, &[0xFF, 0x0F, 0x10, 0x00, 0xFF]));
    assert!(rt; erase(&mut flash, 1) == DONE);
    assert!(rt; shows(&flash, 8189, &[0xFF, 0x0F, 0x10, 0xFF, 0xFF]));
    Ok(())
}

/// A stop leaves what its mask says and turns the flash off.
#[test]
fn stops_by_masks(rt: HostRuntime) -> Result<(), NoMemory> {
    let mut flash = erased(rt.alloc(), Vec::new(rt.alloc()), 9)?;
    assert!(rt; program(&mut flash, 0, MARKER) == DONE);
    arm(&mut flash, rt.alloc(), 1, &[0x01])?;
    assert!(rt; program(&mut flash, 0, &[0; 8]) == CUT);
    assert!(rt; !flash.is_on());
    flash.power_on();
    assert!(rt; shows(&flash, 0, &[0x4C, 0x52, 0x52, 0x70, 0x6E, 0x74, 0x30, 0x00]));
    arm(&mut flash, rt.alloc(), 2, &[1, 0])?;
    assert!(rt; erase(&mut flash, 3) == DONE);
    assert!(rt; erase(&mut flash, 0) == CUT);
    assert!(rt; shows(&flash, 0, &[0xFF, 0x52, 0xFF, 0x70, 0xFF, 0x74, 0xFF, 0x00]));
    Ok(())
}

/// An operation that is due to fail leaves what its mask says, one past the room leaves the content, and a later one
/// inside the room works.
#[test]
fn fails_by_masks_and_goes_on(rt: HostRuntime) -> Result<(), NoMemory> {
    for (mask, left) in [(0x00, 0xFF), (0xFF, 0x00), (0x0F, 0xF0)] {
        let mut flash = erased(rt.alloc(), vec![in rt.alloc(); 2]?, 3)?;
        if mask != 0 {
            flash.fail_mask(vec![in rt.alloc(); mask]?);
        }
        assert!(rt; program(&mut flash, 5, &[1]) == DONE);
        assert!(rt; program(&mut flash, 7, &[0]) == FAILED);
        assert!(rt; flash.is_on());
        assert!(rt; program(&mut flash, 6, &[2]) == DONE);
        assert!(rt; program(&mut flash, 4, &[3]) == FAILED);
        assert!(rt; shows(&flash, 4, &[0xFF, 1, 2, left, 0xFF]));
    }
    Ok(())
}

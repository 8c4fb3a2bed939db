//! The rows.

ghost use Rattle.std.specs.Prelude.{◌≡◌, ◌≤◌, length};

use crate::board::{Ending, deploy};
use crate::sets::{Located, Start, banks_told, content, locate, set};
use block_flash::change::Change;
use block_flash::memory_flash::MemoryFlash;
use deploy_tool::{Deploy, Step};
use flash_trait::flash::{FLASH_SIZE, Flash, SECTOR_SIZE, SECTORS, Stop};
use little_endian::u32_at;
use plain_types::list::Items;
use std::alloc::Global;
use std::process::Abort;
use std::test::Fail;
use wire_packets::command::{BANKS, DONE, ERASE, OPEN};
use wire_packets::packet::Packet;
use wire_packets::payload::{IN_A_BANK, LATE_OLD_FORMAT};

/// What a stop may leave of an operation: nothing, all, halves of bytes, every second bit, and odd ones.
const MASKS: [&[u8]; 7] = [
    &[0x00],
    &[0xFF],
    &[0x0F],
    &[0x55],
    &[0x01, 0x00, 0xFE],
    &[0xB2, 0xAC, 0xAC, 0x8F, 0x90, 0x8B, 0xCD, 0xFF],
    &[0xFF, 0xFF, 0xFF, 0xFF, 0xFF, 0xFF, 0xFF, 0xFF, 0x00],
];

/// What stands in the flash at first, the bank and number of the set that is deployed then, and by how many operations.
const STARTS: [(Start, u32, u32, u32); 7] = [
    (Start::Empty, 0, 1, 20),
    (Start::Bank(0, 5), 1, 6, 20),
    (Start::Bank(1, 5), 0, 6, 20),
    (Start::Old(3000), 1, 1, 20),
    (Start::Old(122_876), 1, 1, 20),
    (Start::Old(122_877), 1, 1, 21),
    (Start::Old(200_000), 1, 1, 21),
];

fn arm(
    rt: &impl Abort,
    alloc: Global,
    flash: &mut MemoryFlash,
    operation: u32,
    mask: &[u8],
) -> Result<(), Fail> {
    assert!(rt; operation >= 1 && !mask.is_empty() && mask.len() <= 8192);
    let mask = Items::from_vec(Vec::from_slice(alloc, mask)?);
    flash.arm(Some(Stop { operation, mask }));
    Ok(())
}

fn found(rt: &impl Abort, flash: &MemoryFlash) -> Located {
    let content = flash.map();
    assert!(rt; content.len() == FLASH_SIZE);
    locate(content)
}

/// A flash that holds this content, with room for so many operations.
fn flash(
    rt: &impl Abort,
    alloc: Global,
    content: &[u8],
    fails: Vec<u32>,
    room: u32,
) -> Result<MemoryFlash, Fail> {
    assert!(rt; content.len() == FLASH_SIZE);
    let content = Vec::from_slice(alloc, content)?;
    Ok(MemoryFlash::new(alloc, content, fails, room)?)
}

/// Whether a moment of a session is safe: what its start has is found, or the new set; where its start has no set or a
/// late one of the format before, also none.
fn is_safe(now: Located, before: Located, new: &[u8]) -> bool {
    now.set == before.set
        || is_new(now, new)
        || now.set.is_none() && (before.set.is_none() || before.kind == LATE_OLD_FORMAT)
}

/// Whether the new set is found in a bank.
fn is_new(now: Located, new: &[u8]) -> bool {
    let mut sum = 0u32;
    for byte in new {
        sum = sum.wrapping_add(u32::from(*byte));
    }
    match now.set {
        None => false,
        Some(set) => now.kind == IN_A_BANK && set.size == new.len() && set.sum == sum,
    }
}

/// Where the range of an operation begins and ends that is asked for.
fn range_of(rt: &impl Abort, command: u32, payload: &[u8]) -> (usize, usize)
    ensures order { result.0 ≤ result.1 }
    ensures inside { result.1 ≤ 262144 }
{
    assert!(rt; payload.len() >= 4);
    let place = u32_at(payload, 0) as usize;
    let (from, size) = if command == ERASE {
        (place * SECTOR_SIZE, SECTOR_SIZE)
    } else {
        (place, payload.len() - 4)
    };
    assert!(rt; from + size <= FLASH_SIZE);
    (from, from + size)
}

/// Makes an operation that is asked for, as far as a mask lets it.
fn make(rt: &impl Abort, content: &mut [u8], command: u32, payload: &[u8], mask: &[u8])
    requires { length content.old ≡ 262144 }
    ensures { length content.new ≡ 262144 }
{
    assert!(rt; payload.len() >= 4 && !mask.is_empty());
    let place = u32_at(payload, 0);
    if command == ERASE {
        assert!(rt; place < SECTORS);
        Change::Erase { sector: place }.make(content, mask);
    } else {
        let bytes = &payload[4..];
        assert!(rt;
            !bytes.is_empty()
                && bytes.len() <= SECTOR_SIZE
                && place as usize + bytes.len() <= FLASH_SIZE
        );
        Change::Program { at: place, bytes }.make(content, mask);
    }
}

/// A deployment that stops, and then the same one without a stop.
fn stop_and_again(
    rt: &impl Abort,
    alloc: Global,
    start: &[u8],
    new: &[u8],
    operation: u32,
    mask: &[u8],
) -> Result<Ending, Fail>
    requires { length new.now ≤ 122864 }
{
    let mut board = flash(rt, alloc, start, Vec::new(alloc), 80)?;
    let before = found(rt, &board);
    arm(rt, alloc, &mut board, operation, mask)?;
    let ending = deploy(&mut board, new, 2);
    assert!(rt; is_safe(found(rt, &board), before, new));
    board.power_on();
    assert!(rt; deploy(&mut board, new, 1) == Ending::Deployed);
    assert!(rt; is_new(found(rt, &board), new));
    Ok(ending)
}

/// Each set goes to the bank that holds no found set, with the next number.
#[test]
fn sets_go_to_the_other_bank(rt: HostRuntime) -> Result<(), Fail> {
    let new = set(rt.alloc(), b'b', 2500)?;
    for (start, bank, number, _) in STARTS {
        let content = content(rt.alloc(), start)?;
        let mut board = flash(
            &rt,
            rt.alloc(),
            content.as_slice(),
            Vec::new(rt.alloc()),
            40,
        )?;
        assert!(rt; deploy(&mut board, new.as_slice(), 1) == Ending::Deployed);
        let at = found(&rt, &board);
        assert!(rt; is_new(at, new.as_slice()) && at.bank == bank && at.number == number);
    }
    Ok(())
}

/// A deployment that stops in an operation, by each mask, and then the same one without a stop.
fn stops(
    rt: &impl Abort,
    alloc: Global,
    start: &[u8],
    new: &[u8],
    operation: u32,
    wanted: Ending,
) -> Result<(), Fail>
    requires { length new.now ≤ 122864 }
{
    for mask in MASKS {
        let ending = stop_and_again(rt, alloc, start, new, operation, mask)?;
        assert!(rt; ending == wanted);
    }
    Ok(())
}

/// The power stops in each operation, by each mask, and each request comes twice.
#[test]
fn each_operation_stops(rt: HostRuntime) -> Result<(), Fail> {
    let new = set(rt.alloc(), b'b', 2500)?;
    for (start, _, _, operations) in STARTS {
        let content = content(rt.alloc(), start)?;
        for operation in 1..=22 {
            let wanted = if operation <= operations {
                Ending::Off
            } else {
                Ending::Deployed
            };
            stops(
                &rt,
                rt.alloc(),
                content.as_slice(),
                new.as_slice(),
                operation,
                wanted,
            )?;
        }
    }
    Ok(())
}

/// What each mask leaves of an operation that is asked for, which then is made whole.
fn masks_leave(
    rt: &impl Abort,
    alloc: Global,
    content: &mut Vec<u8>,
    command: u32,
    payload: &[u8],
    before: Located,
    new: &[u8],
) -> Result<(), Fail> {
    let (from, to) = range_of(rt, command, payload);
    assert!(rt; content.len() == FLASH_SIZE);
    let old = Vec::from_slice(alloc, &content[from..to])?;
    for mask in MASKS {
        assert!(rt; content.len() == FLASH_SIZE && old.len() == to - from);
        make(rt, content.as_mut_slice(), command, payload, mask);
        assert!(rt; is_safe(locate(content.as_slice()), before, new));
        content[from..to].copy_from_slice(old.as_slice());
    }
    assert!(rt; content.len() == FLASH_SIZE);
    make(rt, content.as_mut_slice(), command, payload, &[0xFF]);
    Ok(())
}

/// The operations that a deployment asks for, each by all masks.
fn operations_leave(rt: &impl Abort, alloc: Global, start: Start, new: &[u8]) -> Result<(), Fail>
    requires { length new.now ≤ 122864 }
{
    let mut content = content(alloc, start)?;
    assert!(rt; content.len() == FLASH_SIZE);
    let before = locate(content.as_slice());
    let mut tool = Deploy::new(new);
    let mut step = tool.next(None);
    for _ in 0..24 {
        let Step::Ask { command, payload } = &step else {
            break;
        };
        let mut told = [DONE; 11];
        if *command == BANKS {
            assert!(rt; content.len() == FLASH_SIZE);
            told = banks_told(content.as_slice());
        } else if *command != OPEN {
            masks_leave(
                rt,
                alloc,
                &mut content,
                *command,
                payload.as_slice(),
                before,
                new,
            )?;
        }
        let reply = Packet::request(*command, 1, &told);
        step = tool.next(Some(&reply));
    }
    assert!(rt; content.len() == FLASH_SIZE);
    assert!(rt; is_new(locate(content.as_slice()), new));
    Ok(())
}

/// Each mask leaves a safe flash of each operation.
#[test]
fn each_mask_leaves_a_set(rt: HostRuntime) -> Result<(), Fail> {
    let new = set(rt.alloc(), b'b', 2500)?;
    for (start, _, _, _) in STARTS {
        operations_leave(&rt, rt.alloc(), start, new.as_slice())?;
    }
    Ok(())
}

/// A deployment whose operation of this number fails, by each mask; the tool asks nothing more, and a later session
/// deploys.
fn fails_by_masks(
    rt: &impl Abort,
    alloc: Global,
    start: &[u8],
    new: &[u8],
    operation: u32,
) -> Result<(), Fail>
    requires { length new.now ≤ 122864 }
{
    for mask in MASKS {
        let fails = vec![in alloc; operation; 1]?;
        let mut board = flash(rt, alloc, start, fails, 80)?;
        let before = found(rt, &board);
        assert!(rt; !mask.is_empty() && mask.len() <= 8192);
        board.fail_mask(Vec::from_slice(alloc, mask)?);
        assert!(rt; deploy(&mut board, new, 2) == Ending::Failed);
        assert!(rt; is_safe(found(rt, &board), before, new));
        assert!(rt; deploy(&mut board, new, 1) == Ending::Deployed);
    }
    Ok(())
}

/// Each operation fails, by each mask.
#[test]
fn each_operation_fails(rt: HostRuntime) -> Result<(), Fail> {
    let new = set(rt.alloc(), b'b', 2500)?;
    for (start, _, _, operations) in STARTS {
        let content = content(rt.alloc(), start)?;
        for operation in 1..=operations {
            fails_by_masks(
                &rt,
                rt.alloc(),
                content.as_slice(),
                new.as_slice(),
                operation,
            )?;
        }
    }
    Ok(())
}

/// Twenty sets on one flash, each stopped twice in some operation before it is deployed.
#[test]
fn twenty_sets_on_one_flash(rt: HostRuntime) -> Result<(), Fail> {
    let start = content(rt.alloc(), Start::Empty)?;
    let mut board = flash(
        &rt,
        rt.alloc(),
        start.as_slice(),
        Vec::new(rt.alloc()),
        1300,
    )?;
    for round in 0..20u32 {
        let new = set(rt.alloc(), round as u8, 2000 + round)?;
        let before = found(&rt, &board);
        for stop in [1 + round, 21 - round] {
            arm(&rt, rt.alloc(), &mut board, stop, MASKS[stop as usize % 7])?;
            let _ending = deploy(&mut board, new.as_slice(), 2);
            assert!(rt; is_safe(found(&rt, &board), before, new.as_slice()));
            board.power_on();
        }
        assert!(rt; deploy(&mut board, new.as_slice(), 1) == Ending::Deployed);
        assert!(rt; is_new(found(&rt, &board), new.as_slice()));
    }
    Ok(())
}

/// A marker that was erased but for its tail isn't zeroed: a stop in that zeroing could spell a marker over the old set,
/// whose number then is the greatest.
#[test]
fn broken_markers_stay(rt: HostRuntime) -> Result<(), Fail> {
    let start = content(rt.alloc(), Start::Bank(0, 1))?;
    let mut board = flash(&rt, rt.alloc(), start.as_slice(), Vec::new(rt.alloc()), 100)?;
    let second = set(rt.alloc(), b'b', 2500)?;
    let third = set(rt.alloc(), b'c', 2500)?;
    assert!(rt; deploy(&mut board, second.as_slice(), 1) == Ending::Deployed);
    let mut head = vec![in rt.alloc(); 0; 8192]?;
    head[..12].fill(1);
    arm(&rt, rt.alloc(), &mut board, 2, head.as_slice())?;
    assert!(rt; deploy(&mut board, third.as_slice(), 1) == Ending::Off);
    assert!(rt; is_new(found(&rt, &board), second.as_slice()));
    board.power_on();
    arm(&rt, rt.alloc(), &mut board, 1, MASKS[5])?;
    assert!(rt; deploy(&mut board, third.as_slice(), 1) == Ending::Off);
    assert!(rt; is_new(found(&rt, &board), second.as_slice()));
    Ok(())
}

/// Where no number follows, nothing is written; and the front of a late set of the format before is what it loses first.
#[test]
fn last_number_and_late_set(rt: HostRuntime) -> Result<(), Fail> {
    let new = set(rt.alloc(), b'b', 2500)?;
    let spent = content(rt.alloc(), Start::Bank(0, 0xFFFF_FFFF))?;
    let mut board = flash(&rt, rt.alloc(), spent.as_slice(), Vec::new(rt.alloc()), 40)?;
    assert!(rt; deploy(&mut board, new.as_slice(), 1) == Ending::Spent);
    assert!(rt; board.map() == spent.as_slice());
    let late = content(rt.alloc(), Start::Old(200_000))?;
    let mut board = flash(&rt, rt.alloc(), late.as_slice(), Vec::new(rt.alloc()), 40)?;
    arm(&rt, rt.alloc(), &mut board, 1, &[0xFF])?;
    assert!(rt; deploy(&mut board, new.as_slice(), 1) == Ending::Off);
    assert!(rt; found(&rt, &board).set.is_none());
    Ok(())
}

//! Opening the files of a world.

ghost use Rattle.std.specs.Prelude.{◌≡◌, ◌≤◌, ◌<◌, ◌^◌, IfOk, length, map};
ghost use Rattle.type_names.specs.Files.{parts_of, fault_in};
ghost use Rattle.type_names.specs.Opening.{files_opened, Opens};

use crate::file::{File, open_file};
use crate::refusal::WorldRefusal;
use plain_types::fault::{Fault, Place};
use std::alloc::Global;

/// A fault of a file, with the file's number.
fn in_file(fault: Fault, file: u16) -> Fault
    ensures { result ≡ fault_in file fault }
{
    Fault {
        place: Place {
            file,
            ..fault.place
        },
        ..fault
    }
}

/// The parts of each file, or the first file that breaks a rule.
pub fn open_files<'a>(alloc: Global, files: &'a [Vec<u8>]) -> Result<Vec<File<'a>>, WorldRefusal>
    requires { length files.now < 2 ^ 16 }
    ensures size { IfOk result (λ opened. length opened.items ≡ length files.now) }
    ensures opened { Opens (λ opened. parts_of opened.items) result (files_opened (map (λ bytes. bytes.items) files.now)) }
{
    let mut opened = Vec::new(alloc);
    for n in 0..files.len() {
        match open_file(files[n].as_slice()) {
            Ok(file) => match opened.push(file) {
                Ok(()) => {}
                Err(_) => return Err(WorldRefusal::NoMemory),
            },
            Err(fault) => return Err(WorldRefusal::File(in_file(fault, n as u16))),
        }
    }
    Ok(opened)
}

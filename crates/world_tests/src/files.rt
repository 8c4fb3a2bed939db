//! Files of worlds that are made of rows in lines, and the ids that lines tell.

use assembly_rows::lines::add_lines;
use case_text::Line;
use cil_build::build::Build;
use std::alloc::Global;
use std::test::Fail;

/// The file of an assembly of these rows.
pub fn file_of(alloc: Global, name: &str, version: [u16; 4], rows: &str) -> Result<Vec<u8>, Fail> {
    let mut build = Build::new(alloc, name, version)?;
    add_lines(&mut build, alloc, rows)?;
    Ok(build.finish(alloc).ok().ok_or("there is room")?)
}

/// The number of a file and of a row in a column; `-` for none.
pub fn id_of(alloc: Global, line: &Line<'_>, column: usize) -> Result<Option<(u16, u32)>, Fail> {
    let Some(text) = line.option(column) else {
        return Ok(None);
    };
    let words = Line::of(alloc, text, ' ')?;
    Ok(Some((u16::from(words.byte(0)?), words.number(1)?)))
}

//! The classes of a table with one way between them, as a graph of numbers.

ghost use Rattle.std.specs.Prelude.{◌≡◌, ◌<◌, ◌^◌, ◌++◌, IfOk, OnOk, map, length, slice_get};
ghost use Rattle.std.specs.Option.{option_map};
ghost use Rattle.member_keys.specs.Seen.{class_seen};
ghost use Rattle.class_table.specs.Seen.{classes_seen};
ghost use Rattle.class_queries.specs.Chains.{nexts};
ghost use Rattle.class_queries.specs.Numbers.{count_at, AreNumbers};
ghost use Rattle.class_queries.specs.Edges.{file_classes, all_classes, graph_size, graph_next};

use crate::chains::Way;
use crate::numbers::{Numbers, number};
use crate::rows::{enclosing, interfaces, superclass};
use class_table::ClassTable;
use member_keys::ClassId;
use plain_types::fault::NoMemory;
use std::alloc::Global;
use std::marker::Model;
use ways::Ways;

/// A table, the numbers of its classes and the classes by their numbers.
#[derive(Drop)]
pub struct Graph<'t, 'a> {
    pub table: &'t ClassTable<'a>,
    pub numbers: &'t Numbers,
    pub classes: &'t [ClassId],
    pub way: Way,
}

impl<'t, 'a> Model for Graph<'t, 'a> {
    ghost use Rattle.class_table.specs.declared.rows.ClassTable.{ClassTable};
    ghost use Rattle.class_queries.specs.declared.chains.Way.{Way};

    ghost Value = { ClassTable × Way };

    ghost use Rattle.class_queries.specs.Graph.{IsGraph};

    ghost view = { λ g. (g.table.now, g.way) };

    ghost invariant = { IsGraph };
}

impl<'t, 'a> Ways for Graph<'t, 'a> {
    ghost size = { λ g. graph_size g.0 };

    ghost next = { λ g a. graph_next g.0 g.1 a };

    fn nodes(&self) -> u32 {
        self.numbers.total + 1
    }

    fn degree(&self, node: u32) -> usize {
        match numbered(self.classes, node) {
            Some(class) => count(self.table, self.way, class),
            None => 0,
        }
    }

    fn step(&self, node: u32, edge: usize) -> u32 {
        match numbered(self.classes, node) {
            Some(class) => match next(self.table, self.way, class, edge) {
                Some(class) => number(self.numbers, self.table, class),
                None => 0,
            },
            None => 0,
        }
    }
}

/// The class of a number.
fn numbered(classes: &[ClassId], node: u32) -> Option<ClassId>
    ensures { result ≡ slice_get classes.now node }
{
    classes.get(node as usize).copied()
}

/// How many classes a way leads to.
fn count(table: &ClassTable<'_>, way: Way, class: ClassId) -> usize
    ensures { result ≡ length (nexts way (classes_seen table.now) (class_seen class)) }
{
    match way {
        Way::Above => usize::from(superclass(table, class).is_some()),
        Way::Interfaces => interfaces(table, class).len(),
        Way::Around => usize::from(enclosing(table, class).is_some()),
    }
}

/// A class that a way leads to.
fn next(table: &ClassTable<'_>, way: Way, class: ClassId, edge: usize) -> Option<ClassId>
    ensures { option_map class_seen result ≡ slice_get (nexts way (classes_seen table.now) (class_seen class)) edge }
{
    match way {
        Way::Above if edge == 0 => superclass(table, class),
        Way::Interfaces => interfaces(table, class).get(edge).copied(),
        Way::Around if edge == 0 => enclosing(table, class),
        Way::Above | Way::Around => None,
    }
}

/// How many classes a file has.
fn class_count(table: &ClassTable<'_>, file: usize) -> usize
    ensures { result ≡ count_at table.now file }
{
    match table.files.get(file) {
        Some(file) => file.classes.len(),
        None => 0,
    }
}

/// Adds the classes of a file.
fn list_file(classes: &mut Vec<ClassId>, file: u32, count: usize) -> Result<(), NoMemory>
    requires { count < 2 ^ 32 }
    ensures { OnOk result (map class_seen classes.new.items ≡ map class_seen classes.old.items ++ file_classes file count) }
{
    for row in 0..count {
        classes.push(ClassId {
            file,
            row: row as u32,
        })?;
    }
    Ok(())
}

/// The classes of a table by their numbers.
pub fn list_classes(
    alloc: Global,
    table: &ClassTable<'_>,
    numbers: &Numbers,
) -> Result<Vec<ClassId>, NoMemory>
    requires { AreNumbers table.now numbers.now }
    ensures { IfOk result (λ classes. map class_seen classes.items ≡ all_classes table.now) }
{
    let mut classes = Vec::new(alloc);
    for file in 0..table.files.len() {
        list_file(&mut classes, file as u32, class_count(table, file))?;
    }
    Ok(classes)
}

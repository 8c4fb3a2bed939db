//! Where each class has its members.

ghost use Rattle.std.specs.Prelude.{◌≡◌, ◌<◌, ◌^◌, IfOk, IsTrue, length, slice_get};
ghost use Rattle.std.specs.List.{position};
ghost use Rattle.std.specs.Option.{option_copied, option_map};
ghost use Rattle.member_keys.specs.Seen.{class_seen};
ghost use Rattle.member_search.specs.Shown.{key_shown, is_shown, members_in, first_in, count_in, own_members, own_member};
ghost use Rattle.member_search.specs.Index.{FindsOwn, FindsAll};

use crate::keys::member_keys;
use crate::scan::scan;
use crate::sort::Sort;
use class_table::{ClassRow, ClassTable, FileRows};
use member_keys::{ClassId, MemberKey, member_places};
use plain_types::fault::NoMemory;
use std::alloc::Global;
use std::collections::BTreeMap;
use std::marker::Model;

/// The most members of a class that are searched one after the other: these take less than a tree, in time and in memory.
const FEW: u32 = 8;

/// The places of a class's members among its own.
#[derive(Drop)]
pub struct ClassPlaces<'a> {
    pub first: u32,
    /// `None` where the class has few members.
    pub places: Option<BTreeMap<MemberKey<'a>, u32>>,
}

/// Where each class of a table has its fields, or its methods. Contracts see the table, and which of the two it is.
#[derive(Drop)]
pub struct MemberIndex<'t, 'a> {
    alloc: Global,
    table: &'t ClassTable<'a>,
    sort: Sort,
    files: Vec<Vec<ClassPlaces<'a>>>,
}

impl<'t, 'a> Model for MemberIndex<'t, 'a> {
    ghost use Rattle.member_search.specs.Shown.{Indexed};

    ghost Value = { Indexed };

    ghost use Rattle.member_search.specs.Inside.{IsIndexed};

    ghost view = { λ i. record { sort = i.sort; table = i.table.now } };

    ghost invariant = { IsIndexed };
}

/// Where a class has its members among those of its file.
#[derive(Clone, Copy)]
struct Span {
    first: u32,
    count: u32,
}

/// Where a class has its members.
fn span_of(class: &ClassRow<'_>, sort: Sort) -> Span
    ensures first { result.first ≡ first_in sort class.now }
    ensures count { result.count ≡ count_in sort class.now }
{
    match sort {
        Sort::Field => Span {
            first: class.first_field,
            count: class.field_count,
        },
        Sort::Method => Span {
            first: class.first_method,
            count: class.method_count,
        },
    }
}

/// The places of one class's members.
fn class_places<'a>(
    alloc: Global,
    file: &FileRows<'a>,
    class: &ClassRow<'_>,
    sort: Sort,
) -> Result<ClassPlaces<'a>, NoMemory>
    ensures { IfOk result (FindsOwn sort file.now class.now) }
{
    let span = span_of(class, sort);
    if span.count <= FEW {
        return Ok(ClassPlaces {
            first: span.first,
            places: None,
        });
    }
    let keys = member_keys(alloc, file, sort, span.first, span.count)?;
    let places = member_places(alloc, keys)?;
    Ok(ClassPlaces {
        first: span.first,
        places: Some(places),
    })
}

/// The places of the members of a file's classes.
fn file_places<'a>(
    alloc: Global,
    file: &FileRows<'a>,
    sort: Sort,
) -> Result<Vec<ClassPlaces<'a>>, NoMemory>
    ensures { IfOk result (λ all. FindsAll sort file.now all.items) }
{
    let mut all = Vec::new(alloc);
    for class in &file.classes {
        all.push(class_places(alloc, file, class, sort)?)?;
    }
    Ok(all)
}

/// A file has so few members that their rows are numbers of 32 bits, as all files have.
fn is_few(file: &FileRows<'_>, sort: Sort) -> bool
    ensures { IsTrue result → length (members_in sort file.now) < 2 ^ 32 }
{
    match sort {
        Sort::Field => file.fields.len() < 0x1_0000_0000,
        Sort::Method => file.methods.len() < 0x1_0000_0000,
    }
}

/// What a file says.
fn find_file<'t, 'a>(table: &'t ClassTable<'a>, file: u32) -> Option<&'t FileRows<'a>>
    ensures { option_copied result ≡ slice_get table.now.files.items file }
{
    table.files.get(file as usize)
}

/// A class of a file.
fn find_row<'t, 'a>(file: &'t FileRows<'a>, n: u32) -> Option<&'t ClassRow<'a>>
    ensures { option_copied result ≡ slice_get file.now.classes.items n }
{
    file.classes.get(n as usize)
}

/// Where the first of a class's members with the key's name and signature stands among them.
fn own_place<'a>(
    alloc: Global,
    file: &FileRows<'a>,
    class: &ClassRow<'a>,
    sort: Sort,
    places: &ClassPlaces<'a>,
    key: &MemberKey<'a>,
) -> Option<u32>
    requires { FindsOwn sort file.now class.now places.now }
    ensures { result ≡ position (is_shown (key_shown key.now)) (own_members sort file.now class.now) }
{
    if key.signature.is_none() {
        return None;
    }
    match &places.places {
        Some(places) => places.get(key).copied(),
        None => {
            let span = span_of(class, sort);
            scan(alloc, file, sort, span.first, span.count, key)
        }
    }
}

impl<'t, 'a> MemberIndex<'t, 'a> {
    /// The table of which it is the index.
    pub fn table(&self) -> &'t ClassTable<'a>
        ensures { result.now ≡ self.now.table }
    {
        self.table
    }

    /// The places of all members of the sort.
    pub fn new(
        alloc: Global,
        table: &'t ClassTable<'a>,
        sort: Sort,
    ) -> Result<MemberIndex<'t, 'a>, NoMemory>
        ensures { IfOk result (λ index. index ≡ record { sort = sort; table = table.now }) }
    {
        let mut files = Vec::new(alloc);
        for file in &table.files {
            if !is_few(file, sort) {
                return Err(NoMemory);
            }
            files.push(file_places(alloc, file, sort)?)?;
        }
        Ok(MemberIndex {
            alloc,
            table,
            sort,
            files,
        })
    }

    /// The first member of a class with the key's name and signature.
    pub fn find_own(&self, class: ClassId, key: &MemberKey<'a>) -> Option<ClassId>
        ensures { option_map class_seen result ≡ own_member self.now.sort self.now.table (key_shown key.now) (class_seen class) }
    {
        let file = find_file(self.table, class.file)?;
        let owner = find_row(file, class.row)?;
        let places = self
            .files
            .get(class.file as usize)?
            .get(class.row as usize)?;
        let place = own_place(self.alloc, file, owner, self.sort, places, key)?;
        let row = places.first.checked_add(place)?;
        Some(ClassId {
            file: class.file,
            row,
        })
    }
}

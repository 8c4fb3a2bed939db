//! The builder.

ghost use Rattle.std.specs.Prelude.{◌≡◌, ◌+◌, ◌<◌, ◌≤◌, ◌↔◌, Err, IfOk, IsTrue, OnErr, OnOk, length, min, map, nat_lt, if◌then◌else◌};
ghost use Rattle.plain_types.specs.declared.fault.NoMemory.{NoMemory};
ghost use Rattle.cil_layout.specs.declared.rows.FieldRow.{FieldRow};
ghost use Rattle.cil_layout.specs.declared.rows.Row.TheVariants.{TypeDef, Field, MethodDef, Literal};
ghost use Rattle.cil_layout.specs.Asked.{asked_first, rows_of, table_of, token_of, with_row, with_entry, weight_of};
ghost use Rattle.cil_layout.specs.Text.{text_end};
ghost use Rattle.cil_layout.specs.Layout.{built};
ghost use Rattle.cil_build.specs.Refs.{row_of_ref};

use crate::refs::{RefRow, copied};
use cil_bytes::count::{count_row, heavier, heavier_name, heavier_row, text_len};
use cil_bytes::heaps::heaps_of;
use cil_bytes::layout::{file_of, metadata_of, tables_stream};
use cil_bytes::tables::Source;
use cil_layout::rows::{
    FIELD, FieldRow, HEADERS_WEIGHT, LITERAL, METHOD_DEF, MOST_ROWS, MOST_WEIGHT, MethodRow,
    ROW_WEIGHT, Row, TYPE_DEF, TypeRow,
};
use plain_types::fault::NoMemory;
use plain_types::list::{Items, Text};
use std::alloc::Global;
use std::marker::Model;

/// Why the builder gives no token or no bytes.
#[derive(Clone, Copy, Debug, PartialEq, Eq)]
pub enum BuildRefusal {
    /// The weight would pass [`MOST_WEIGHT`].
    Full,
    /// The host has no memory left.
    NoMemory,
}

impl From<NoMemory> for BuildRefusal {
    ghost use Rattle.std.specs.Prelude.{◌≡◌};
    ghost use Rattle.cil_build.specs.declared.build.BuildRefusal.TheVariants.{NoMemory as Spent};

    ghost from_gives = { λ _ e. e ≡ Spent };

    fn from(_error: NoMemory) -> BuildRefusal {
        BuildRefusal::NoMemory
    }
}

/// An assembly that is being made. Contracts see what was asked for.
#[derive(Drop)]
pub struct Build {
    name: Text,
    version: [u16; 4],
    rows: Vec<Row>,
    entry: u32,
    /// The rows of each table.
    counts: [u32; 64],
    /// The weight, up to the first one that is too large.
    weight: u32,
    /// Where the next literal's entry begins.
    text_place: u32,
}

impl Model for Build {
    ghost use Rattle.cil_layout.specs.Asked.{Asked};
    ghost use Rattle.cil_layout.specs.Counted.{IsCounted};

    ghost Value = { Asked };

    ghost use Rattle.cil_build.specs.Build.{asked_of};

    ghost view = { asked_of };

    ghost invariant = { λ b. IsCounted (asked_of b) b.counts b.weight b.text_place };
}

/// The rows that stand before any is asked for.
const FIRST_COUNTS: [u32; 64] = [
    1, 0, 1, 0, 0, 0, 0, 0, 0, 0, 0, 0, 0, 0, 0, 0, 0, 0, 0, 0, 0, 0, 0, 0, 0, 0, 0, 0, 0, 0, 0, 0,
    1, 0, 0, 0, 0, 0, 0, 0, 0, 0, 0, 0, 0, 0, 0, 0, 0, 0, 0, 0, 0, 0, 0, 0, 0, 0, 0, 0, 0, 0, 0, 0,
];

impl Build {
    /// An assembly with its row, that of its module, and the type `<Module>`.
    pub fn new(alloc: Global, name: &str, version: [u16; 4]) -> Result<Build, NoMemory>
        ensures { IfOk result (λ b. b ≡ asked_first name.now version) }
    {
        let weight = heavier_name(HEADERS_WEIGHT + 3 * ROW_WEIGHT, name);
        Ok(Build {
            name: Text::copied(alloc, name)?,
            version,
            rows: Vec::new(alloc),
            entry: 0,
            counts: FIRST_COUNTS,
            weight,
            text_place: 1,
        })
    }

    /// Adds a row of a table.
    fn push(&mut self, row: Row) -> Result<u32, NoMemory>
        requires table { table_of row < 64 }
        requires room { rows_of self.old (table_of row) < 65534 }
        ensures ok { OnOk result (self.new ≡ with_row self.old row) }
        ensures token { IfOk result (λ token. token ≡ token_of (table_of row) (rows_of self.old (table_of row) + 1)) }
        ensures err { OnErr result (self.new ≡ self.old) }
    {
        let table = row.table();
        let data_rows = row.data_rows();
        let weight = heavier_row(self.weight, &row);
        let token = (table as u32) * 0x0100_0000 + self.counts[table as usize] + 1;
        self.rows.push(row)?;
        count_row(&mut self.counts, table, data_rows);
        self.weight = weight;
        Ok(token)
    }

    /// Adds a type, and gives its token. The fields and methods that are asked for later belong to it, up to the next type.
    /// `extends` is the token of its superclass, or 0.
    pub fn add_type(
        &mut self,
        alloc: Global,
        flags: u32,
        namespace: &str,
        name: &str,
        extends: u32,
    ) -> Result<u32, NoMemory>
        requires { rows_of self.old TYPE_DEF < 65534 }
        ensures ok { OnOk result (self.new ≡ with_row self.old (TypeDef (record { flags = flags; namespace = namespace.now; name = name.now; extends = extends }))) }
        ensures token { IfOk result (λ token. token ≡ token_of TYPE_DEF (rows_of self.old TYPE_DEF + 1)) }
        ensures err { OnErr result (self.new ≡ self.old) }
    {
        let row = TypeRow {
            flags,
            namespace: Text::copied(alloc, namespace)?,
            name: Text::copied(alloc, name)?,
            extends,
        };
        self.push(Row::TypeDef(row))
    }

    /// Adds a field, and gives its token. Bytes that aren't empty are its data, and make a row of FieldRVA (ECMA-335 II.22.18).
    pub fn add_field(
        &mut self,
        alloc: Global,
        flags: u16,
        name: &str,
        sig: &[u8],
        bytes: &[u8],
    ) -> Result<u32, NoMemory>
        requires { rows_of self.old FIELD < 65534 }
        ensures ok { OnOk result (self.new ≡ with_row self.old (Field (record { flags = flags; name = name.now; signature = sig.now; bytes = bytes.now }))) }
        ensures token { IfOk result (λ token. token ≡ token_of FIELD (rows_of self.old FIELD + 1)) }
        ensures err { OnErr result (self.new ≡ self.old) }
    {
        let row = FieldRow {
            flags,
            name: Text::copied(alloc, name)?,
            signature: copied(alloc, sig)?,
            bytes: copied(alloc, bytes)?,
        };
        self.push(Row::Field(row))
    }

    /// Adds a method, and gives its token. An empty body is none, with the RVA 0 (II.22.26).
    pub fn add_method(
        &mut self,
        alloc: Global,
        impl_flags: u16,
        flags: u16,
        name: &str,
        sig: &[u8],
        body: &[u8],
    ) -> Result<u32, NoMemory>
        requires { rows_of self.old METHOD_DEF < 65534 }
        ensures ok { OnOk result (self.new ≡ with_row self.old (MethodDef (record { impl_flags = impl_flags; flags = flags; name = name.now; signature = sig.now; body = body.now }))) }
        ensures token { IfOk result (λ token. token ≡ token_of METHOD_DEF (rows_of self.old METHOD_DEF + 1)) }
        ensures err { OnErr result (self.new ≡ self.old) }
    {
        let row = MethodRow {
            impl_flags,
            flags,
            name: Text::copied(alloc, name)?,
            signature: copied(alloc, sig)?,
            body: copied(alloc, body)?,
        };
        self.push(Row::MethodDef(row))
    }

    /// Adds a row of one of the smaller tables, and gives its token.
    pub fn add_ref(&mut self, alloc: Global, row: &RefRow<'_>) -> Result<u32, NoMemory>
        requires { rows_of self.old (table_of (row_of_ref row.now)) < 65534 }
        ensures ok { OnOk result (self.new ≡ with_row self.old (row_of_ref row.now)) }
        ensures token { IfOk result (λ token. token ≡ token_of (table_of (row_of_ref row.now)) (rows_of self.old (table_of (row_of_ref row.now)) + 1)) }
        ensures err { OnErr result (self.new ≡ self.old) }
    {
        let made = row.made(alloc)?;
        self.push(made)
    }

    /// Adds a literal of UTF-16 units, and gives the token that `ldstr` takes: 0x70000000 plus the place of its entry in
    /// `#US` (II.24.2.4, III.4.16). Equal literals have entries of their own.
    pub fn user_text(&mut self, alloc: Global, units: &[u16]) -> Result<u32, BuildRefusal>
        ensures ok { OnOk result (self.new ≡ with_row self.old (Literal units.now)) }
        ensures token { IfOk result (λ token. token ≡ token_of LITERAL (text_end self.old.rows)) }
        ensures full { (result ≡ Err BuildRefusal.Full) ↔ (MOST_WEIGHT < weight_of (with_row self.old (Literal units.now))) }
        ensures err { OnErr result (self.new ≡ self.old) }
    {
        let weight = heavier(heavier(heavier(self.weight, units.len()), units.len()), 5);
        if weight > MOST_WEIGHT {
            return Err(BuildRefusal::Full);
        }
        match self.push_literal(alloc, units, weight) {
            Ok(token) => Ok(token),
            Err(NoMemory) => Err(BuildRefusal::NoMemory),
        }
    }

    /// Adds a literal that isn't too heavy, with the weight that this makes.
    fn push_literal(&mut self, alloc: Global, units: &[u16], weight: u32) -> Result<u32, NoMemory>
        requires heavier { weight ≡ min (weight_of (with_row self.old (Literal units.now))) (MOST_WEIGHT + 1) }
        requires light { weight ≤ MOST_WEIGHT }
        ensures ok { OnOk result (self.new ≡ with_row self.old (Literal units.now)) }
        ensures token { IfOk result (λ token. token ≡ token_of LITERAL (text_end self.old.rows)) }
        ensures err { OnErr result (self.new ≡ self.old) }
    {
        let place = self.text_place;
        let next = place + text_len(units.len());
        let copy = Items::from_vec(Vec::from_slice(alloc, units)?);
        self.rows.push(Row::Literal(copy))?;
        self.text_place = next;
        self.weight = weight;
        Ok((LITERAL as u32) * 0x0100_0000 + place)
    }

    /// Makes the method of a token the one that a run begins with; 0 is none.
    pub fn set_entry(&mut self, token: u32)
        ensures { self.new ≡ with_entry self.old token }
    {
        self.entry = token;
    }

    /// Whether a table takes one more row.
    pub fn has_room(&self, table: u8) -> bool
        requires { table < 64 }
        ensures { IsTrue result ↔ (rows_of self.now table < 65534) }
    {
        self.counts[table as usize] < MOST_ROWS
    }

    /// How many rows a table has.
    pub fn rows(&self, table: u8) -> u32
        ensures { result ≡ (if nat_lt table 64 then rows_of self.now table else 0) }
    {
        if (table as usize) < 64 {
            self.counts[table as usize]
        } else {
            0
        }
    }

    /// The bytes of what was asked for, which isn't too heavy.
    fn bytes(&self, alloc: Global) -> Result<Vec<u8>, NoMemory>
        requires { weight_of self.now ≤ MOST_WEIGHT }
        ensures { IfOk result (λ file. file.items ≡ built self.now) }
    {
        let source = Source {
            name: self.name.as_str(),
            version: self.version,
            rows: self.rows.as_slice(),
        };
        let heaps = heaps_of(alloc, source.name, source.rows)?;
        let (strings, blobs) = (heaps.strings.as_slice().len(), heaps.blobs.as_slice().len());
        let tables = tables_stream(alloc, &self.counts, strings, blobs, source)?;
        let metadata = metadata_of(alloc, tables.as_slice(), &heaps)?;
        let file = file_of(
            alloc,
            metadata.as_slice(),
            heaps.content.as_slice(),
            self.entry,
        )?;
        Ok(file)
    }

    /// The bytes of the assembly (ECMA-335 II.25): its rows stand in the order asked.
    pub fn finish(self, alloc: Global) -> Result<Vec<u8>, BuildRefusal>
        ensures ok { IfOk result (λ file. file.items ≡ built self) }
        ensures full { (result ≡ Err BuildRefusal.Full) ↔ (MOST_WEIGHT < weight_of self) }
    {
        if self.weight > MOST_WEIGHT {
            return Err(BuildRefusal::Full);
        }
        match self.bytes(alloc) {
            Ok(file) => Ok(file),
            Err(NoMemory) => Err(BuildRefusal::NoMemory),
        }
    }
}

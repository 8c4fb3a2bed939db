//! The types that have the fields and methods of an image (ECMA-335 II.22.37).

ghost use Rattle.std.specs.Prelude.{◌≡◌, IfOk, map};
ghost use Rattle.set_table.specs.Subject.{field_span, method_span};

use class_table::ClassRow;
use plain_types::fault::NoMemory;
use row_owners::Span;
use std::alloc::Global;

/// The fields of each type.
pub fn field_spans(alloc: Global, classes: &[ClassRow<'_>]) -> Result<Vec<Span>, NoMemory>
    ensures { IfOk result (λ spans. spans.items ≡ map field_span classes.now) }
{
    let mut spans = Vec::new(alloc);
    for row in classes {
        spans.push(Span {
            first: row.first_field,
            count: row.field_count,
        })?;
    }
    Ok(spans)
}

/// The methods of each type.
pub fn method_spans(alloc: Global, classes: &[ClassRow<'_>]) -> Result<Vec<Span>, NoMemory>
    ensures { IfOk result (λ spans. spans.items ≡ map method_span classes.now) }
{
    let mut spans = Vec::new(alloc);
    for row in classes {
        spans.push(Span {
            first: row.first_method,
            count: row.method_count,
        })?;
    }
    Ok(spans)
}

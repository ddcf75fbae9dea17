//! Run lengths, looked at where they lie.
ghost use Rattle.std.specs.Prelude.{◌≡◌, ◌+◌, ◌^◌, ◌<◌, IfSome, IfNone};
ghost use Rattle.column_fields.specs.Lengths.{HasNoEndsOf};
ghost use Rattle.column_fields.specs.Spans.{AreSpanned};

use crate::ends::{end_behind, read_length};
use crate::stored::StoredEnd;
use column_base::PType;

/// Holds the number of runs, and the first and the last of their ends, which are 0 without runs.
#[derive(Clone, Copy)]
pub struct EndsSpan {
    pub count: usize,
    pub first: u64,
    pub last: u64,
}

/// Returns the span of the ends, of that type, of runs with these lengths, or `None` exactly where no ends of the type
/// have these lengths, as for every signed type. Takes no memory.
pub fn span_of_lengths(ptype: PType, bytes: &[u8]) -> Option<EndsSpan>
    ensures found { IfSome result (λ s. AreSpanned ptype bytes.now s.count s.first s.last) }
    ensures none { IfNone result (HasNoEndsOf ptype bytes.now) }
{
    match ptype {
        PType::U8 => span_as::<u8>(bytes),
        PType::U16 => span_as::<u16>(bytes),
        PType::U32 => span_as::<u32>(bytes),
        PType::U64 => span_as::<u64>(bytes),
        _ => None,
    }
}

fn span_as<E: StoredEnd>(bytes: &[u8]) -> Option<EndsSpan>
    ensures found { IfSome result (λ s. AreSpanned E.PTYPE bytes.now s.count s.first s.last) }
    ensures none { IfNone result (HasNoEndsOf E.PTYPE bytes.now) }
{
    let mut span = EndsSpan {
        count: 0,
        first: 0,
        last: 0,
    };
    let mut rest = bytes;
    let mut start = true;
    while !rest.is_empty() {
        let (length, after) = read_length(rest)?;
        if !start && length == 0 {
            return None;
        }
        let item = end_behind::<E>(span.last, length)?;
        span = longer_span(span, item.end());
        rest = after;
        start = false;
    }
    Some(span)
}

// The span with one more end.
fn longer_span(span: EndsSpan, end: u64) -> EndsSpan
    requires { span.count + 1 < 2 ^ 64 }
    ensures count { result.count ≡ span.count + 1 }
    ensures first { span.count ≡ 0 → result.first ≡ end }
    ensures kept { 0 < span.count → result.first ≡ span.first }
    ensures last { result.last ≡ end }
{
    EndsSpan {
        count: span.count + 1,
        first: if span.count == 0 { end } else { span.first },
        last: end,
    }
}

//! The labels under which calls of functions give their arguments.
ghost use Rattle.std.specs.Prelude.{◌≡◌, map, option_map};
ghost use Rattle.fx_meaning.specs.Native.{due_labels, free_labels, native_builtin, native_pipe, scalar_builtin, stream_builtin};
ghost use Rattle.fx_schemes.specs.Signature.{pipe_label_of};

use crate::native::Native;
use crate::stream::StreamFn;
use fx_ops::ScalarFn;

/// The label of what comes by the pipe, or None where nothing comes by it.
pub fn pipe_label(native: Native) -> Option<&'static str>
    ensures { option_map (λ label. label.now) result ≡ native_pipe native }
{
    match native {
        Native::Stream(which) => stream_pipe(which),
        _ => None,
    }
}

/// The labels that every call gives, in the order of the line; what comes by the pipe is the first.
pub fn due_labels(native: Native) -> &'static [&'static str]
    ensures { map (λ label. label.now) result.now ≡ due_labels (native_builtin native) }
{
    match native {
        Native::Now => &[],
        Native::Convert(_) => &["v"],
        Native::Length => &["arr"],
        Native::Contains => &["value", "set"],
        Native::Split => &["v", "t"],
        Native::Scalar(which) => scalar_due(which),
        Native::Stream(which) => stream_due(which),
    }
}

/// The labels that a call may leave out.
pub fn free_labels(native: Native) -> &'static [&'static str]
    ensures { map (λ label. label.now) result.now ≡ free_labels (native_builtin native) }
{
    match native {
        Native::Stream(which) => stream_free(which),
        _ => &[],
    }
}

fn stream_pipe(which: StreamFn) -> Option<&'static str>
    ensures { option_map (λ label. label.now) result ≡ pipe_label_of (stream_builtin which) }
{
    match which {
        StreamFn::From => None,
        StreamFn::Texts => None,
        StreamFn::Bools => None,
        StreamFn::ArrayFrom => None,
        StreamFn::Union => None,
        StreamFn::JoinInner => Some("left"),
        StreamFn::JoinLeft => Some("left"),
        StreamFn::JoinRight => Some("left"),
        StreamFn::JoinFull => Some("left"),
        StreamFn::JoinTime => Some("left"),
        _ => Some("tables"),
    }
}

fn scalar_due(which: ScalarFn) -> &'static [&'static str]
    ensures { map (λ label. label.now) result.now ≡ due_labels (scalar_builtin which) }
{
    match which {
        ScalarFn::ContainsStr => &["v", "substr"],
        ScalarFn::HasPrefix => &["v", "prefix"],
        ScalarFn::TrimPrefix => &["v", "prefix"],
        ScalarFn::HasSuffix => &["v", "suffix"],
        ScalarFn::TrimSuffix => &["v", "suffix"],
        ScalarFn::Strlen => &["v"],
        ScalarFn::Substring => &["v", "start", "end"],
        ScalarFn::ReplaceAll => &["v", "t", "u"],
        ScalarFn::JoinStr => &["arr", "v"],
        ScalarFn::Repeat => &["v", "i"],
        ScalarFn::Truncate => &["t", "unit"],
        ScalarFn::Add => &["d", "to"],
        ScalarFn::Sub => &["d", "from"],
        _ => &["t"],
    }
}

fn stream_due(which: StreamFn) -> &'static [&'static str]
    ensures { map (λ label. label.now) result.now ≡ due_labels (stream_builtin which) }
{
    match which {
        StreamFn::From => &["bucket"],
        StreamFn::Texts => &["bucket"],
        StreamFn::Bools => &["bucket"],
        StreamFn::ArrayFrom => &["rows"],
        StreamFn::Range => &["tables", "start"],
        StreamFn::Filter => &["tables", "fn"],
        StreamFn::Map => &["tables", "fn"],
        StreamFn::Window => &["tables", "every"],
        StreamFn::AggregateWindow => &["tables", "every", "fn"],
        StreamFn::Reduce => &["tables", "identity", "fn"],
        StreamFn::Keep => &["tables", "columns"],
        StreamFn::DropColumns => &["tables", "columns"],
        StreamFn::Rename => &["tables", "columns"],
        StreamFn::Duplicate => &["tables", "column", "as"],
        StreamFn::Set => &["tables", "value", "key"],
        StreamFn::Fill => &["tables", "value"],
        StreamFn::Limit => &["tables", "n"],
        StreamFn::Tail => &["tables", "n"],
        StreamFn::Pivot => &["tables", "rowKey", "columnKey", "valueColumn"],
        StreamFn::JoinInner => &["left", "right", "on", "as"],
        StreamFn::JoinLeft => &["left", "right", "on", "as"],
        StreamFn::JoinRight => &["left", "right", "on", "as"],
        StreamFn::JoinFull => &["left", "right", "on", "as"],
        StreamFn::JoinTime => &["left", "right", "as"],
        _ => &["tables"],
    }
}

fn stream_free(which: StreamFn) -> &'static [&'static str]
    ensures { map (λ label. label.now) result.now ≡ free_labels (stream_builtin which) }
{
    match which {
        StreamFn::Range => &["stop"],
        StreamFn::Filter => &["onEmpty"],
        StreamFn::Group => &["columns", "mode"],
        StreamFn::Window => &["period"],
        StreamFn::AggregateWindow => &["createEmpty"],
        StreamFn::Yield => &["name"],
        StreamFn::Count => &["column"],
        StreamFn::Sum => &["column"],
        StreamFn::Spread => &["column"],
        StreamFn::Distinct => &["column"],
        StreamFn::Min => &["column"],
        StreamFn::Max => &["column"],
        StreamFn::First => &["column"],
        StreamFn::Last => &["column"],
        StreamFn::Fill => &["column"],
        StreamFn::Sort => &["desc", "columns"],
        StreamFn::Limit => &["offset"],
        StreamFn::Tail => &["offset"],
        StreamFn::Difference => &["columns"],
        StreamFn::CumulativeSum => &["columns"],
        StreamFn::Elapsed => &["unit", "timeColumn", "columnName"],
        StreamFn::JoinTime => &["method"],
        _ => &[],
    }
}

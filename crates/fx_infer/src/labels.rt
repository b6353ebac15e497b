//! Labels that stand once.

ghost use Rattle.std.specs.Prelude.{◌≡◌};
ghost use Rattle.fx_schemes.specs.Builtins.{differ};
ghost use Rattle.fx_types.specs.Ground.{listed};
ghost use Rattle.fx_infer.specs.Records.{labels_on};

use fx_ast::Prop;
use fx_base::Text;

/// Whether no label stands twice.
pub(crate) fn labels_differ(props: &[Prop]) -> bool
    ensures { result ≡ differ (labels_on props.now) }
{
    let mut rest = props;
    while let [first, after @ ..] = rest {
        if is_among(&first.label, after) {
            return false;
        }
        rest = after;
    }
    true
}

/// Whether one of the properties has this label.
fn is_among(label: &Text, props: &[Prop]) -> bool
    ensures { result ≡ listed label.now (labels_on props.now) }
{
    for prop in props {
        if *label == prop.label {
            return true;
        }
    }
    false
}

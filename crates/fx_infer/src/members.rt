//! Names of packages.

ghost use Rattle.std.specs.Prelude.{◌≡◌, ◌↔◌, Some};
ghost use Rattle.std.specs.Option.{option_copied};
ghost use Rattle.fx_ast.specs.Shape.{tree_of};
ghost use Rattle.fx_types.specs.Instance.{Solution};
ghost use Rattle.fx_types.specs.Term.{Label};
ghost use Rattle.fx_infer.specs.Environment.{scope};
ghost use Rattle.fx_infer.specs.Members.{IsPackage};
ghost use Rattle.fx_infer.specs.Names.{env_under};

use crate::scope::{Bound, Name, newest};
use fx_ast::{Expr, Node};
use fx_base::Text;

/// The path of the package that the expression names.
pub(crate) fn package<'a>(names: &[Name<'a>], of: &Expr) -> Option<&'a Text>
    ensures { (s : Solution) (path : Label) → IsPackage (tree_of of.now) (scope (env_under s names.now)) path ↔ (option_copied result ≡ Some path) }
{
    let label = match of.node.get() {
        Node::Name(label) => label,
        _ => return None,
    };
    let place = match newest(names, label) {
        Some(place) => place,
        None => return None,
    };
    let found = names[place];
    match found.bound {
        Bound::Imported(path) => Some(path),
        _ => None,
    }
}

//! Lists of what was read, with the greatest number of levels in them.

ghost use Rattle.std.specs.Prelude.{◌≡◌, [], ◌∷◌, ◌++◌, map, OnOk, IfOk};
ghost use Rattle.fx_ast.specs.declared.expr.Prop.{roll-Prop};
ghost use Rattle.fx_ast.specs.declared.expr.Link.{roll-Link};
ghost use Rattle.fx_ast.specs.declared.expr.Param.{roll-Param};
ghost use Rattle.fx_ast.specs.declared.expr.Part.TheVariants as part_variants;
ghost use Rattle.fx_ast.specs.Shape.{OfPart, OfProp, OfParam, OfLink, a_piece, a_hole, tree_of, default_of, part, prop, param, link, trees_of, parts_of, props_of, params_of, links_of};
ghost use Rattle.fx_ast.specs.Levels.{in_trees, in_parts, in_props, in_params, in_links, in_default};
ghost use Rattle.fx_parse.specs.Measures.{capped};

use crate::measured::Measured;
use fx_ast::{Expr, Infix, Link, Param, ParamKind, Part, Prop};
use fx_base::{List, Memory, Place, Text};
use std::alloc::Global;

#[derive(Drop)]
pub(crate) struct ExprList {
    pub(crate) items: List<Expr>,
    pub(crate) levels: usize,
    ghost tall: { levels ≡ capped (in_trees (trees_of (map tree_of items))) },
}

impl ExprList {
    #[tactic(auto, unfolding(fx_ast::specs::Levels::height))]
    pub(crate) fn empty(alloc: Global) -> ExprList
        ensures { result.items ≡ [] }
    {
        ExprList {
            items: List::empty(alloc),
            levels: 0,
        }
    }

    #[tactic(auto, using(fx_ast::proofs::LevelLaws::in_trees_push))]
    pub(crate) fn push(&mut self, item: Measured) -> Result<(), Memory>
        ensures { OnOk result (self.new.items ≡ self.old.items ++ item.tree ∷ []) }
    {
        self.items.push(item.tree)?;
        self.levels = self.levels.max(item.levels);
        Ok(())
    }
}

#[derive(Drop)]
pub(crate) struct PropList {
    pub(crate) items: List<Prop>,
    pub(crate) levels: usize,
    ghost tall: { levels ≡ capped (in_props (props_of (map prop items))) },
}

impl PropList {
    #[tactic(auto, unfolding(fx_ast::specs::Levels::height))]
    pub(crate) fn empty(alloc: Global) -> PropList
        ensures { result.items ≡ [] }
    {
        PropList {
            items: List::empty(alloc),
            levels: 0,
        }
    }

    #[tactic(auto, using(fx_ast::proofs::LevelLaws::in_props_push))]
    pub(crate) fn push(&mut self, label: Text, value: Measured) -> Result<(), Memory>
        ensures { OnOk result (self.new.items ≡ self.old.items ++ roll-Prop (record { label = label; value = value.tree }) ∷ []) }
    {
        let levels = self.levels.max(value.levels);
        self.items.push(Prop {
            label,
            value: value.tree,
        })?;
        self.levels = levels;
        Ok(())
    }
}

#[derive(Drop)]
pub(crate) struct PartList {
    pub(crate) items: List<Part>,
    pub(crate) levels: usize,
    ghost tall: { levels ≡ capped (in_parts (parts_of (map part items))) },
}

impl PartList {
    #[tactic(auto, unfolding(fx_ast::specs::Levels::height))]
    pub(crate) fn empty(alloc: Global) -> PartList
        ensures { result.items ≡ [] }
    {
        PartList {
            items: List::empty(alloc),
            levels: 0,
        }
    }

    #[tactic(auto, using(fx_ast::proofs::LevelLaws::in_pieces_push))]
    pub(crate) fn push_piece(&mut self, text: Text) -> Result<(), Memory>
        ensures { OnOk result (self.new.items ≡ self.old.items ++ part_variants.Piece text ∷ []) }
    {
        self.items.push(Part::Piece(text))
    }

    #[tactic(auto, using(fx_ast::proofs::LevelLaws::in_holes_push))]
    pub(crate) fn push_hole(&mut self, inner: Measured) -> Result<(), Memory>
        ensures { OnOk result (self.new.items ≡ self.old.items ++ part_variants.Hole inner.tree ∷ []) }
    {
        self.items.push(Part::Hole(inner.tree))?;
        self.levels = self.levels.max(inner.levels);
        Ok(())
    }
}

#[derive(Drop)]
pub(crate) struct LinkList {
    pub(crate) items: List<Link>,
    pub(crate) levels: usize,
    ghost tall: { levels ≡ capped (in_links (links_of (map link items))) },
}

impl LinkList {
    #[tactic(auto, unfolding(fx_ast::specs::Levels::height))]
    pub(crate) fn empty(alloc: Global) -> LinkList
        ensures { result.items ≡ [] }
    {
        LinkList {
            items: List::empty(alloc),
            levels: 0,
        }
    }

    #[tactic(auto, using(fx_ast::proofs::LevelLaws::in_links_push))]
    pub(crate) fn push(&mut self, place: Place, op: Infix, right: Measured) -> Result<(), Memory>
        ensures { OnOk result (self.new.items ≡ self.old.items ++ roll-Link (record { place = place; op = op; right = right.tree }) ∷ []) }
    {
        let levels = self.levels.max(right.levels);
        self.items.push(Link {
            place,
            op,
            right: right.tree,
        })?;
        self.levels = levels;
        Ok(())
    }
}

/// A parameter's default.
#[derive(Drop)]
pub(crate) struct Default {
    pub(crate) how: ParamKind,
    pub(crate) levels: usize,
    ghost tall: { levels ≡ capped (in_default (default_of how)) },
}

#[derive(Drop)]
pub(crate) struct ParamList {
    pub(crate) items: List<Param>,
    pub(crate) levels: usize,
    ghost tall: { levels ≡ capped (in_params (params_of (map param items))) },
}

impl ParamList {
    #[tactic(auto, unfolding(fx_ast::specs::Levels::height))]
    pub(crate) fn empty(alloc: Global) -> ParamList
        ensures { result.items ≡ [] }
    {
        ParamList {
            items: List::empty(alloc),
            levels: 0,
        }
    }

    #[tactic(auto, using(fx_ast::proofs::LevelLaws::in_params_push))]
    pub(crate) fn push(&mut self, label: Text, default: Default) -> Result<(), Memory>
        ensures { OnOk result (self.new.items ≡ self.old.items ++ roll-Param (record { label = label; default = default.how }) ∷ []) }
    {
        let levels = self.levels.max(default.levels);
        self.items.push(Param {
            label,
            default: default.how,
        })?;
        self.levels = levels;
        Ok(())
    }
}

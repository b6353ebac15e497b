//! Inference of expressions. What is inferred goes down the tree, and at a name to the expression that was assigned,
//! in the scope of the names before it; each step down takes one from `room`.

ghost use Rattle.std.specs.Prelude.{IfOk, map, ◌≡◌, true, Option, option_map};
ghost use Rattle.fx_ast.specs.Shape.{body, default_of, tree_of, trees_of, link, links_of, param, params_of, part, parts_of, prop, props_of};
ghost use Rattle.fx_ast.specs.Tree.{name, text, array, rec, fun, member, chain, prefix, index, if_then, call, pipe};
ghost use Rattle.fx_schemes.specs.declared.list.Builtin.{Builtin};
ghost use Rattle.fx_schemes.specs.Builtins.{differ};
ghost use Rattle.fx_schemes.specs.Names.{IsId};
ghost use Rattle.fx_types.specs.Agree.{Agree};
ghost use Rattle.fx_types.specs.Instance.{Solution, ground};
ghost use Rattle.fx_types.specs.Shape.{term, pipe_of};
ghost use Rattle.fx_types.specs.Term.{type_variable};
ghost use Rattle.fx_unify.specs.Solutions.{next_of};
ghost use Rattle.fx_infer.specs.Callees.{ArgOf, FindsArg, FindsArgs, IsIdOf, CallOf, NativeCallOf, ValueCallOf, PipedOf, PipeBelow};
ghost use Rattle.fx_infer.specs.Infers.{IsBelow};
ghost use Rattle.fx_infer.specs.Finds.{Finds, FindsThat};
ghost use Rattle.fx_infer.specs.Functions.{BlockIn, DefaultOf, FindsBlock, ParamOf, inside};
ghost use Rattle.fx_infer.specs.Names.{NamesBelow, env_under, TypeOf, ShapeOf, LinkOf};
ghost use Rattle.fx_infer.specs.Parameters.{prop_names};
ghost use Rattle.fx_infer.specs.Records.{BaseOf, MakesOf, FindsRow, FindsFields};
ghost use Rattle.fx_infer.specs.Texts.{PartOf};

use crate::arguments::{Argument, Arguments, argument_of, form_at, once, said, with_argument};
use crate::ask::{Inferred, among, any_array, equal};
use crate::callee::{Callee, callee_of};
use crate::calls::called;
use crate::functions::{Scoped, any_variable, are_declared, declare, function_type, outermost};
use crate::labels::labels_differ;
use crate::literals::{int_type, pattern_type, span_type, text_type, time_type};
use crate::members::package;
use crate::natives::{native_of, native_value, variable};
use crate::operators::{infixed, prefixed};
use crate::records::{Based, Fielded, no_row, record_type, row_of};
use crate::rules::{element_of, field_of, result_of};
use crate::scope::{Bound, Name, newest};
use crate::stop::Stop;
use crate::terms::{array_of, entry};
use crate::uses::line_at;
use crate::words::words_of_call;
use fx_ast::{Body, Expr, Link, Node, Param, ParamKind, Part, Prefix, Prop};
use fx_base::{List, Text};
use fx_schemes::BuiltinId;
use fx_types::Ty;
use fx_unify::Bindings;
use fx_value::Kind;
use std::alloc::Global;

/// A type of the expression, None where it has none.
#[cycle(infer)]
pub(crate) fn infer<'a>(
    alloc: Global,
    names: &[Name<'a>],
    bindings: Bindings,
    expr: &'a Expr,
    room: u32,
) -> Result<Option<Inferred>, Stop>
    requires { NamesBelow (next_of bindings) names.now }
    ensures { IfOk result (Finds (TypeOf names.now expr.now) bindings) }
{
    if room == 0 {
        return Err(Stop::Memory);
    }
    let room = room - 1;
    match expr.node.get() {
        Node::Int(value) => Ok(Some(int_type(bindings, *value))),
        Node::Time(value) => Ok(Some(time_type(bindings, *value))),
        Node::Span(value) => Ok(Some(span_type(bindings, value.months, value.nanos))),
        Node::Text(parts) => infer_text(alloc, names, bindings, parts.as_slice(), room),
        Node::Pattern(_) => Ok(Some(pattern_type(bindings))),
        Node::Name(label) => infer_name(alloc, names, bindings, label, room),
        Node::Paren(inner) => infer(alloc, names, bindings, inner, room),
        Node::Prefix { sign, of } => infer_prefix(alloc, names, bindings, *sign, of, room),
        Node::Member { of, label } => infer_member(alloc, names, bindings, of, label, room),
        Node::Index { of, at } => infer_index(alloc, names, bindings, of, at, room),
        Node::Chain { first, rest } => {
            infer_chain(alloc, names, bindings, first, rest.as_slice(), room)
        }
        Node::If { test, yes, no } => infer_if(alloc, names, bindings, test, yes, no, room),
        Node::Array(items) => infer_array(alloc, names, bindings, items.as_slice(), room),
        Node::Rec { base, props } => {
            infer_record(alloc, names, bindings, base, props.as_slice(), room)
        }
        Node::Call { callee, args } => {
            infer_call(alloc, names, bindings, callee, args.as_slice(), None, room)
        }
        Node::Pipe { first, calls } => {
            infer_pipe(alloc, names, bindings, first, calls.as_slice(), room)
        }
        Node::Fun { params, body } => {
            infer_function(alloc, names, bindings, params.as_slice(), body, room)
        }
    }
}

/// A type of the name, by what it is bound to.
#[cycle(infer)]
fn infer_name<'a>(
    alloc: Global,
    names: &[Name<'a>],
    bindings: Bindings,
    label: &Text,
    room: u32,
) -> Result<Option<Inferred>, Stop>
    requires { NamesBelow (next_of bindings) names.now }
    ensures { IfOk result (Finds (ShapeOf names.now (name label.now)) bindings) }
{
    let place = match newest(names, label) {
        Some(place) => place,
        None => return Ok(native_value(alloc, bindings, label)?),
    };
    let found = names[place];
    match found.bound {
        Bound::Param(number) => Ok(Some(variable(alloc, bindings, number)?)),
        Bound::Assigned(value) => infer(alloc, &names[..place], bindings, value, room),
        Bound::Imported(_) => Ok(None),
    }
}

/// A type of the operator before the operand.
#[cycle(infer)]
fn infer_prefix<'a>(
    alloc: Global,
    names: &[Name<'a>],
    bindings: Bindings,
    sign: Prefix,
    of: &'a Expr,
    room: u32,
) -> Result<Option<Inferred>, Stop>
    requires { NamesBelow (next_of bindings) names.now }
    ensures { IfOk result (Finds (ShapeOf names.now (prefix sign (tree_of of.now))) bindings) }
{
    match infer(alloc, names, bindings, of, room)? {
        Some(found) => Ok(Some(prefixed(alloc, found.bindings, sign, &found.ty)?)),
        None => Ok(None),
    }
}

/// A type of the field of a record, or of the built-in of a package.
#[cycle(infer)]
fn infer_member<'a>(
    alloc: Global,
    names: &[Name<'a>],
    bindings: Bindings,
    of: &'a Expr,
    label: &Text,
    room: u32,
) -> Result<Option<Inferred>, Stop>
    requires { NamesBelow (next_of bindings) names.now }
    ensures { IfOk result (Finds (ShapeOf names.now (member (tree_of of.now) label.now)) bindings) }
{
    if let Some(path) = package(names, of) {
        return Ok(native_of(alloc, bindings, path, label)?);
    }
    match infer(alloc, names, bindings, of, room)? {
        Some(found) => Ok(Some(field_of(alloc, found.bindings, &found.ty, label)?)),
        None => Ok(None),
    }
}

/// A type of the element at the place.
#[cycle(infer)]
fn infer_index<'a>(
    alloc: Global,
    names: &[Name<'a>],
    bindings: Bindings,
    of: &'a Expr,
    at: &'a Expr,
    room: u32,
) -> Result<Option<Inferred>, Stop>
    requires { NamesBelow (next_of bindings) names.now }
    ensures { IfOk result (Finds (ShapeOf names.now (index (tree_of of.now) (tree_of at.now))) bindings) }
{
    let whole = match infer(alloc, names, bindings, of, room)? {
        Some(found) => found,
        None => return Ok(None),
    };
    match infer(alloc, names, whole.bindings, at, room)? {
        Some(place) => Ok(Some(element_of(alloc, place.bindings, &whole.ty, &place.ty)?)),
        None => Ok(None),
    }
}

/// Bindings under which the expression has the wanted type, None where it has it under none.
#[cycle(infer)]
fn typed<'a>(
    alloc: Global,
    names: &[Name<'a>],
    bindings: Bindings,
    expr: &'a Expr,
    wanted: &Ty,
    room: u32,
) -> Result<Option<Bindings>, Stop>
    requires names { NamesBelow (next_of bindings) names.now }
    requires wanted { IsBelow (next_of bindings) (term wanted.now) }
    ensures { IfOk result (FindsThat (λ s. TypeOf names.now expr.now s (ground s (term wanted.now))) bindings) }
{
    match infer(alloc, names, bindings, expr, room)? {
        Some(found) => Ok(Some(equal(alloc, found.bindings, &found.ty, wanted)?)),
        None => Ok(None),
    }
}

/// A type of both branches.
#[cycle(infer)]
fn infer_if<'a>(
    alloc: Global,
    names: &[Name<'a>],
    bindings: Bindings,
    test: &'a Expr,
    yes: &'a Expr,
    no: &'a Expr,
    room: u32,
) -> Result<Option<Inferred>, Stop>
    requires { NamesBelow (next_of bindings) names.now }
    ensures { IfOk result (Finds (ShapeOf names.now (if_then (tree_of test.now) (tree_of yes.now) (tree_of no.now))) bindings) }
{
    let tested = match typed(alloc, names, bindings, test, &Ty::Bool, room)? {
        Some(tested) => tested,
        None => return Ok(None),
    };
    let branch = match infer(alloc, names, tested, yes, room)? {
        Some(found) => found,
        None => return Ok(None),
    };
    match typed(alloc, names, branch.bindings, no, &branch.ty, room)? {
        Some(bindings) => {
            let ty = branch.ty;
            Ok(Some(Inferred { bindings, ty }))
        }
        None => Ok(None),
    }
}

/// A type of an array of the items.
#[cycle(infer)]
fn infer_array<'a>(
    alloc: Global,
    names: &[Name<'a>],
    bindings: Bindings,
    items: &'a [Expr],
    room: u32,
) -> Result<Option<Inferred>, Stop>
    requires { NamesBelow (next_of bindings) names.now }
    ensures { IfOk result (Finds (ShapeOf names.now (array (trees_of (map tree_of items.now)))) bindings) }
{
    let element = any_array(alloc, bindings)?;
    let mut asked = element.bindings;
    for item in items {
        asked = match typed(alloc, names, asked, item, &element.ty, room)? {
            Some(bindings) => bindings,
            None => return Ok(None),
        };
    }
    let ty = array_of(alloc, element.ty)?;
    Ok(Some(Inferred {
        bindings: asked,
        ty,
    }))
}

/// A type of a record of the properties over the row of the name before `with`.
#[cycle(infer)]
fn infer_record<'a>(
    alloc: Global,
    names: &[Name<'a>],
    bindings: Bindings,
    base: &Option<Text>,
    props: &'a [Prop],
    room: u32,
) -> Result<Option<Inferred>, Stop>
    requires { NamesBelow (next_of bindings) names.now }
    ensures { IfOk result (Finds (ShapeOf names.now (rec base.now (props_of (map prop props.now)))) bindings) }
{
    if !labels_differ(props) {
        return Ok(None);
    }
    let based = match infer_base(alloc, names, bindings, base, room)? {
        Some(based) => based,
        None => return Ok(None),
    };
    match infer_fields(alloc, names, based.bindings, props, room)? {
        Some(made) => {
            let rest = based.rest;
            Ok(Some(record_type(alloc, made.bindings, made.fields, rest)?))
        }
        None => Ok(None),
    }
}

/// The row behind the properties of a record.
#[cycle(infer)]
fn infer_base<'a>(
    alloc: Global,
    names: &[Name<'a>],
    bindings: Bindings,
    base: &Option<Text>,
    room: u32,
) -> Result<Option<Based>, Stop>
    requires { NamesBelow (next_of bindings) names.now }
    ensures { IfOk result (FindsRow (BaseOf names.now base.now) bindings) }
{
    let label = match base {
        Some(label) => label,
        None => return Ok(Some(no_row(bindings))),
    };
    match infer_name(alloc, names, bindings, label, room)? {
        Some(found) => Ok(Some(row_of(alloc, found.bindings, &found.ty)?)),
        None => Ok(None),
    }
}

/// The fields that the properties make.
#[cycle(infer)]
fn infer_fields<'a>(
    alloc: Global,
    names: &[Name<'a>],
    bindings: Bindings,
    props: &'a [Prop],
    room: u32,
) -> Result<Option<Fielded>, Stop>
    requires { NamesBelow (next_of bindings) names.now }
    ensures { IfOk result (FindsFields (MakesOf names.now props.now) bindings) }
{
    let mut asked = bindings;
    let mut fields = List::empty(alloc);
    for prop in props {
        let found = match infer(alloc, names, asked, &prop.value, room)? {
            Some(found) => found,
            None => return Ok(None),
        };
        asked = found.bindings;
        fields.push(entry(&prop.label, found.ty)?)?;
    }
    Ok(Some(Fielded {
        bindings: asked,
        fields,
    }))
}

/// A type of a function of the parameters with the block.
#[cycle(infer)]
fn infer_function<'a>(
    alloc: Global,
    names: &[Name<'a>],
    bindings: Bindings,
    params: &'a [Param],
    block: &'a Body,
    room: u32,
) -> Result<Option<Inferred>, Stop>
    requires { NamesBelow (next_of bindings) names.now }
    ensures { IfOk result (Finds (ShapeOf names.now (fun (params_of (map param params.now)) (body block.now).lets (body block.now).result)) bindings) }
{
    if !are_declared(params, block.lets.as_slice()) {
        return Ok(None);
    }
    let mut scoped = Scoped {
        bindings,
        block: outermost(alloc, names)?,
    };
    for next in params {
        scoped = match infer_param(alloc, names, scoped, next, room)? {
            Some(scoped) => scoped,
            None => return Ok(None),
        };
    }
    let inner = scoped.block;
    match infer_block(alloc, inner.names, scoped.bindings, block, room)? {
        Some(found) => {
            let made = function_type(alloc, found.bindings, inner.required, inner.pipe, found.ty)?;
            Ok(Some(made))
        }
        None => Ok(None),
    }
}

/// The block with one parameter more.
#[cycle(infer)]
fn infer_param<'a>(
    alloc: Global,
    names: &[Name<'a>],
    scoped: Scoped<'a>,
    next: &'a Param,
    room: u32,
) -> Result<Option<Scoped<'a>>, Stop>
    requires names { NamesBelow (next_of scoped.bindings) names.now }
    requires block { (s q : Solution) → Agree (next_of scoped.bindings) s q → inside s scoped.block ≡ inside q scoped.block }
    ensures { IfOk result (FindsBlock (ParamOf names.now next.now scoped.entry.block) scoped.entry.bindings) }
{
    let fresh = any_variable(alloc, scoped.bindings)?;
    let number = fresh.number;
    match infer_default(alloc, names, fresh.bindings, &next.default, number, room)? {
        Some(bindings) => {
            let block = declare(scoped.block, next, number)?;
            Ok(Some(Scoped { bindings, block }))
        }
        None => Ok(None),
    }
}

/// Bindings under which the default has the type of the variable.
#[cycle(infer)]
fn infer_default<'a>(
    alloc: Global,
    names: &[Name<'a>],
    bindings: Bindings,
    default: &'a ParamKind,
    number: u32,
    room: u32,
) -> Result<Option<Bindings>, Stop>
    requires names { NamesBelow (next_of bindings) names.now }
    requires number { IsBelow (next_of bindings) (type_variable number) }
    ensures { IfOk result (FindsThat (λ s. DefaultOf names.now default.now s (s.type_of number)) bindings) }
{
    let value = match default {
        ParamKind::Value(value) => value,
        ParamKind::Required => return Ok(Some(bindings)),
        ParamKind::Pipe => return Ok(Some(bindings)),
    };
    match infer(alloc, names, bindings, value, room)? {
        Some(found) => Ok(Some(equal(alloc, found.bindings, &found.ty, &Ty::Var(number))?)),
        None => Ok(None),
    }
}

/// A type of what the block returns, where each of its assignments has one.
#[cycle(infer)]
fn infer_block<'a>(
    alloc: Global,
    names: List<Name<'a>>,
    bindings: Bindings,
    block: &'a Body,
    room: u32,
) -> Result<Option<Inferred>, Stop>
    requires { NamesBelow (next_of bindings) names }
    ensures { IfOk result (Finds (λ s t. BlockIn (body block.now).lets (body block.now).result (env_under s names.entry) t) bindings) }
{
    let mut asked = bindings;
    let mut inner = names;
    for next in block.lets.as_slice() {
        let found = match infer(alloc, inner.as_slice(), asked, &next.value, room)? {
            Some(found) => found,
            None => return Ok(None),
        };
        asked = found.bindings;
        let label = &next.label;
        let bound = Bound::Assigned(&next.value);
        inner.push(Name { label, bound })?;
    }
    infer(alloc, inner.as_slice(), asked, &block.result, room)
}

/// A type of a text of the parts.
#[cycle(infer)]
fn infer_text<'a>(
    alloc: Global,
    names: &[Name<'a>],
    bindings: Bindings,
    parts: &'a [Part],
    room: u32,
) -> Result<Option<Inferred>, Stop>
    requires { NamesBelow (next_of bindings) names.now }
    ensures { IfOk result (Finds (ShapeOf names.now (text (parts_of (map part parts.now)))) bindings) }
{
    let mut asked = bindings;
    for next in parts {
        asked = match infer_part(alloc, names, asked, next, room)? {
            Some(bindings) => bindings,
            None => return Ok(None),
        };
    }
    Ok(Some(text_type(asked)))
}

/// Bindings under which what is put into a text is of a column kind.
#[cycle(infer)]
fn infer_part<'a>(
    alloc: Global,
    names: &[Name<'a>],
    bindings: Bindings,
    next: &'a Part,
    room: u32,
) -> Result<Option<Bindings>, Stop>
    requires { NamesBelow (next_of bindings) names.now }
    ensures { IfOk result (FindsThat (PartOf names.now next.now) bindings) }
{
    let hole = match next {
        Part::Piece(_) => return Ok(Some(bindings)),
        Part::Hole(hole) => hole,
    };
    match infer(alloc, names, bindings, hole, room)? {
        Some(found) => Ok(Some(among(
            alloc,
            found.bindings,
            &found.ty,
            &[Kind::Bool, Kind::Int, Kind::Text, Kind::Time],
            false,
        )?)),
        None => Ok(None),
    }
}

/// A type of the operators one after another.
#[cycle(infer)]
fn infer_chain<'a>(
    alloc: Global,
    names: &[Name<'a>],
    bindings: Bindings,
    first: &'a Expr,
    rest: &'a [Link],
    room: u32,
) -> Result<Option<Inferred>, Stop>
    requires { NamesBelow (next_of bindings) names.now }
    ensures { IfOk result (Finds (ShapeOf names.now (chain (tree_of first.now) (links_of (map link rest.now)))) bindings) }
{
    let mut left = match infer(alloc, names, bindings, first, room)? {
        Some(found) => found,
        None => return Ok(None),
    };
    for next in rest {
        left = match infer_link(alloc, names, left, next, room)? {
            Some(found) => found,
            None => return Ok(None),
        };
    }
    Ok(Some(left))
}

/// A type of the operator between what stands before and its right operand.
#[cycle(infer)]
fn infer_link<'a>(
    alloc: Global,
    names: &[Name<'a>],
    left: Inferred,
    next: &'a Link,
    room: u32,
) -> Result<Option<Inferred>, Stop>
    requires names { NamesBelow (next_of left.bindings) names.now }
    requires left { IsBelow (next_of left.bindings) (term left.ty) }
    ensures { IfOk result (Finds (λ s t. LinkOf names.now next.now s (ground s (term left.ty)) t) left.bindings) }
{
    match infer(alloc, names, left.bindings, &next.right, room)? {
        Some(right) => Ok(Some(infixed(alloc, right.bindings, next.op, &left.ty, &right.ty)?)),
        None => Ok(None),
    }
}

/// A type of the calls one after another, each with what the one before gives.
#[cycle(infer)]
fn infer_pipe<'a>(
    alloc: Global,
    names: &[Name<'a>],
    bindings: Bindings,
    first: &'a Expr,
    calls: &'a [Expr],
    room: u32,
) -> Result<Option<Inferred>, Stop>
    requires { NamesBelow (next_of bindings) names.now }
    ensures { IfOk result (Finds (ShapeOf names.now (pipe (tree_of first.now) (trees_of (map tree_of calls.now)))) bindings) }
{
    let mut piped = match infer(alloc, names, bindings, first, room)? {
        Some(found) => found,
        None => return Ok(None),
    };
    for call in calls {
        piped = match infer_piped(alloc, names, piped, call, room)? {
            Some(found) => found,
            None => return Ok(None),
        };
    }
    Ok(Some(piped))
}

/// A type of the call with what comes by the pipe.
#[cycle(infer)]
fn infer_piped<'a>(
    alloc: Global,
    names: &[Name<'a>],
    piped: Inferred,
    call: &'a Expr,
    room: u32,
) -> Result<Option<Inferred>, Stop>
    requires names { NamesBelow (next_of piped.bindings) names.now }
    requires piped { IsBelow (next_of piped.bindings) (term piped.ty) }
    ensures { IfOk result (Finds (λ s t. PipedOf names.now call.now s (ground s (term piped.ty)) t) piped.bindings) }
{
    match call.node.get() {
        Node::Call { callee, args } => {
            let input = Some(piped.ty);
            infer_call(
                alloc,
                names,
                piped.bindings,
                callee,
                args.as_slice(),
                input,
                room,
            )
        }
        _ => Ok(None),
    }
}

/// A type of the call, with what comes by the pipe.
#[cycle(infer)]
fn infer_call<'a>(
    alloc: Global,
    names: &[Name<'a>],
    bindings: Bindings,
    of: &'a Expr,
    args: &'a [Prop],
    input: Option<Ty>,
    room: u32,
) -> Result<Option<Inferred>, Stop>
    requires names { NamesBelow (next_of bindings) names.now }
    requires input { PipeBelow (next_of bindings) (pipe_of (option_map term input)) }
    ensures { IfOk result (Finds (CallOf names.now of.now args.now (pipe_of (option_map term input))) bindings) }
{
    if !once(args) {
        return Ok(None);
    }
    match callee_of(alloc, names, of)? {
        Callee::Native(id) => call_native(alloc, names, bindings, id, args, input, room),
        Callee::Literal => Err(Stop::NotYet),
        Callee::Value => call_value(alloc, names, bindings, of, args, input, room),
    }
}

/// A type of the call of a built-in.
#[cycle(infer)]
fn call_native<'a>(
    alloc: Global,
    names: &[Name<'a>],
    bindings: Bindings,
    id: BuiltinId,
    args: &'a [Prop],
    input: Option<Ty>,
    room: u32,
) -> Result<Option<Inferred>, Stop>
    requires names { NamesBelow (next_of bindings) names.now }
    requires input { PipeBelow (next_of bindings) (pipe_of (option_map term input)) }
    requires once { differ (prop_names (props_of (map prop args.now))) ≡ true }
    requires known { (b : Builtin) × IsId id b }
    ensures { (b : Builtin) → IsId id b → IfOk result (Finds (NativeCallOf b names.now args.now (pipe_of (option_map term input))) bindings) }
{
    let words = match words_of_call(alloc, id, args)? {
        Some(words) => words,
        None => return Ok(None),
    };
    let lined = match line_at(alloc, bindings, id, &words)? {
        Some(lined) => lined,
        None => return Ok(None),
    };
    let given = match infer_args(alloc, names, lined.bindings, Some(id), args, room)? {
        Some(given) => given,
        None => return Ok(None),
    };
    let entries = given.entries;
    Ok(called(
        alloc,
        given.bindings,
        &lined.line,
        entries.as_slice(),
        input,
    )?)
}

/// A type of the call of a value.
#[cycle(infer)]
fn call_value<'a>(
    alloc: Global,
    names: &[Name<'a>],
    bindings: Bindings,
    of: &'a Expr,
    args: &'a [Prop],
    input: Option<Ty>,
    room: u32,
) -> Result<Option<Inferred>, Stop>
    requires names { NamesBelow (next_of bindings) names.now }
    requires input { PipeBelow (next_of bindings) (pipe_of (option_map term input)) }
    requires once { differ (prop_names (props_of (map prop args.now))) ≡ true }
    ensures { IfOk result (Finds (ValueCallOf names.now of.now args.now (pipe_of (option_map term input))) bindings) }
{
    let function = match infer(alloc, names, bindings, of, room)? {
        Some(found) => found,
        None => return Ok(None),
    };
    let given = match infer_args(alloc, names, function.bindings, None, args, room)? {
        Some(given) => given,
        None => return Ok(None),
    };
    Ok(Some(result_of(alloc, given.bindings, &function.ty, given.entries, input)?))
}

/// The types of the arguments by their labels; those of a built-in's label arguments say words.
#[cycle(infer)]
fn infer_args<'a>(
    alloc: Global,
    names: &[Name<'a>],
    bindings: Bindings,
    of: Option<BuiltinId>,
    args: &'a [Prop],
    room: u32,
) -> Result<Option<Arguments>, Stop>
    requires names { NamesBelow (next_of bindings) names.now }
    requires once { differ (prop_names (props_of (map prop args.now))) ≡ true }
    requires known { (b : Option Builtin) × IsIdOf of b }
    ensures { (b : Option Builtin) → IsIdOf of b → IfOk result (FindsArgs b names.now args.now bindings) }
{
    let mut asked = bindings;
    let mut entries = List::empty(alloc);
    for arg in args {
        let argument = match infer_arg(alloc, names, asked, of, arg, room)? {
            Some(argument) => argument,
            None => return Ok(None),
        };
        let given = with_argument(entries, &arg.label, argument)?;
        asked = given.bindings;
        entries = given.entries;
    }
    Ok(Some(Arguments {
        bindings: asked,
        entries,
    }))
}

/// The type of an argument, or nothing where it says words.
#[cycle(infer)]
fn infer_arg<'a>(
    alloc: Global,
    names: &[Name<'a>],
    bindings: Bindings,
    of: Option<BuiltinId>,
    arg: &'a Prop,
    room: u32,
) -> Result<Option<Argument>, Stop>
    requires names { NamesBelow (next_of bindings) names.now }
    requires known { (b : Option Builtin) × IsIdOf of b }
    ensures { (b : Option Builtin) → IsIdOf of b → IfOk result (FindsArg (ArgOf b names.now arg.now) bindings) }
{
    match form_at(of, &arg.label) {
        Some(form) => Ok(said(alloc, names, bindings, form, &arg.value)?),
        None => match infer(alloc, names, bindings, &arg.value, room)? {
            Some(found) => Ok(Some(argument_of(found))),
            None => Ok(None),
        },
    }
}

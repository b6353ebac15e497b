//! Trees and their copies.
use fx_ast::Script;
use fx_base::Text;
use fx_parse::parse;
use fx_scan::scan;
use std::alloc::Global;
use std::test::Fail;

/// The tree of a short text, if it has one.
fn tree_of(alloc: Global, text: &Text) -> Result<Option<Script>, Fail> {
    if text.as_bytes().len() > 65_536 {
        return Ok(None);
    }
    let Ok(tokens) = scan(alloc, text) else {
        return Ok(None);
    };
    match parse(alloc, text, &tokens) {
        Ok(script) => Ok(Some(script)),
        Err(_) => Ok(None),
    }
}

#[test]
fn a_copy_has_the_same_tree_and_another_text_has_not(rt: HostRuntime) -> Result<(), Fail> {
    let alloc = rt.alloc();
    let text = "f = (x, y=1, t=<-) => {a = [x] return \"${a[0]} b\"}\nf(x: -2) |> g(p: /x/)";
    let script = tree_of(alloc, &Text::of(alloc, text)?)?.expect(&rt, "a tree");
    assert!(rt; script.same_tree(&script.copy(alloc)?));
    for (other, want) in [
        (
            "f = ( x , y=1, t=<-) => {a = [x] return \"${a[0]} b\"} f(x: -2) |> g(p: /x/)",
            true,
        ),
        (
            "f = (x, y=2, t=<-) => {a = [x] return \"${a[0]} b\"}\nf(x: -2) |> g(p: /x/)",
            false,
        ),
    ] {
        let other = tree_of(alloc, &Text::of(alloc, other)?)?.expect(&rt, "a tree");
        assert_eq!(rt; script.same_tree(&other), want);
    }
    Ok(())
}
